//! The operands of some values, patterns and terminals.

use super::graphs::{debugger, nested, one_block, one_function, read, with_row};
use rc_hir::{
    ArrayPatternElement, Case, Effect, Environment, Fault, InstructionKind, InstructionValue,
    LValue, Pattern, Place, PlaceOrSpread, SpreadPattern, TableName, Terminal, borrowed_operands,
    each_instruction_value_lvalue, each_instruction_value_operand, each_pattern_operand,
    each_terminal_operand,
};
use rc_names::{BlockId, EvaluationOrder, List};
use std::alloc::{AllocError, Global};
use std::test::Fail;

// Whether the places have these numbers, in order.
fn are(places: &List<Place>, numbers: &[u32]) -> bool {
    places.len() == numbers.len()
        && places
            .as_slice()
            .iter()
            .zip(numbers)
            .all(|(place, number)| place.identifier.0 == *number)
}

/// The operands of a value.
fn operands(
    alloc: Global,
    value: &InstructionValue,
    env: &Environment,
) -> Result<List<Place>, Fault> {
    each_instruction_value_operand(alloc, value, env)
}

/// The targets of a value.
fn targets(alloc: Global, value: &InstructionValue) -> Result<List<Place>, Fault> {
    each_instruction_value_lvalue(alloc, value)
}

/// The places of a pattern.
fn places(alloc: Global, pattern: &Pattern) -> Result<List<Place>, Fault> {
    each_pattern_operand(alloc, pattern)
}

/// The operands of a terminal.
fn reads(alloc: Global, terminal: &Terminal) -> Result<List<Place>, Fault> {
    each_terminal_operand(alloc, terminal)
}

/// The operands of a call of place 1 with place 2 and, spread out, place 3.
fn call_operands(alloc: Global) -> Result<List<Place>, Fault> {
    let args = [
        PlaceOrSpread::Place(read(2)),
        PlaceOrSpread::Spread(SpreadPattern { place: read(3) }),
    ];
    let call = InstructionValue::CallExpression {
        callee: read(1),
        args: List::from_slice(alloc, &args)?,
        span: None,
    };
    operands(alloc, &call, &Environment::empty(alloc))
}

#[test]
fn a_spread_counts_as_its_place(rt: HostRuntime) -> Result<(), Fail> {
    assert!(rt; are(&call_operands(rt.alloc())?, &[1, 2, 3]));
    Ok(())
}

/// The targets of a store of place 2 into place 4.
fn store_targets(alloc: Global) -> Result<List<Place>, Fault> {
    let store = InstructionValue::StoreLocal {
        lvalue: LValue {
            kind: InstructionKind::Const,
            place: read(4),
        },
        value: read(2),
        span: None,
    };
    targets(alloc, &store)
}

#[test]
fn a_store_writes_its_target(rt: HostRuntime) -> Result<(), Fail> {
    assert!(rt; are(&store_targets(rt.alloc())?, &[4]));
    Ok(())
}

/// The places of a pattern that has place 4, a hole and, for the rest, place 5.
fn pattern_places(alloc: Global) -> Result<List<Place>, Fault> {
    let items = [
        ArrayPatternElement::Place(read(4)),
        ArrayPatternElement::Hole,
        ArrayPatternElement::Spread(SpreadPattern { place: read(5) }),
    ];
    let pattern = Pattern::Array {
        items: List::from_slice(alloc, &items)?,
    };
    places(alloc, &pattern)
}

#[test]
fn a_hole_counts_for_nothing(rt: HostRuntime) -> Result<(), Fail> {
    assert!(rt; are(&pattern_places(rt.alloc())?, &[4, 5]));
    Ok(())
}

/// A switch over place 0 with a case of place 1 and a default.
fn switch(alloc: Global) -> Result<Terminal, AllocError> {
    let cases = [
        Case {
            test: Some(read(1)),
            block: BlockId::new(1),
        },
        Case {
            test: None,
            block: BlockId::new(2),
        },
    ];
    Ok(Terminal::Switch {
        test: read(0),
        cases: List::from_slice(alloc, &cases)?,
        fallthrough: BlockId::new(3),
        id: EvaluationOrder::new(9),
        span: None,
    })
}

/// The operands of that switch.
fn switch_operands(alloc: Global) -> Result<List<Place>, Fault> {
    reads(alloc, &switch(alloc)?)
}

/// Its place in the order of evaluation.
fn switch_order(alloc: Global) -> Result<EvaluationOrder, AllocError> {
    Ok(switch(alloc)?.evaluation_order())
}

#[test]
fn a_default_has_no_test(rt: HostRuntime) -> Result<(), Fail> {
    let alloc = rt.alloc();
    assert!(rt; are(&switch_operands(alloc)?, &[0, 1]));
    assert_eq!(rt; switch_order(alloc)?, EvaluationOrder::new(9));
    Ok(())
}

/// Whether that switch leads to these blocks, those of its cases, and to no other.
fn switch_leads_to(alloc: Global, blocks: &[u32]) -> Result<bool, AllocError> {
    let switch = switch(alloc)?;
    let successors = switch.successors();
    let numbers = successors.cases.iter().map(|case| case.block.0);
    let no_others = successors.first.is_none() && successors.second.is_none();
    Ok(no_others && numbers.eq(blocks.iter().copied()))
}

#[test]
fn a_switch_with_a_default_leads_to_its_cases_alone(rt: HostRuntime) -> Result<(), Fail> {
    assert!(rt; switch_leads_to(rt.alloc(), &[1, 2])?);
    Ok(())
}

/// The operands of a function as a value, with a table of one function that has that context.
fn function_operands(alloc: Global, context: &[Place], number: u32) -> Result<List<Place>, Fault> {
    let function = with_row(one_block(alloc, context)?, debugger())?;
    let env = one_function(alloc, function)?;
    operands(alloc, &nested(number), &env)
}

#[test]
fn a_function_reads_its_context(rt: HostRuntime) -> Result<(), Fail> {
    assert!(rt; are(&function_operands(rt.alloc(), &[read(6)], 0)?, &[6]));
    Ok(())
}

#[test]
fn a_function_outside_its_table_is_a_bad_name(rt: HostRuntime) {
    let refused = Fault::BadName {
        table: TableName::Functions,
        index: 1,
    };
    assert_eq!(rt; function_operands(rt.alloc(), &[], 1).err(), Some(refused));
}

/// A store of place 3 into the property of place 1 that place 2 computes.
fn computed_store() -> InstructionValue {
    InstructionValue::ComputedStore {
        object: read(1),
        property: read(2),
        value: read(3),
        span: None,
    }
}

/// The operands of that store.
fn store_operands(alloc: Global) -> Result<List<Place>, Fault> {
    operands(alloc, &computed_store(), &Environment::empty(alloc))
}

/// How many operands a value has.
fn count(alloc: Global, value: &InstructionValue, env: &Environment) -> Result<usize, Fault> {
    Ok(borrowed_operands(alloc, value, env)?.as_slice().len())
}

/// How many operands that store has.
fn store_count(alloc: Global) -> Result<usize, Fault> {
    count(alloc, &computed_store(), &Environment::empty(alloc))
}

#[test]
fn three_operands_come_in_order(rt: HostRuntime) -> Result<(), Fail> {
    let alloc = rt.alloc();
    assert!(rt; are(&store_operands(alloc)?, &[1, 2, 3]));
    assert_eq!(rt; store_count(alloc)?, 3);
    Ok(())
}

#[test]
fn a_capture_may_change_its_value(rt: HostRuntime) {
    assert!(rt; Effect::Capture.is_mutable());
    assert!(rt; !Effect::Read.is_mutable());
}
