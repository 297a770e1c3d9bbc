//! The walk of a graph's function, with its nested functions.

use crate::tests::recorder::{Part, Recorder, Visit};
use crate::tests::trees::place;
use rc_hir::{
    BasicBlock, Environment, Fault, Hir, HirFunction, Instruction, InstructionValue,
    LoweredFunction, ParamPattern, SpreadPattern, TableName, Terminal,
};
use rc_names::{BlockId, EvaluationOrder, FunctionId, InstructionId, Keyed, List};
use rc_walk::visit_hir_function;
use std::alloc::{AllocError, Global};
use std::test::Fail;

/// A row of id 1 whose value is a function, and which writes place 8.
fn holding(function: u32) -> Instruction {
    Instruction {
        id: EvaluationOrder::new(1),
        lvalue: place(8),
        value: InstructionValue::FunctionExpression {
            name: None,
            lowered_func: LoweredFunction {
                func: FunctionId::new(function),
            },
            span: None,
        },
        span: None,
    }
}

/// A row of id 3 that reads nothing, and writes place 9.
fn quiet() -> Instruction {
    Instruction {
        id: EvaluationOrder::new(3),
        lvalue: place(9),
        value: InstructionValue::Debugger { span: None },
        span: None,
    }
}

/// A function of one row and one block, which names rows and returns place 5 at id 7.
fn function(
    alloc: Global,
    context: u32,
    row: Instruction,
    named: &[InstructionId],
) -> Result<HirFunction, AllocError> {
    let params = [
        ParamPattern::Place(place(context)),
        ParamPattern::Spread(SpreadPattern { place: place(4) }),
    ];
    let mut instructions = List::new(alloc);
    instructions.push(row)?;
    let mut blocks = Keyed::new(alloc);
    blocks.insert(
        BlockId::new(0),
        BasicBlock {
            id: BlockId::new(0),
            instructions: List::from_slice(alloc, named)?,
            terminal: Terminal::Return {
                value: place(5),
                id: EvaluationOrder::new(7),
                span: None,
            },
        },
    )?;
    Ok(HirFunction {
        span: None,
        id: None,
        name_hint: None,
        params: List::from_slice(alloc, &params)?,
        generator: false,
        is_async: false,
        context: List::from_slice(alloc, &[place(context)])?,
        body: Hir {
            entry: BlockId::new(0),
            blocks,
        },
        instructions,
        directives: List::new(alloc),
    })
}

/// Appends such a function to the table.
fn add(
    alloc: Global,
    env: &mut Environment,
    context: u32,
    row: Instruction,
    named: &[InstructionId],
) -> Result<(), AllocError> {
    let function = function(alloc, context, row, named)?;
    if !env.functions.is_full() {
        env.functions.push(function)?;
    }
    Ok(())
}

/// A visitor over a table of two functions. The first has that row and names it in its block as often as `named` says;
/// the second has the row that reads nothing, or the other row.
fn over(
    alloc: Global,
    first: Instruction,
    named: &[InstructionId],
    second: Instruction,
) -> Result<Recorder, AllocError> {
    let mut recorder = Recorder {
        env: Environment::empty(alloc),
    };
    add(alloc, &mut recorder.env, 10, first, named)?;
    add(
        alloc,
        &mut recorder.env,
        11,
        second,
        &[InstructionId::new(0)],
    )?;
    Ok(recorder)
}

/// The visits of the walk of the first function, which contains the second as often as `named` says.
fn walk_of_both(alloc: Global, named: &[InstructionId]) -> Result<List<Visit>, Fault> {
    let recorder = over(alloc, holding(1), named, quiet())?;
    let mut visits = List::new(alloc);
    visit_hir_function(alloc, &recorder, FunctionId::new(0), &mut visits)?;
    Ok(visits)
}

/// The fault with which the walk of a function of such a table stops, if it does.
fn fault_of(alloc: Global, recorder: &Recorder, function: u32) -> Option<Fault> {
    let mut visits = List::new(alloc);
    visit_hir_function(alloc, recorder, FunctionId::new(function), &mut visits).err()
}

/// The visits of the row whose value is the second function, and of that function's inside.
const HELD: [Visit; 16] = [
    Visit::Enter(Part::Row(1)),
    Visit::Id(1),
    Visit::Target(1, 8),
    Visit::Enter(Part::Value(1)),
    Visit::Operand(1, 11),
    Visit::Leave(Part::Value(1)),
    Visit::Leave(Part::Row(1)),
    Visit::Param(11),
    Visit::Param(4),
    Visit::Enter(Part::Row(3)),
    Visit::Id(3),
    Visit::Target(3, 9),
    Visit::Enter(Part::Value(3)),
    Visit::Leave(Part::Value(3)),
    Visit::Leave(Part::Row(3)),
    Visit::Operand(7, 5),
];

/// Whether the walk of the first function has its own visits, and those of the second after the row whose value it is.
fn is_walked_behind_its_row(alloc: Global) -> Result<bool, Fault> {
    let visits = walk_of_both(alloc, &[InstructionId::new(0)])?;
    let mut expected = List::from_slice(alloc, &[Visit::Param(10), Visit::Param(4)])?;
    expected.append(List::from_slice(alloc, HELD.as_slice())?)?;
    expected.push(Visit::Operand(7, 5))?;
    Ok(visits.as_slice() == expected.as_slice())
}

#[test]
fn a_function_is_walked_behind_the_row_that_holds_it(rt: HostRuntime) -> Result<(), Fail> {
    assert!(rt; is_walked_behind_its_row(rt.alloc())?);
    Ok(())
}

/// The number of visits of the walk of a function that contains the second one twice.
fn visits_of_two(alloc: Global) -> Result<usize, Fault> {
    Ok(walk_of_both(alloc, &[InstructionId::new(0), InstructionId::new(0)])?.len())
}

#[test]
fn a_function_may_be_met_again_behind_itself(rt: HostRuntime) -> Result<(), Fail> {
    assert_eq!(rt; visits_of_two(rt.alloc())?, 35);
    Ok(())
}

/// The fault with which the walk of a function stops that contains itself.
fn fault_of_itself(alloc: Global) -> Result<Option<Fault>, AllocError> {
    let recorder = over(alloc, holding(0), &[InstructionId::new(0)], quiet())?;
    Ok(fault_of(alloc, &recorder, 0))
}

/// The fault with which the walk of a function stops that contains another, which contains the first.
fn fault_of_each_other(alloc: Global) -> Result<Option<Fault>, AllocError> {
    let recorder = over(alloc, holding(1), &[InstructionId::new(0)], holding(0))?;
    Ok(fault_of(alloc, &recorder, 0))
}

#[test]
fn a_function_inside_itself_is_a_cycle(rt: HostRuntime) -> Result<(), Fail> {
    let alloc = rt.alloc();
    let cycle = Fault::FunctionCycle {
        function: FunctionId::new(0),
    };
    assert_eq!(rt; fault_of_itself(alloc)?, Some(cycle));
    assert_eq!(rt; fault_of_each_other(alloc)?, Some(cycle));
    Ok(())
}

/// The fault with which the walk of the first function stops, which names row 4, where no function contains another.
fn fault_outside_table(alloc: Global, function: u32) -> Result<Option<Fault>, AllocError> {
    let recorder = over(alloc, quiet(), &[InstructionId::new(4)], quiet())?;
    Ok(fault_of(alloc, &recorder, function))
}

#[test]
fn a_number_outside_its_table_is_a_bad_name(rt: HostRuntime) -> Result<(), Fail> {
    let alloc = rt.alloc();
    let row = Fault::BadName {
        table: TableName::Instructions,
        index: 4,
    };
    assert_eq!(rt; fault_outside_table(alloc, 0)?, Some(row));
    let function = Fault::BadName {
        table: TableName::Functions,
        index: 2,
    };
    assert_eq!(rt; fault_outside_table(alloc, 2)?, Some(function));
    Ok(())
}
