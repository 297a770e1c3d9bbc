//! Whole trees: one with a block in a block, one with values in values, and one that nests deep.

use super::answers::{CONDITIONAL, SCOPE};
use super::parts::{function, is_function, load, place, read, return_of, row};
use rc_equality::Equals;
use rc_hir::{InstructionValue, PrimitiveValue};
use rc_names::{Boxed, EvaluationOrder, List, ScopeId};
use rc_tree::{
    PrunedReactiveScopeBlock, ReactiveBlock, ReactiveFunction, ReactiveStatement, ReactiveValue,
};
use std::alloc::{AllocError, Global};
use std::test::Fail;

/// A pruned scope with one row.
fn pruned_scope(alloc: Global) -> Result<ReactiveStatement, AllocError> {
    let debugger = ReactiveValue::Instruction(InstructionValue::Debugger { span: None });
    let mut statements = List::new(alloc);
    statements.push(ReactiveStatement::Instruction(row(2, 1, debugger)))?;
    Ok(ReactiveStatement::PrunedScope(PrunedReactiveScopeBlock {
        scope: ScopeId::new(0),
        instructions: ReactiveBlock { statements },
    }))
}

/// The tree of `examples/scope.json`.
fn scope(alloc: Global) -> Result<ReactiveFunction, AllocError> {
    let mut statements = List::new(alloc);
    statements.push(pruned_scope(alloc)?)?;
    statements.push(return_of(alloc, 0, 4)?)?;
    function(alloc, 1, statements)
}

/// A sequence that makes a null and loads it.
fn sequence(alloc: Global) -> Result<ReactiveValue, AllocError> {
    let null = InstructionValue::Primitive {
        value: PrimitiveValue::Null,
        span: None,
    };
    let mut instructions = List::new(alloc);
    instructions.push(row(5, 4, ReactiveValue::Instruction(null)))?;
    Ok(ReactiveValue::SequenceExpression {
        instructions,
        id: EvaluationOrder::new(6),
        value: Boxed::new(alloc, load(4))?,
    })
}

/// A conditional with a sequence for its alternate.
fn conditional_value(alloc: Global) -> Result<ReactiveValue, AllocError> {
    let alternate = Boxed::new(alloc, sequence(alloc)?)?;
    Ok(ReactiveValue::ConditionalExpression {
        test: Boxed::new(alloc, load(0))?,
        consequent: Boxed::new(alloc, load(1))?,
        alternate,
    })
}

/// The tree of `examples/conditional.json`.
fn conditional(alloc: Global) -> Result<ReactiveFunction, AllocError> {
    let mut statements = List::new(alloc);
    let value = conditional_value(alloc)?;
    statements.push(ReactiveStatement::Instruction(row(1, 3, value)))?;
    statements.push(return_of(alloc, 3, 8)?)?;
    function(alloc, 2, statements)
}

/// Whether a text gives the function.
fn gives(alloc: Global, text: &str, expected: &ReactiveFunction) -> Result<bool, Fail> {
    match read(alloc, text)? {
        Some(func) => Ok(func.equals(expected)),
        None => Ok(false),
    }
}

#[test]
fn a_block_is_put_into_its_scope(rt: HostRuntime) -> Result<(), Fail> {
    let alloc = rt.alloc();
    assert!(rt; gives(alloc, SCOPE, &scope(alloc)?)?);
    Ok(())
}

#[test]
fn values_are_put_into_their_places(rt: HostRuntime) -> Result<(), Fail> {
    let alloc = rt.alloc();
    assert!(rt; gives(alloc, CONDITIONAL, &conditional(alloc)?)?);
    Ok(())
}

/// The text of blocks of which each but the last holds the next one in a scope.
fn nested_blocks(alloc: Global, count: u32) -> Result<String, Fail> {
    let mut text = format!(in alloc; "{{\"blocks\":[")?;
    for number in 1..count {
        let block = format!(in alloc;
            r#"[{{"k":"Scope","v":{{"instructions":{number},"scope":0}}}}],"#
        )?;
        text.push_str(block.as_str())?;
    }
    text.push_str("[]]}")?;
    Ok(text)
}

#[test]
fn a_hundred_thousand_levels_are_read(rt: HostRuntime) -> Result<(), Fail> {
    let alloc = rt.alloc();
    let text = nested_blocks(alloc, 100_000)?;
    assert!(rt; is_function(alloc, text.as_str())?);
    Ok(())
}
