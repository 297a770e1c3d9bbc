//! Reading a function, and the parts of small ones.

use rc_flat::read_function;
use rc_hir::{Effect, InstructionValue, ParamPattern, Place};
use rc_names::{Boxed, EvaluationOrder, IdentifierId, List};
use rc_tree::{
    ReactiveBlock, ReactiveFunction, ReactiveInstruction, ReactiveStatement, ReactiveTerminal,
    ReactiveTerminalStatement, ReactiveValue,
};
use serde_json::Value;
use std::alloc::{AllocError, Global};
use std::test::Fail;

/// The function of a text, if it gives one.
pub fn read(alloc: Global, text: &str) -> Result<Option<ReactiveFunction>, Fail> {
    let value = Value::from_str(alloc, text)?;
    Ok(read_function(alloc, &value)?)
}

/// Whether a text gives a function.
pub fn is_function(alloc: Global, text: &str) -> Result<bool, Fail> {
    Ok(read(alloc, text)?.is_some())
}

/// A place that is read.
pub fn place(number: u32) -> Place {
    Place {
        identifier: IdentifierId::new(number),
        effect: Effect::Read,
        reactive: false,
        span: None,
    }
}

/// A value that loads a place.
pub fn load(number: u32) -> ReactiveValue {
    ReactiveValue::Instruction(InstructionValue::LoadLocal {
        place: place(number),
        span: None,
    })
}

/// A row with a target.
pub fn row(id: u32, lvalue: u32, value: ReactiveValue) -> ReactiveInstruction {
    ReactiveInstruction {
        id: EvaluationOrder::new(id),
        lvalue: Some(place(lvalue)),
        value,
        span: None,
    }
}

/// A return.
pub fn return_of(alloc: Global, value: u32, id: u32) -> Result<ReactiveStatement, AllocError> {
    let terminal = ReactiveTerminal::Return {
        value: place(value),
        id: EvaluationOrder::new(id),
    };
    let statement = ReactiveTerminalStatement {
        terminal,
        label: None,
    };
    Ok(ReactiveStatement::Terminal(Boxed::new(alloc, statement)?))
}

/// A function with that many parameters and this body.
pub fn function(
    alloc: Global,
    count: u32,
    statements: List<ReactiveStatement>,
) -> Result<ReactiveFunction, AllocError> {
    let mut params = List::new(alloc);
    for number in 0..count {
        params.push(ParamPattern::Place(place(number)))?;
    }
    Ok(ReactiveFunction {
        span: None,
        id: None,
        name_hint: None,
        params,
        generator: false,
        is_async: false,
        body: ReactiveBlock { statements },
        directives: List::new(alloc),
    })
}
