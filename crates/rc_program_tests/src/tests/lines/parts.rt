//! Small parts of the tree that is printed.

use rc_hir::{Effect, InstructionValue, Place};
use rc_names::{BlockId, Boxed, EvaluationOrder, IdentifierId, List};
use rc_tree::{
    ReactiveBlock, ReactiveFunction, ReactiveInstruction, ReactiveLabel, ReactiveStatement,
    ReactiveTerminal, ReactiveTerminalStatement, ReactiveValue,
};
use std::alloc::{AllocError, Global};

/// A place that is determined by its number.
pub fn place(number: u32) -> Place {
    Place {
        identifier: IdentifierId::new(number),
        effect: Effect::Read,
        reactive: false,
        span: None,
    }
}

/// A label that a labeled jump names.
pub fn explicit(block: u32) -> Option<ReactiveLabel> {
    Some(ReactiveLabel {
        id: BlockId::new(block),
        implicit: false,
    })
}

/// A label that no labeled jump names.
pub fn implicit(block: u32) -> Option<ReactiveLabel> {
    Some(ReactiveLabel {
        id: BlockId::new(block),
        implicit: true,
    })
}

/// The value that loads a place.
pub fn load(number: u32) -> ReactiveValue {
    ReactiveValue::Instruction(InstructionValue::LoadLocal {
        place: place(number),
        span: None,
    })
}

/// A row without a target.
pub fn row(id: u32, value: ReactiveValue) -> ReactiveInstruction {
    ReactiveInstruction {
        id: EvaluationOrder::new(id),
        lvalue: None,
        value,
        span: None,
    }
}

/// Appends a row to a block.
pub fn put_row(block: &mut ReactiveBlock, row: ReactiveInstruction) -> Result<(), AllocError> {
    block.statements.push(ReactiveStatement::Instruction(row))
}

/// Appends a terminal with a label to a block.
pub fn put(
    alloc: Global,
    block: &mut ReactiveBlock,
    terminal: ReactiveTerminal,
    label: Option<ReactiveLabel>,
) -> Result<(), AllocError> {
    let statement = Boxed::new(alloc, ReactiveTerminalStatement { terminal, label })?;
    block
        .statements
        .push(ReactiveStatement::Terminal(statement))
}

/// A block without statements.
pub fn empty(alloc: Global) -> ReactiveBlock {
    ReactiveBlock {
        statements: List::new(alloc),
    }
}

/// An async function with that body and nothing else.
pub fn function(alloc: Global, body: ReactiveBlock) -> ReactiveFunction {
    ReactiveFunction {
        span: None,
        id: None,
        name_hint: None,
        params: List::new(alloc),
        generator: false,
        is_async: true,
        body,
        directives: List::new(alloc),
    }
}
