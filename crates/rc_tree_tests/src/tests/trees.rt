//! Small parts of trees, and the visits of their walks.

use crate::tests::recorder::{Part, Visit};
use rc_hir::{Effect, InstructionValue, Place};
use rc_names::{Boxed, EvaluationOrder, IdentifierId, List, Span};
use rc_tree::{
    ReactiveBlock, ReactiveFunction, ReactiveInstruction, ReactiveStatement, ReactiveTerminal,
    ReactiveTerminalStatement, ReactiveValue,
};
use std::alloc::{AllocError, Global};

/// The span of each part that has one.
pub const SPAN: Option<Span> = Some(Span { start: 3, end: 8 });

/// A place, with no part as it is where nothing is said of it.
pub fn place(number: u32) -> Place {
    Place {
        identifier: IdentifierId::new(number),
        effect: Effect::Store,
        reactive: true,
        span: SPAN,
    }
}

/// The value that loads a place.
pub fn load(number: u32) -> ReactiveValue {
    ReactiveValue::Instruction(InstructionValue::LoadLocal {
        place: place(number),
        span: SPAN,
    })
}

/// The value of a loop that loads a place.
pub fn boxed_load(alloc: Global, number: u32) -> Result<Boxed<ReactiveValue>, AllocError> {
    Boxed::new(alloc, load(number))
}

/// The visits of a value that loads a place.
pub fn load_visits(id: u32, number: u32) -> [Visit; 3] {
    [
        Visit::Enter(Part::Value(id)),
        Visit::Operand(id, number),
        Visit::Leave(Part::Value(id)),
    ]
}

/// A row without a target.
pub fn row(id: u32, value: ReactiveValue) -> ReactiveInstruction {
    ReactiveInstruction {
        id: EvaluationOrder::new(id),
        lvalue: None,
        value,
        span: SPAN,
    }
}

/// A statement of a terminal without a label.
pub fn statement(
    alloc: Global,
    terminal: ReactiveTerminal,
) -> Result<ReactiveStatement, AllocError> {
    let stmt = ReactiveTerminalStatement {
        terminal,
        label: None,
    };
    Ok(ReactiveStatement::Terminal(Boxed::new(alloc, stmt)?))
}

/// A block without statements.
pub fn empty(alloc: Global) -> ReactiveBlock {
    ReactiveBlock {
        statements: List::new(alloc),
    }
}

/// A block that returns a place.
pub fn returning(alloc: Global, id: u32, number: u32) -> Result<ReactiveBlock, AllocError> {
    let mut block = empty(alloc);
    let terminal = ReactiveTerminal::Return {
        value: place(number),
        id: EvaluationOrder::new(id),
    };
    block.statements.push(statement(alloc, terminal)?)?;
    Ok(block)
}

/// The visits of a block that returns a place.
pub fn returning_visits(id: u32, number: u32) -> [Visit; 6] {
    [
        Visit::Enter(Part::Block),
        Visit::Enter(Part::Terminal),
        Visit::Id(id),
        Visit::Operand(id, number),
        Visit::Leave(Part::Terminal),
        Visit::Leave(Part::Block),
    ]
}

/// A function with that body and nothing else.
pub fn function(alloc: Global, body: ReactiveBlock) -> ReactiveFunction {
    ReactiveFunction {
        span: None,
        id: None,
        name_hint: None,
        params: List::new(alloc),
        generator: false,
        is_async: false,
        body,
        directives: List::new(alloc),
    }
}

/// Appends visits to those that are there.
pub fn note(visits: &mut List<Visit>, more: &[Visit]) -> Result<(), AllocError> {
    for visit in more {
        visits.push(*visit)?;
    }
    Ok(())
}
