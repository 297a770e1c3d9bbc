//! Statements of the forms that no graph gives.

use super::parts::{empty, explicit, implicit, load, place, put, put_row, row};
use rc_names::{BlockId, Boxed, EvaluationOrder, List};
use rc_tree::{
    ReactiveBlock, ReactiveLabel, ReactiveSwitchCase, ReactiveTerminal, ReactiveTerminalTargetKind,
    ReactiveValue,
};
use std::alloc::{AllocError, Global};

/// A sequence of one row without a target.
fn sequence(alloc: Global) -> Result<ReactiveValue, AllocError> {
    let mut instructions = List::new(alloc);
    instructions.push(row(5, load(6)))?;
    Ok(ReactiveValue::SequenceExpression {
        instructions,
        id: EvaluationOrder::new(4),
        value: Boxed::new(alloc, load(7))?,
    })
}

/// Rows without a target, also in a value.
pub fn put_rows(alloc: Global, block: &mut ReactiveBlock) -> Result<(), AllocError> {
    put_row(block, row(1, load(2)))?;
    put_row(block, row(3, sequence(alloc)?))
}

/// A break and a continue of that kind, with a label of their own.
pub fn put_jumps(
    alloc: Global,
    block: &mut ReactiveBlock,
    target_kind: ReactiveTerminalTargetKind,
    label: Option<ReactiveLabel>,
) -> Result<(), AllocError> {
    let jump = ReactiveTerminal::Break {
        target: BlockId::new(11),
        target_kind,
        id: EvaluationOrder::new(12),
    };
    put(alloc, block, jump, label)?;
    let jump = ReactiveTerminal::Continue {
        target: BlockId::new(13),
        target_kind,
        id: EvaluationOrder::new(14),
    };
    put(alloc, block, jump, label)
}

/// A return and a throw with labels.
pub fn put_ends(alloc: Global, block: &mut ReactiveBlock) -> Result<(), AllocError> {
    let end = ReactiveTerminal::Return {
        value: place(18),
        id: EvaluationOrder::new(19),
    };
    put(alloc, block, end, explicit(20))?;
    let end = ReactiveTerminal::Throw {
        value: place(21),
        id: EvaluationOrder::new(24),
    };
    put(alloc, block, end, implicit(25))
}

/// A switch whose case and whose default have no block.
pub fn put_switch(alloc: Global, block: &mut ReactiveBlock) -> Result<(), AllocError> {
    let mut cases = List::new(alloc);
    cases.push(ReactiveSwitchCase {
        test: Some(place(44)),
        block: None,
    })?;
    cases.push(ReactiveSwitchCase {
        test: None,
        block: None,
    })?;
    let terminal = ReactiveTerminal::Switch {
        test: place(47),
        cases,
        id: EvaluationOrder::new(48),
    };
    put(alloc, block, terminal, None)
}

/// A `for` loop without a label and an update.
pub fn put_for(alloc: Global, block: &mut ReactiveBlock) -> Result<(), AllocError> {
    let terminal = ReactiveTerminal::For {
        init: Boxed::new(alloc, load(60))?,
        test: Boxed::new(alloc, load(61))?,
        update: None,
        loop_block: empty(alloc),
        id: EvaluationOrder::new(59),
    };
    put(alloc, block, terminal, None)
}

/// A loop over the values of a collection, with no label and no part that is a sequence.
pub fn put_for_of(alloc: Global, block: &mut ReactiveBlock) -> Result<(), AllocError> {
    let terminal = ReactiveTerminal::ForOf {
        init: Boxed::new(alloc, load(72))?,
        test: Boxed::new(alloc, load(73))?,
        loop_block: empty(alloc),
        span: None,
        id: EvaluationOrder::new(71),
    };
    put(alloc, block, terminal, None)
}

/// A loop over the property names of an object, with no label and no part that is a sequence.
pub fn put_for_in(alloc: Global, block: &mut ReactiveBlock) -> Result<(), AllocError> {
    let terminal = ReactiveTerminal::ForIn {
        init: Boxed::new(alloc, load(80))?,
        loop_block: empty(alloc),
        span: None,
        id: EvaluationOrder::new(79),
    };
    put(alloc, block, terminal, None)
}
