//! Deep trees of each kind of statement with a block, which are dropped. A drop that passed over a kind would let its
//! levels go by nested calls, for which no stack is large enough.

use crate::tests::trees::{boxed_load, empty, place, statement};
use rc_names::{EvaluationOrder, List, ScopeId};
use rc_tree::{
    PrunedReactiveScopeBlock, ReactiveBlock, ReactiveScopeBlock, ReactiveStatement,
    ReactiveSwitchCase, ReactiveTerminal,
};
use std::alloc::{AllocError, Global};
use std::test::Fail;

/// The kinds of statements with a block, each by the part that is the block.
#[derive(Clone, Copy, Debug)]
enum Around {
    Consequent,
    Alternate,
    Case,
    DoWhile,
    While,
    For,
    ForOf,
    ForIn,
    Label,
    TryBlock,
    Handler,
    Scope,
    PrunedScope,
}

/// The id of each statement.
fn id() -> EvaluationOrder {
    EvaluationOrder::new(1)
}

/// A switch whose one case has the block.
fn switch(alloc: Global, block: ReactiveBlock) -> Result<ReactiveTerminal, AllocError> {
    let mut cases = List::new(alloc);
    cases.push(ReactiveSwitchCase {
        test: None,
        block: Some(block),
    })?;
    Ok(ReactiveTerminal::Switch {
        test: place(0),
        cases,
        id: id(),
    })
}

/// An `If` with these arms.
fn arms(consequent: ReactiveBlock, alternate: Option<ReactiveBlock>) -> ReactiveTerminal {
    ReactiveTerminal::If {
        test: place(0),
        consequent,
        alternate,
        id: id(),
    }
}

/// A `Try` with this block and this handler.
fn attempt(block: ReactiveBlock, handler: ReactiveBlock) -> ReactiveTerminal {
    ReactiveTerminal::Try {
        block,
        handler_binding: None,
        handler,
        id: id(),
    }
}

/// A loop of this kind with the block as its body; any other kind is a label.
fn body_of(
    alloc: Global,
    kind: Around,
    block: ReactiveBlock,
) -> Result<ReactiveTerminal, AllocError> {
    match kind {
        Around::DoWhile => Ok(ReactiveTerminal::DoWhile {
            test: boxed_load(alloc, 0)?,
            loop_block: block,
            id: id(),
        }),
        Around::While => Ok(ReactiveTerminal::While {
            test: boxed_load(alloc, 0)?,
            loop_block: block,
            id: id(),
        }),
        Around::For => Ok(ReactiveTerminal::For {
            init: boxed_load(alloc, 0)?,
            test: boxed_load(alloc, 0)?,
            update: None,
            loop_block: block,
            id: id(),
        }),
        Around::ForOf => Ok(ReactiveTerminal::ForOf {
            init: boxed_load(alloc, 0)?,
            test: boxed_load(alloc, 0)?,
            loop_block: block,
            span: None,
            id: id(),
        }),
        Around::ForIn => Ok(ReactiveTerminal::ForIn {
            init: boxed_load(alloc, 0)?,
            loop_block: block,
            span: None,
            id: id(),
        }),
        _ => Ok(ReactiveTerminal::Label { block, id: id() }),
    }
}

/// A statement of this kind around the block.
fn statement_around(
    alloc: Global,
    kind: Around,
    block: ReactiveBlock,
) -> Result<ReactiveStatement, AllocError> {
    match kind {
        Around::Consequent => statement(alloc, arms(block, None)),
        Around::Alternate => statement(alloc, arms(empty(alloc), Some(block))),
        Around::Case => statement(alloc, switch(alloc, block)?),
        Around::TryBlock => statement(alloc, attempt(block, empty(alloc))),
        Around::Handler => statement(alloc, attempt(empty(alloc), block)),
        Around::Scope => Ok(ReactiveStatement::Scope(ReactiveScopeBlock {
            scope: ScopeId::new(0),
            instructions: block,
        })),
        Around::PrunedScope => Ok(ReactiveStatement::PrunedScope(PrunedReactiveScopeBlock {
            scope: ScopeId::new(0),
            instructions: block,
        })),
        _ => statement(alloc, body_of(alloc, kind, block)?),
    }
}

/// Statements of one kind, each of which is the only one of the block around it.
fn nested(alloc: Global, kind: Around, levels: u32) -> Result<ReactiveBlock, AllocError> {
    let mut block = empty(alloc);
    for _ in 0..levels {
        let stmt = statement_around(alloc, kind, block)?;
        block = empty(alloc);
        block.statements.push(stmt)?;
    }
    Ok(block)
}

/// The number of outermost statements of twenty thousand levels, which are dropped.
fn outermost(alloc: Global, kind: Around) -> Result<usize, AllocError> {
    let block = nested(alloc, kind, 20_000)?;
    Ok(block.statements.len())
}

#[test]
fn twenty_thousand_levels_of_each_kind_are_let_go(rt: HostRuntime) -> Result<(), Fail> {
    let kinds = [
        Around::Consequent,
        Around::Alternate,
        Around::Case,
        Around::DoWhile,
        Around::While,
        Around::For,
        Around::ForOf,
        Around::ForIn,
        Around::Label,
        Around::TryBlock,
        Around::Handler,
        Around::Scope,
        Around::PrunedScope,
    ];
    for kind in kinds {
        assert_eq!(rt; outermost(rt.alloc(), kind)?, 1, "of {kind:?}");
    }
    Ok(())
}
