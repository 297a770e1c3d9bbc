//! Functions of few statements.

use super::rows::{Row, statements};
use rc_names::{Boxed, List, ScopeId};
use rc_tree::{
    PrunedReactiveScopeBlock, ReactiveBlock, ReactiveFunction, ReactiveScopeBlock,
    ReactiveStatement, ReactiveTerminal, ReactiveTerminalStatement,
};
use std::alloc::{AllocError, Global};

/// A function with that body and nothing else.
pub fn function(alloc: Global, statements: List<ReactiveStatement>) -> ReactiveFunction {
    ReactiveFunction {
        span: None,
        id: None,
        name_hint: None,
        params: List::new(alloc),
        generator: false,
        is_async: false,
        body: ReactiveBlock { statements },
        directives: List::new(alloc),
    }
}

/// A block of that scope around statements.
pub fn scope_around(number: u32, statements: List<ReactiveStatement>) -> ReactiveStatement {
    ReactiveStatement::Scope(ReactiveScopeBlock {
        scope: ScopeId::new(number),
        instructions: ReactiveBlock { statements },
    })
}

/// A pruned block of that scope around statements.
pub fn pruned_around(number: u32, statements: List<ReactiveStatement>) -> ReactiveStatement {
    ReactiveStatement::PrunedScope(PrunedReactiveScopeBlock {
        scope: ScopeId::new(number),
        instructions: ReactiveBlock { statements },
    })
}

/// The statement of a terminal without a label.
pub fn statement(
    alloc: Global,
    terminal: ReactiveTerminal,
) -> Result<ReactiveStatement, AllocError> {
    let stmt = ReactiveTerminalStatement {
        terminal,
        label: None,
    };
    Ok(ReactiveStatement::Terminal(Boxed::new(alloc, stmt)?))
}

/// A part of a tree: rows, or an empty block of a scope.
#[derive(Clone, Copy)]
pub enum Part<'a> {
    Rows(&'a [Row]),
    Scope(u32),
    Pruned(u32),
}

/// The statements of a part.
fn statements_of(alloc: Global, part: Part) -> Result<List<ReactiveStatement>, AllocError> {
    match part {
        Part::Rows(rows) => statements(alloc, rows),
        Part::Scope(number) => {
            let mut list = List::new(alloc);
            list.push(scope_around(number, List::new(alloc)))?;
            Ok(list)
        }
        Part::Pruned(number) => {
            let mut list = List::new(alloc);
            list.push(pruned_around(number, List::new(alloc)))?;
            Ok(list)
        }
    }
}

/// The statements of parts, one after the other.
pub fn parts(alloc: Global, parts: &[Part]) -> Result<List<ReactiveStatement>, AllocError> {
    let mut list = List::new(alloc);
    for entry in parts {
        list.append(statements_of(alloc, *entry)?)?;
    }
    Ok(list)
}
