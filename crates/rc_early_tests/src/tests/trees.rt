//! Small trees of scope blocks with returns, and the environment with their scopes.

use rc_hir::{
    Effect, Environment, Fault, MutableRange, Place, ReactiveScope, ReactiveScopeEarlyReturn,
};
use rc_names::{Boxed, EvaluationOrder, IdentifierId, List, ScopeId, Span};
use rc_tree::{
    ReactiveBlock, ReactiveFunction, ReactiveScopeBlock, ReactiveStatement, ReactiveTerminal,
    ReactiveTerminalStatement,
};
use std::alloc::{AllocError, Global};

/// The numbers of identifiers and types of an environment, and its next block.
pub type Numbers = (usize, usize, u32);

/// The span of each place that is returned.
pub const SPAN: Option<Span> = Some(Span { start: 4, end: 6 });

/// A scope that declares nothing.
fn scope(alloc: Global, early: Option<ReactiveScopeEarlyReturn>) -> ReactiveScope {
    ReactiveScope {
        range: MutableRange {
            start: EvaluationOrder::new(1),
            end: EvaluationOrder::new(9),
        },
        dependencies: List::new(alloc),
        declarations: List::new(alloc),
        reassignments: List::new(alloc),
        early_return_value: early,
        merged: List::new(alloc),
    }
}

/// An environment of three identifiers with their types, and a scope for each early return or none.
pub fn environment(
    alloc: Global,
    scopes: &[Option<ReactiveScopeEarlyReturn>],
    next_block: u32,
) -> Result<Environment, Fault> {
    let mut env = Environment::empty(alloc);
    env.next_identifier_id(None)?;
    env.next_identifier_id(None)?;
    env.next_identifier_id(None)?;
    for early in scopes {
        if !env.scopes.is_full() {
            env.scopes.push(scope(alloc, *early))?;
        }
    }
    env.next_block = next_block;
    Ok(env)
}

/// The numbers of an environment.
pub fn numbers(env: &Environment) -> Numbers {
    (env.identifiers.len(), env.types.len(), env.next_block)
}

/// A `Return` of an identifier.
pub fn returned(alloc: Global, name: u32) -> Result<ReactiveStatement, AllocError> {
    let value = Place {
        identifier: IdentifierId::new(name),
        effect: Effect::Read,
        reactive: false,
        span: SPAN,
    };
    let statement = ReactiveTerminalStatement {
        terminal: ReactiveTerminal::Return {
            value,
            id: EvaluationOrder::new(3),
        },
        label: None,
    };
    Ok(ReactiveStatement::Terminal(Boxed::new(alloc, statement)?))
}

/// The block of a scope around statements.
pub fn scope_around(number: u32, statements: List<ReactiveStatement>) -> ReactiveStatement {
    ReactiveStatement::Scope(ReactiveScopeBlock {
        scope: ScopeId::new(number),
        instructions: ReactiveBlock { statements },
    })
}

/// The block of a scope that returns an identifier.
pub fn returning(alloc: Global, number: u32, name: u32) -> Result<ReactiveStatement, AllocError> {
    let mut statements = List::new(alloc);
    statements.push(returned(alloc, name)?)?;
    Ok(scope_around(number, statements))
}

/// A function with that body and nothing else.
pub fn function(alloc: Global, statements: List<ReactiveStatement>) -> ReactiveFunction {
    ReactiveFunction {
        span: None,
        id: None,
        name_hint: None,
        params: List::new(alloc),
        generator: false,
        is_async: false,
        body: ReactiveBlock { statements },
        directives: List::new(alloc),
    }
}
