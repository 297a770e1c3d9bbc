//! What becomes of returns in scope blocks, and what the environment gets.

use super::trees::{
    Numbers, SPAN, environment, function, numbers, returned, returning, scope_around,
};
use rc_early::propagate_early_returns;
use rc_hir::{
    DeclarationEntry, Environment, Fault, IdentifierName, ReactiveScope, ReactiveScopeEarlyReturn,
};
use rc_names::{BlockId, IdentifierId, List, ScopeId};
use rc_tree::{
    ReactiveFunction, ReactiveStatement, ReactiveTerminal, ReactiveTerminalStatement,
    ReactiveTerminalTargetKind,
};
use std::alloc::{AllocError, Global};
use std::test::Fail;

/// Two scopes without an early return.
const UNSET: [Option<ReactiveScopeEarlyReturn>; 2] = [None, None];

/// The environment after the pass on that body, where the next block was 7.
fn environment_of(
    alloc: Global,
    scopes: &[Option<ReactiveScopeEarlyReturn>],
    body: List<ReactiveStatement>,
) -> Result<Environment, Fault> {
    let mut env = environment(alloc, scopes, 7)?;
    let mut func = function(alloc, body);
    propagate_early_returns(alloc, &mut func, &mut env)?;
    Ok(env)
}

/// The function with that body after the pass.
fn function_of(alloc: Global, body: List<ReactiveStatement>) -> Result<ReactiveFunction, Fault> {
    let mut env = environment(alloc, UNSET.as_slice(), 7)?;
    let mut func = function(alloc, body);
    propagate_early_returns(alloc, &mut func, &mut env)?;
    Ok(func)
}

/// Whether these are the one declaration of that identifier by that scope.
fn declare(entries: &[DeclarationEntry], name: u32, scope: u32) -> bool {
    match entries {
        [entry] => {
            entry.key.0 == name && entry.value.identifier.0 == name && entry.value.scope.0 == scope
        }
        _ => false,
    }
}

/// Whether the scope of that number has the early return of these numbers, and declares its variable alone.
fn returns_early(env: &Environment, number: u32, variable: u32, label: u32) -> bool {
    let expected = ReactiveScopeEarlyReturn {
        value: IdentifierId::new(variable),
        span: SPAN,
        label: BlockId::new(label),
    };
    match env.scopes.get(ScopeId::new(number)) {
        Some(scope) => {
            scope.early_return_value == Some(expected)
                && declare(scope.declarations.as_slice(), variable, number)
        }
        None => false,
    }
}

/// Whether the scope of that number has no early return and declares nothing.
fn returns_nothing(env: &Environment, number: u32) -> bool {
    match env.scopes.get(ScopeId::new(number)) {
        Some(scope) => is_untouched(scope),
        None => false,
    }
}

fn is_untouched(scope: &ReactiveScope) -> bool {
    scope.early_return_value.is_none() && scope.declarations.is_empty()
}

/// Whether the name of an identifier is that text, which no source has.
fn is_named(env: &Environment, number: u32, text: &str) -> bool {
    match env.identifiers.get(IdentifierId::new(number)) {
        Some(identifier) => is_promoted(&identifier.name, text),
        None => false,
    }
}

fn is_promoted(name: &Option<IdentifierName>, text: &str) -> bool {
    match name {
        Some(IdentifierName::Promoted(name)) => name.as_str() == text,
        _ => false,
    }
}

/// The environment after a `Return` in the block of scope 0.
fn one_return(alloc: Global) -> Result<Environment, Fault> {
    let mut body = List::new(alloc);
    body.push(returning(alloc, 0, 1)?)?;
    environment_of(alloc, UNSET.as_slice(), body)
}

#[test]
fn a_scope_that_returns_gets_an_early_return(rt: HostRuntime) -> Result<(), Fail> {
    let env = one_return(rt.alloc())?;
    assert_eq!(rt; numbers(&env), (8, 8, 8));
    assert!(rt; returns_early(&env, 0, 3, 7));
    assert!(rt; is_named(&env, 3, "#t3"));
    assert!(rt; returns_nothing(&env, 1));
    Ok(())
}

/// Where a statement breaks to, if it is a labeled break.
fn target(statement: Option<&ReactiveStatement>) -> Option<u32> {
    match statement {
        Some(ReactiveStatement::Terminal(stmt)) => target_of(&stmt.get().terminal),
        _ => None,
    }
}

fn target_of(terminal: &ReactiveTerminal) -> Option<u32> {
    match terminal {
        ReactiveTerminal::Break {
            target,
            target_kind: ReactiveTerminalTargetKind::Labeled,
            ..
        } => Some(target.0),
        _ => None,
    }
}

/// The label of a statement, how many are under it, and where the last of these breaks to, if it is a `Label`.
fn labeled(statement: Option<&ReactiveStatement>) -> Option<(u32, usize, u32)> {
    match statement {
        Some(ReactiveStatement::Terminal(stmt)) => under_label(stmt.get()),
        _ => None,
    }
}

fn under_label(stmt: &ReactiveTerminalStatement) -> Option<(u32, usize, u32)> {
    let label = stmt.label?;
    match &stmt.terminal {
        ReactiveTerminal::Label { block, .. } => {
            let inside = block.statements.as_slice();
            let target = target(inside.last())?;
            Some((label.id.0, inside.len(), target))
        }
        _ => None,
    }
}

/// Of a scope block that comes first, how many statements it has, and what its last one is.
fn first_scope(body: &[ReactiveStatement]) -> Option<(usize, (u32, usize, u32))> {
    match body.first() {
        Some(ReactiveStatement::Scope(block)) => {
            let inside = block.instructions.statements.as_slice();
            Some((inside.len(), labeled(inside.last())?))
        }
        _ => None,
    }
}

/// The scope block with a `Return`, after the pass.
fn replaced(alloc: Global) -> Result<Option<(usize, (u32, usize, u32))>, Fault> {
    let mut body = List::new(alloc);
    body.push(returning(alloc, 0, 1)?)?;
    let func = function_of(alloc, body)?;
    Ok(first_scope(func.body.statements.as_slice()))
}

#[test]
fn a_return_is_a_store_and_a_break_under_the_label(rt: HostRuntime) -> Result<(), Fail> {
    assert_eq!(rt; replaced(rt.alloc())?, Some((6, (7, 2, 7))));
    Ok(())
}

/// The environment after a `Return` in a block of scope 1 within one of scope 0, and another one after it.
fn nested(alloc: Global) -> Result<Environment, Fault> {
    let mut inside = List::new(alloc);
    inside.push(returning(alloc, 1, 1)?)?;
    inside.push(returned(alloc, 2)?)?;
    let mut body = List::new(alloc);
    body.push(scope_around(0, inside))?;
    environment_of(alloc, UNSET.as_slice(), body)
}

#[test]
fn the_outermost_scope_alone_gets_an_early_return(rt: HostRuntime) -> Result<(), Fail> {
    let env = nested(rt.alloc())?;
    assert_eq!(rt; numbers(&env), (8, 8, 8));
    assert!(rt; returns_early(&env, 0, 3, 7));
    assert!(rt; returns_nothing(&env, 1));
    Ok(())
}

/// The environment after a `Return` each in blocks of these scopes, one after the other.
fn side_by_side(
    alloc: Global,
    scopes: &[Option<ReactiveScopeEarlyReturn>],
    first: u32,
    second: u32,
) -> Result<Environment, Fault> {
    let mut body = List::new(alloc);
    body.push(returning(alloc, first, 1)?)?;
    body.push(returning(alloc, second, 2)?)?;
    environment_of(alloc, scopes, body)
}

#[test]
fn scopes_side_by_side_get_one_each(rt: HostRuntime) -> Result<(), Fail> {
    let env = side_by_side(rt.alloc(), UNSET.as_slice(), 1, 0)?;
    assert_eq!(rt; numbers(&env), (13, 13, 9));
    assert!(rt; returns_early(&env, 1, 3, 7));
    assert!(rt; returns_early(&env, 0, 8, 8));
    Ok(())
}

#[test]
fn a_second_block_of_a_scope_is_passed_over(rt: HostRuntime) -> Result<(), Fail> {
    let env = side_by_side(rt.alloc(), UNSET.as_slice(), 0, 0)?;
    assert_eq!(rt; numbers(&env), (8, 8, 8));
    assert!(rt; returns_early(&env, 0, 3, 7));
    Ok(())
}

/// The environment after a `Return` each in blocks of scope 0, which has an early return, and scope 1.
fn one_is_set(alloc: Global) -> Result<Environment, Fault> {
    let set = ReactiveScopeEarlyReturn {
        value: IdentifierId::new(2),
        span: None,
        label: BlockId::new(6),
    };
    side_by_side(alloc, [Some(set), None].as_slice(), 0, 1)
}

#[test]
fn a_scope_with_an_early_return_is_passed_over(rt: HostRuntime) -> Result<(), Fail> {
    let env = one_is_set(rt.alloc())?;
    assert_eq!(rt; numbers(&env), (8, 8, 8));
    assert!(rt; returns_early(&env, 1, 3, 7));
    Ok(())
}

/// How many statements a body has, and how many its first scope block has.
fn sizes(body: &[ReactiveStatement]) -> (usize, usize) {
    match body.first() {
        Some(ReactiveStatement::Scope(block)) => {
            (body.len(), block.instructions.statements.len())
        }
        _ => (body.len(), 0),
    }
}

/// An empty block of scope 0 within one of scope 1, and a `Return` after both.
fn without_returns(alloc: Global) -> Result<List<ReactiveStatement>, AllocError> {
    let mut inside = List::new(alloc);
    inside.push(scope_around(0, List::new(alloc)))?;
    let mut body = List::new(alloc);
    body.push(scope_around(1, inside))?;
    body.push(returned(alloc, 1)?)?;
    Ok(body)
}

/// The sizes of that body after the pass.
fn sizes_after(alloc: Global) -> Result<(usize, usize), Fault> {
    let func = function_of(alloc, without_returns(alloc)?)?;
    Ok(sizes(func.body.statements.as_slice()))
}

/// The numbers of the environment after it.
fn numbers_after(alloc: Global) -> Result<Numbers, Fault> {
    let env = environment_of(alloc, UNSET.as_slice(), without_returns(alloc)?)?;
    Ok(numbers(&env))
}

#[test]
fn without_a_return_in_a_scope_all_stays(rt: HostRuntime) -> Result<(), Fail> {
    assert_eq!(rt; sizes_after(rt.alloc())?, (2, 1));
    assert_eq!(rt; numbers_after(rt.alloc())?, (3, 3, 7));
    Ok(())
}
