//! What stays where memory runs out. `bench/want-of-memory` runs each test again for each call for memory, which fails.
//!
//! A test says on standard error that its document is read, and later whether there was no memory.

mod documents;

use documents::{COMPONENT, OUTSIDE};
use rc_doc::{Doc, read_doc};
use rc_hir::{Environment, Fault, HirFunction, Identifier, ReactiveScope, check_names};
use rc_names::{CloneIn, EvaluationOrder, ScopeId};
use rc_pipe::build_and_prune;
use serde_json::Value;
use std::alloc::Global;
use std::mem::forget;
use std::test::Fail;

/// The document of a text.
fn read(alloc: Global, text: &str) -> Result<Doc, Fail> {
    let value = Value::from_str(alloc, text)?;
    match read_doc(alloc, &value)? {
        Some(doc) => Ok(doc),
        None => Err(Fail::new("the text is no document")),
    }
}

/// The fault with which a graph is refused, if it is.
///
/// A tree that is dropped asks for memory and can do without, so it isn't.
fn refusal(alloc: Global, hir: &HirFunction, env: &mut Environment) -> Option<Fault> {
    match build_and_prune(alloc, hir, env) {
        Ok(pruned) => {
            forget(pruned);
            None
        }
        Err(fault) => Some(fault),
    }
}

#[test]
fn the_numbers_of_a_component_stay_in_their_tables(rt: HostRuntime) -> Result<(), Fail> {
    let alloc = rt.alloc();
    let Doc { hir, mut env } = read(alloc, COMPONENT)?;
    eprintln!(rt; "read")?;
    if let Some(fault) = refusal(alloc, &hir, &mut env) {
        assert_eq!(rt; fault, Fault::NoMemory);
        eprintln!(rt; "no memory")?;
    }
    assert!(rt; check_names(&hir, &env).is_ok());
    Ok(())
}

/// Whether two identifiers without names are the same.
fn is_same_identifier(one: &Identifier, other: &Identifier) -> bool {
    one.declaration_id == other.declaration_id
        && one.name.is_none()
        && other.name.is_none()
        && one.scope == other.scope
        && one.type_ == other.type_
        && one.span == other.span
}

/// Whether two scopes that depend on nothing are the same.
fn is_same_scope(one: &ReactiveScope, other: &ReactiveScope) -> bool {
    one.range == other.range
        && one.dependencies.is_empty()
        && other.dependencies.is_empty()
        && one.declarations.as_slice() == other.declarations.as_slice()
        && one.reassignments.as_slice() == other.reassignments.as_slice()
        && one.early_return_value == other.early_return_value
        && one.merged.as_slice() == other.merged.as_slice()
}

/// Whether two lists of identifiers without names are the same.
fn are_same_identifiers(ones: &[Identifier], others: &[Identifier]) -> bool {
    let mut are_same = ones.len() == others.len();
    for (one, other) in ones.iter().zip(others) {
        are_same &= is_same_identifier(one, other);
    }
    are_same
}

/// Whether two lists of scopes that depend on nothing are the same.
fn are_same_scopes(ones: &[ReactiveScope], others: &[ReactiveScope]) -> bool {
    let mut are_same = ones.len() == others.len();
    for (one, other) in ones.iter().zip(others) {
        are_same &= is_same_scope(one, other);
    }
    are_same
}

/// Whether two environments of that kind are the same, without functions.
fn is_same(one: &Environment, other: &Environment) -> bool {
    are_same_identifiers(one.identifiers.as_slice(), other.identifiers.as_slice())
        && one.types.as_slice() == other.types.as_slice()
        && are_same_scopes(one.scopes.as_slice(), other.scopes.as_slice())
        && one.functions.len() == 0
        && other.functions.len() == 0
        && one.shapes.as_slice() == other.shapes.as_slice()
        && one.config == other.config
        && one.next_block == other.next_block
}

#[test]
fn the_environment_of_a_refused_graph_stays_as_it_is(rt: HostRuntime) -> Result<(), Fail> {
    let alloc = rt.alloc();
    let Doc { hir, mut env } = read(alloc, OUTSIDE)?;
    let before = env.clone_in(alloc)?;
    eprintln!(rt; "read")?;
    let fault = refusal(alloc, &hir, &mut env);
    assert!(rt; is_same(&env, &before));
    if fault == Some(Fault::NoMemory) {
        eprintln!(rt; "no memory")?;
    } else {
        let due = Fault::ScopeCompleted {
            id: EvaluationOrder::new(5),
            scope: ScopeId::new(0),
        };
        assert_eq!(rt; fault, Some(due));
    }
    Ok(())
}
