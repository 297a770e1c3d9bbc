//! Which scope blocks become pruned ones.

use crate::tests::outline::{Line, outline};
use crate::tests::trees::{
    both, function, only, pruned_scope_around, return_at, row, scope_around,
};
use rc_checks::prune_unused_scopes;
use rc_hir::{
    DeclarationEntry, Environment, Fault, MutableRange, ReactiveScope, ReactiveScopeDeclaration,
    TableName,
};
use rc_names::{EvaluationOrder, IdentifierId, List, ScopeId, Table};
use rc_tree::ReactiveStatement;
use std::alloc::{AllocError, Global};
use std::test::Fail;

/// A scope that gives nothing.
fn unused(alloc: Global) -> ReactiveScope {
    ReactiveScope {
        range: MutableRange {
            start: EvaluationOrder::new(1),
            end: EvaluationOrder::new(8),
        },
        dependencies: List::new(alloc),
        declarations: List::new(alloc),
        reassignments: List::new(alloc),
        early_return_value: None,
        merged: List::new(alloc),
    }
}

/// A scope with one declaration, which belongs to the scope of that number.
fn declaring(alloc: Global, owner: u32) -> Result<ReactiveScope, AllocError> {
    let mut scope = unused(alloc);
    scope.declarations.push(DeclarationEntry {
        key: IdentifierId::new(1),
        value: ReactiveScopeDeclaration {
            identifier: IdentifierId::new(1),
            scope: ScopeId::new(owner),
        },
    })?;
    Ok(scope)
}

/// The lines of a body after the pass, where scope 0 is the one given and scopes 1 and 2 give nothing.
fn pruned(
    alloc: Global,
    first: ReactiveScope,
    statements: List<ReactiveStatement>,
) -> Result<List<Line>, Fault> {
    let mut scopes = List::new(alloc);
    scopes.push(first)?;
    scopes.push(unused(alloc))?;
    scopes.push(unused(alloc))?;
    let mut env = Environment::empty(alloc);
    env.scopes = Table::from_list(scopes);
    let mut func = function(alloc, statements);
    prune_unused_scopes(alloc, &mut func, &env)?;
    Ok(outline(alloc, &func.body)?)
}

/// Whether a body after the pass has these lines.
fn is_pruned_to(
    alloc: Global,
    first: ReactiveScope,
    statements: List<ReactiveStatement>,
    expected: &[Line],
) -> Result<bool, Fault> {
    let lines = pruned(alloc, first, statements)?;
    Ok(lines.as_slice() == expected)
}

/// A row and a scope block in a scope block, with a return in the inner one.
fn return_in_inner(alloc: Global) -> Result<List<ReactiveStatement>, AllocError> {
    let end = return_at(alloc, 5)?;
    let inner = scope_around(1, both(alloc, row(4), end)?);
    only(alloc, scope_around(0, both(alloc, row(2), inner)?))
}

#[test]
fn a_return_in_a_nested_scope_keeps_that_scope_alone(rt: HostRuntime) -> Result<(), Fail> {
    let alloc = rt.alloc();
    let expected = [
        Line::PrunedScope(0),
        Line::Row(2),
        Line::Scope(1),
        Line::Row(4),
        Line::Return(5),
        Line::End,
        Line::End,
    ];
    assert!(rt; is_pruned_to(alloc, unused(alloc), return_in_inner(alloc)?, &expected)?);
    Ok(())
}

/// Three scope blocks, one in the other, with a return in the innermost.
fn return_in_innermost(alloc: Global) -> Result<List<ReactiveStatement>, AllocError> {
    let innermost = scope_around(2, only(alloc, return_at(alloc, 5)?)?);
    let inner = scope_around(1, only(alloc, innermost)?);
    only(alloc, scope_around(0, only(alloc, inner)?))
}

#[test]
fn a_return_does_not_count_through_two_scopes(rt: HostRuntime) -> Result<(), Fail> {
    let alloc = rt.alloc();
    let expected = [
        Line::PrunedScope(0),
        Line::PrunedScope(1),
        Line::Scope(2),
        Line::Return(5),
        Line::End,
        Line::End,
        Line::End,
    ];
    assert!(rt; is_pruned_to(alloc, unused(alloc), return_in_innermost(alloc)?, &expected)?);
    Ok(())
}

/// A pruned scope block in a scope block, with a return in it.
fn return_in_pruned(alloc: Global) -> Result<List<ReactiveStatement>, AllocError> {
    let inner = pruned_scope_around(1, only(alloc, return_at(alloc, 5)?)?);
    only(alloc, scope_around(0, only(alloc, inner)?))
}

#[test]
fn a_return_in_a_pruned_scope_counts(rt: HostRuntime) -> Result<(), Fail> {
    let alloc = rt.alloc();
    let expected = [
        Line::Scope(0),
        Line::PrunedScope(1),
        Line::Return(5),
        Line::End,
        Line::End,
    ];
    assert!(rt; is_pruned_to(alloc, unused(alloc), return_in_pruned(alloc)?, &expected)?);
    Ok(())
}

/// A return and a scope block in a scope block.
fn return_before_inner(alloc: Global) -> Result<List<ReactiveStatement>, AllocError> {
    let end = return_at(alloc, 5)?;
    let inside = both(alloc, end, scope_around(1, List::new(alloc)))?;
    only(alloc, scope_around(0, inside))
}

#[test]
fn a_return_before_a_nested_scope_counts(rt: HostRuntime) -> Result<(), Fail> {
    let alloc = rt.alloc();
    let expected = [
        Line::Scope(0),
        Line::Return(5),
        Line::PrunedScope(1),
        Line::End,
        Line::End,
    ];
    assert!(rt; is_pruned_to(alloc, unused(alloc), return_before_inner(alloc)?, &expected)?);
    Ok(())
}

/// An empty block of scope 0.
fn empty_scope(alloc: Global) -> ReactiveStatement {
    scope_around(0, List::new(alloc))
}

/// A return, and that block.
fn return_before_scope(alloc: Global) -> Result<List<ReactiveStatement>, AllocError> {
    both(alloc, return_at(alloc, 5)?, empty_scope(alloc))
}

#[test]
fn a_return_before_a_scope_does_not_count(rt: HostRuntime) -> Result<(), Fail> {
    let alloc = rt.alloc();
    let expected = [Line::Return(5), Line::PrunedScope(0), Line::End];
    assert!(rt; is_pruned_to(alloc, unused(alloc), return_before_scope(alloc)?, &expected)?);
    Ok(())
}

/// Whether an empty block of a scope has these lines after the pass.
fn is_empty_pruned_to(
    alloc: Global,
    scope: ReactiveScope,
    expected: &[Line],
) -> Result<bool, Fault> {
    is_pruned_to(alloc, scope, only(alloc, empty_scope(alloc))?, expected)
}

#[test]
fn a_declaration_of_another_scope_does_not_count(rt: HostRuntime) -> Result<(), Fail> {
    let alloc = rt.alloc();
    let expected = [Line::PrunedScope(0), Line::End];
    assert!(rt; is_empty_pruned_to(alloc, declaring(alloc, 1)?, &expected)?);
    Ok(())
}

#[test]
fn a_declaration_of_its_own_keeps_a_scope(rt: HostRuntime) -> Result<(), Fail> {
    let alloc = rt.alloc();
    let expected = [Line::Scope(0), Line::End];
    assert!(rt; is_empty_pruned_to(alloc, declaring(alloc, 0)?, &expected)?);
    Ok(())
}

/// A scope with one reassignment.
fn reassigning(alloc: Global) -> Result<ReactiveScope, AllocError> {
    let mut scope = unused(alloc);
    scope.reassignments.push(IdentifierId::new(1))?;
    Ok(scope)
}

#[test]
fn a_reassignment_keeps_a_scope(rt: HostRuntime) -> Result<(), Fail> {
    let alloc = rt.alloc();
    let expected = [Line::Scope(0), Line::End];
    assert!(rt; is_empty_pruned_to(alloc, reassigning(alloc)?, &expected)?);
    Ok(())
}

/// Why the pass refuses a block of scope 3 in one of scope 4, if it does.
fn fault_outside_table(alloc: Global) -> Result<Option<Fault>, AllocError> {
    let inner = scope_around(3, List::new(alloc));
    let outer = scope_around(4, only(alloc, inner)?);
    Ok(pruned(alloc, unused(alloc), only(alloc, outer)?).err())
}

#[test]
fn the_innermost_scope_outside_the_table_is_named(rt: HostRuntime) -> Result<(), Fail> {
    let refused = Fault::BadName {
        table: TableName::Scopes,
        index: 3,
    };
    assert_eq!(rt; fault_outside_table(rt.alloc())?, Some(refused));
    Ok(())
}
