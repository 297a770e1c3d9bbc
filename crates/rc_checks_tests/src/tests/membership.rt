//! The check of membership: which operands are outside, and which of them is named.

use crate::tests::trees::{
    both, function, if_then, load, only, pruned_scope_around, return_of, scope_around,
};
use rc_checks::assert_scope_instructions_within_scopes;
use rc_hir::{Environment, Fault, Identifier, MutableRange, ReactiveScope, TableName};
use rc_names::{DeclarationId, EvaluationOrder, List, ScopeId, TypeId};
use rc_tree::ReactiveStatement;
use std::alloc::{AllocError, Global};

/// An identifier in that scope, where it is in one.
fn identifier(number: u32, scope: Option<ScopeId>) -> Identifier {
    Identifier {
        declaration_id: DeclarationId::new(number),
        name: None,
        scope,
        type_: TypeId::new(0),
        span: None,
    }
}

/// A scope of that range.
fn scope_of(alloc: Global, start: u32, end: u32) -> ReactiveScope {
    ReactiveScope {
        range: MutableRange {
            start: EvaluationOrder::new(start),
            end: EvaluationOrder::new(end),
        },
        dependencies: List::new(alloc),
        declarations: List::new(alloc),
        reassignments: List::new(alloc),
        early_return_value: None,
        merged: List::new(alloc),
    }
}

/// `$0` is in no scope, `$1` in scope 0 of the range from 1 to 6, and `$2` in a scope that isn't there.
fn environment(alloc: Global) -> Result<Environment, Fault> {
    let mut env = Environment::empty(alloc);
    env.identifiers.push(identifier(0, None))?;
    env.identifiers.push(identifier(1, Some(ScopeId::new(0))))?;
    env.identifiers.push(identifier(2, Some(ScopeId::new(7))))?;
    env.scopes.push(scope_of(alloc, 1, 6))?;
    Ok(env)
}

/// What the check answers for a body.
fn check(alloc: Global, body: List<ReactiveStatement>) -> Result<(), Fault> {
    let env = environment(alloc)?;
    assert_scope_instructions_within_scopes(alloc, &function(alloc, body), &env)
}

fn completed(id: u32) -> Result<(), Fault> {
    Err(Fault::ScopeCompleted {
        id: EvaluationOrder::new(id),
        scope: ScopeId::new(0),
    })
}

fn bad(table: TableName, index: u32) -> Result<(), Fault> {
    Err(Fault::BadName { table, index })
}

/// A scope block of scope 0 that reads `$0`, and then a statement.
fn after_scope(
    alloc: Global,
    statement: ReactiveStatement,
) -> Result<List<ReactiveStatement>, AllocError> {
    let block = scope_around(0, only(alloc, load(2, 0))?);
    both(alloc, block, statement)
}

/// What the check answers for that.
fn check_after_scope(alloc: Global, statement: ReactiveStatement) -> Result<(), Fault> {
    check(alloc, after_scope(alloc, statement)?)
}

/// Two operands outside, and one that is in no scope.
fn check_two_outside(alloc: Global) -> Result<(), Fault> {
    let mut body = after_scope(alloc, load(4, 1))?;
    body.push(return_of(alloc, 5, 1)?)?;
    body.push(load(5, 0))?;
    check(alloc, body)
}

/// An operand in another scope block in an `If` in its scope block.
fn check_deep_inside(alloc: Global) -> Result<(), Fault> {
    let inner = scope_around(3, only(alloc, load(4, 1))?);
    let taken = if_then(alloc, 1, None, only(alloc, inner)?)?;
    check(alloc, only(alloc, scope_around(0, only(alloc, taken)?))?)
}

/// An operand after a block of its scope, in another block of it.
fn check_in_outer_block(alloc: Global) -> Result<(), Fault> {
    let inside = both(alloc, scope_around(0, List::new(alloc)), load(4, 1))?;
    check(alloc, only(alloc, scope_around(0, inside))?)
}

/// An operand in a pruned scope block of its scope.
fn check_in_pruned(alloc: Global) -> Result<(), Fault> {
    check_after_scope(alloc, pruned_scope_around(0, only(alloc, load(4, 1))?))
}

/// An operand whose scope has a pruned scope block and no other.
fn check_behind_pruned(alloc: Global) -> Result<(), Fault> {
    let block = pruned_scope_around(0, List::new(alloc));
    check(alloc, both(alloc, block, load(4, 1))?)
}

/// A row alone.
fn check_row(alloc: Global, row: ReactiveStatement) -> Result<(), Fault> {
    check(alloc, only(alloc, row)?)
}

#[test]
fn the_last_operand_outside_is_named(rt: HostRuntime) {
    assert_eq!(rt; check_two_outside(rt.alloc()), completed(5));
}

#[test]
fn a_range_holds_its_start_and_not_its_end(rt: HostRuntime) {
    let alloc = rt.alloc();
    assert_eq!(rt; check_after_scope(alloc, load(0, 1)), Ok(()));
    assert_eq!(rt; check_after_scope(alloc, load(1, 1)), completed(1));
    assert_eq!(rt; check_after_scope(alloc, load(5, 1)), completed(5));
    assert_eq!(rt; check_after_scope(alloc, load(6, 1)), Ok(()));
}

#[test]
fn a_scope_block_encloses_at_every_depth(rt: HostRuntime) {
    assert_eq!(rt; check_deep_inside(rt.alloc()), Ok(()));
    assert_eq!(rt; check_in_outer_block(rt.alloc()), Ok(()));
}

#[test]
fn a_pruned_scope_encloses_nothing(rt: HostRuntime) {
    assert_eq!(rt; check_in_pruned(rt.alloc()), completed(4));
    assert_eq!(rt; check_behind_pruned(rt.alloc()), Ok(()));
}

#[test]
fn a_number_outside_its_table_is_a_bad_name(rt: HostRuntime) {
    let alloc = rt.alloc();
    assert_eq!(rt;
        check_row(alloc, load(4, 9)),
        bad(TableName::Identifiers, 9)
    );
    assert_eq!(rt; check_row(alloc, load(4, 2)), bad(TableName::Scopes, 7));
}
