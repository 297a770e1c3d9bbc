//! What merging makes of small trees and their scopes. No document shows the scopes.

use crate::tests::trees::{Made, environment, function, load, nested_function, only, scope_around};
use rc_hir::{DeclarationEntry, Environment, Fault, TableName};
use rc_merge::{
    MergeCondition, MergedFacts, decide_merged_scopes, explain_merged_scopes,
    merge_reactive_scopes_that_invalidate_together,
};
use rc_names::{DeclarationId, List, ScopeId};
use rc_tree::{Fate, ReactiveFunction, ReactiveStatement, ScopeFate};
use std::alloc::{AllocError, Global};
use std::test::Fail;

/// Three scopes side by side, which depend on nothing. The name 2 is used last below the end of the second one, the
/// name 4 below that of the third, and the name 3 at that end.
const SCOPES: [Made<'static>; 3] = [
    Made {
        end: 4,
        declares: &[1, 2],
    },
    Made {
        end: 8,
        declares: &[3, 1],
    },
    Made {
        end: 12,
        declares: &[4, 5],
    },
];

/// The blocks of these scopes with a row in each, and two rows after them.
fn side_by_side(alloc: Global) -> Result<ReactiveFunction, AllocError> {
    let mut body = List::new(alloc);
    body.push(scope_around(0, only(alloc, load(2, 0))?))?;
    body.push(scope_around(1, only(alloc, load(6, 2))?))?;
    body.push(scope_around(2, only(alloc, load(10, 4))?))?;
    body.push(load(12, 3))?;
    body.push(load(13, 1))?;
    Ok(function(alloc, body))
}

/// Whether these declarations are of these names.
fn are_of(declarations: &[DeclarationEntry], names: &[u32]) -> bool {
    declarations.len() == names.len()
        && declarations
            .iter()
            .zip(names)
            .all(|(entry, name)| entry.key.0 == *name)
}

/// Whether these scopes have these numbers.
fn are_numbered(scopes: &[ScopeId], numbers: &[u32]) -> bool {
    scopes.len() == numbers.len()
        && scopes
            .iter()
            .zip(numbers)
            .all(|(scope, number)| scope.0 == *number)
}

/// Whether the first scope has this end, declares these names, and has taken in the scopes of these numbers.
fn is_grown(env: &Environment, end: u32, declares: &[u32], merged: &[u32]) -> bool {
    let Some(scope) = env.scopes.get(ScopeId::new(0)) else {
        return false;
    };
    scope.range.end.0 == end
        && are_of(scope.declarations.as_slice(), declares)
        && are_numbered(scope.merged.as_slice(), merged)
}

/// Whether a list has this many statements, and begins with a scope block of this many.
fn begins_with_scope(body: &[ReactiveStatement], statements: usize, inside: usize) -> bool {
    match body.first() {
        Some(ReactiveStatement::Scope(block)) => {
            body.len() == statements && block.instructions.statements.len() == inside
        }
        _ => false,
    }
}

/// Whether the second and the third scope go into the first.
fn merges_side_by_side(alloc: Global) -> Result<bool, Fault> {
    let mut env = environment(alloc, SCOPES.as_slice())?;
    let mut func = side_by_side(alloc)?;
    merge_reactive_scopes_that_invalidate_together(alloc, &mut func, &mut env)?;
    Ok(
        is_grown(&env, 12, &[1, 3, 5], &[1, 2])
            && begins_with_scope(func.body.statements.as_slice(), 3, 3),
    )
}

#[test]
fn the_head_grows_by_each_scope_that_merges(rt: HostRuntime) -> Result<(), Fail> {
    assert!(rt; merges_side_by_side(rt.alloc())?);
    Ok(())
}

/// The fate of a scope.
fn fate(scope: u32, fate: Fate) -> ScopeFate {
    ScopeFate {
        scope: ScopeId::new(scope),
        fate,
    }
}

/// Whether these fates are told of a function.
fn are_decided(
    alloc: Global,
    func: ReactiveFunction,
    expected: &[ScopeFate],
) -> Result<bool, Fault> {
    let mut env = environment(alloc, SCOPES.as_slice())?;
    let mut func = func;
    let log = decide_merged_scopes(alloc, &mut func, &mut env)?;
    Ok(log.as_slice() == expected)
}

#[test]
fn merged_scopes_are_told(rt: HostRuntime) -> Result<(), Fail> {
    let alloc = rt.alloc();
    let expected = [
        fate(1, Fate::MergedInto(ScopeId::new(0))),
        fate(2, Fate::MergedInto(ScopeId::new(0))),
    ];
    assert!(rt; are_decided(alloc, side_by_side(alloc)?, expected.as_slice())?);
    Ok(())
}

/// Whether these are the declarations of these numbers.
fn are_declarations(names: &[DeclarationId], numbers: &[u32]) -> bool {
    names.len() == numbers.len()
        && names
            .iter()
            .zip(numbers)
            .all(|(name, number)| name.0 == *number)
}

/// Whether these are the facts of the third scope, where it joins the first, which has grown by the second.
fn are_of_third(facts: &MergedFacts) -> bool {
    facts.scope.0 == 2
        && facts.into.0 == 0
        && facts.condition == MergeCondition::Same
        && are_declarations(facts.outputs.as_slice(), &[1, 3])
        && facts.end.0 == 12
}

/// Whether the facts of two scopes are told, the last ones those of the third scope.
fn explains_side_by_side(alloc: Global) -> Result<bool, Fault> {
    let mut env = environment(alloc, SCOPES.as_slice())?;
    let mut func = side_by_side(alloc)?;
    let explained = explain_merged_scopes(alloc, &mut func, &mut env)?;
    match explained.merged.get(1) {
        Some(facts) => Ok(explained.merged.len() == 2 && are_of_third(facts)),
        None => Ok(false),
    }
}

#[test]
fn the_head_is_told_as_grown_so_far(rt: HostRuntime) -> Result<(), Fail> {
    assert!(rt; explains_side_by_side(rt.alloc())?);
    Ok(())
}

/// The blocks of the three scopes, one in the other.
fn one_in_the_other(alloc: Global) -> Result<ReactiveFunction, AllocError> {
    let innermost = scope_around(2, only(alloc, load(2, 0))?);
    let inner = scope_around(1, only(alloc, innermost)?);
    let outer = scope_around(0, only(alloc, inner)?);
    Ok(function(alloc, only(alloc, outer)?))
}

#[test]
fn dissolved_scopes_are_told(rt: HostRuntime) -> Result<(), Fail> {
    let alloc = rt.alloc();
    let expected = [
        fate(2, Fate::DissolvedInto(ScopeId::new(1))),
        fate(1, Fate::DissolvedInto(ScopeId::new(0))),
    ];
    assert!(rt; are_decided(alloc, one_in_the_other(alloc)?, expected.as_slice())?);
    Ok(())
}

/// Why scopes side by side with a nested function outside its table after them are refused, if the environment is as
/// before then.
fn refused(alloc: Global) -> Result<Option<Fault>, AllocError> {
    let mut env = environment(alloc, SCOPES.as_slice())?;
    let mut func = side_by_side(alloc)?;
    func.body.statements.push(nested_function(7))?;
    let result = merge_reactive_scopes_that_invalidate_together(alloc, &mut func, &mut env);
    if is_grown(&env, 4, &[1, 2], &[]) {
        Ok(result.err())
    } else {
        Ok(None)
    }
}

#[test]
fn a_nested_function_outside_its_table_is_refused(rt: HostRuntime) -> Result<(), Fail> {
    let expected = Fault::BadName {
        table: TableName::Functions,
        index: 7,
    };
    assert_eq!(rt; refused(rt.alloc())?, Some(expected));
    Ok(())
}
