//! Each kind of reason but merging.

use super::lists::{fits, names, one, plain, scopes, whole};
use rc_names::{DeclarationId, IdentifierId, ScopeId};
use rc_tree::Fate;
use rc_why::Facts;
use std::alloc::{AllocError, Global};
use std::test::Fail;

/// Whether facts of a kept scope fit a fate.
fn fits_kept(fate: Fate) -> bool {
    let output = Some(DeclarationId::new(1));
    fits(fate, Facts::Kept { output }) && fits(fate, Facts::Kept { output: None })
}

#[test]
fn facts_of_a_kept_scope_fit_no_other_fate(rt: HostRuntime) {
    assert!(rt; fits_kept(Fate::Kept));
    assert!(rt; !fits_kept(Fate::NotEscaping));
}

/// Whether a scope with these outputs doesn't escape where these names are memoized.
fn fits_not_escaping(alloc: Global, outputs: &[u32], memoized: &[u32]) -> Result<bool, AllocError> {
    let outputs = names(alloc, outputs)?;
    let memoized = names(alloc, memoized)?;
    Ok(fits(Fate::NotEscaping, Facts::NotEscaping { outputs, memoized }))
}

#[test]
fn no_output_of_a_scope_that_does_not_escape_is_memoized(rt: HostRuntime) -> Result<(), Fail> {
    assert!(rt; fits_not_escaping(rt.alloc(), &[3], &[])?);
    assert!(rt; fits_not_escaping(rt.alloc(), &[3, 5], &[1, 2, 4])?);
    assert!(rt; !fits_not_escaping(rt.alloc(), &[3], &[3])?);
    assert!(rt; !fits_not_escaping(rt.alloc(), &[3, 5], &[7, 5, 4])?);
    assert!(rt; !fits_not_escaping(rt.alloc(), &[], &[1])?);
    Ok(())
}

/// Whether scope 1 is unused with values declared by these scopes, and these numbers.
fn fits_unused(
    alloc: Global,
    declared_by: &[u32],
    reassignments: u32,
    returns: u32,
) -> Result<bool, AllocError> {
    let declared_by = scopes(alloc, declared_by)?;
    Ok(fits(
        Fate::Unused,
        Facts::Unused {
            declared_by,
            reassignments,
            returns,
        },
    ))
}

#[test]
fn an_unused_scope_has_no_output_and_return_of_its_own(rt: HostRuntime) -> Result<(), Fail> {
    assert!(rt; fits_unused(rt.alloc(), &[], 0, 0)?);
    assert!(rt; fits_unused(rt.alloc(), &[0, 2], 0, 0)?);
    assert!(rt; !fits_unused(rt.alloc(), &[0, 1], 0, 0)?);
    assert!(rt; !fits_unused(rt.alloc(), &[0, 2], 1, 0)?);
    assert!(rt; !fits_unused(rt.alloc(), &[0, 2], 0, 1)?);
    Ok(())
}

/// Whether a scope with the dependency `0.a` dissolves into one with `0.name`, by that fate.
fn fits_dissolved(alloc: Global, fate: Fate, name: &str) -> Result<bool, AllocError> {
    let own = one(alloc, 0, &[plain("a")])?;
    let parent = one(alloc, 0, &[plain(name)])?;
    Ok(fits(fate, Facts::Dissolved { own, parent }))
}

#[test]
fn a_dissolved_scope_has_the_dependencies_of_the_one_around_it(
    rt: HostRuntime,
) -> Result<(), Fail> {
    let dissolved = Fate::DissolvedInto(ScopeId::new(0));
    assert!(rt; fits_dissolved(rt.alloc(), dissolved, "a")?);
    assert!(rt; !fits_dissolved(rt.alloc(), dissolved, "b")?);
    let merged = Fate::MergedInto(ScopeId::new(0));
    assert!(rt; !fits_dissolved(rt.alloc(), merged, "a")?);
    Ok(())
}

/// Whether lists of whole values fit that a scope dissolves.
fn are_same(alloc: Global, own: &[u32], parent: &[u32]) -> Result<bool, AllocError> {
    let own = whole(alloc, own)?;
    let parent = whole(alloc, parent)?;
    Ok(fits(
        Fate::DissolvedInto(ScopeId::new(0)),
        Facts::Dissolved { own, parent },
    ))
}

#[test]
fn dependencies_are_compared_both_ways(rt: HostRuntime) -> Result<(), Fail> {
    assert!(rt; are_same(rt.alloc(), &[], &[])?);
    assert!(rt; are_same(rt.alloc(), &[1, 2, 3], &[3, 1, 2])?);
    assert!(rt; !are_same(rt.alloc(), &[1], &[1, 1])?);
    assert!(rt; !are_same(rt.alloc(), &[1, 1], &[1, 2])?);
    assert!(rt; !are_same(rt.alloc(), &[1, 2], &[1, 1])?);
    Ok(())
}

/// Whether facts of a scope that always invalidates fit a fate.
fn fits_invalidating(fate: Fate) -> bool {
    let dependency = IdentifierId::new(1);
    fits(fate, Facts::AlwaysInvalidating { dependency })
}

#[test]
fn facts_of_a_scope_that_always_invalidates_fit_no_other_fate(rt: HostRuntime) {
    assert!(rt; fits_invalidating(Fate::AlwaysInvalidating));
    assert!(rt; !fits_invalidating(Fate::Unused));
}
