//! What is looked up for many scopes: the memoized names, and where the scopes are of which a pass told.

ghost use Rattle.std.specs.Prelude.{◌≡◌, IfOk};
ghost use Rattle.rc_why.specs.inside.Places.{ArePlaces};
ghost use Rattle.rc_why.specs.inside.ToldFacts.{AreLookups, HasNames, caused_scopes, merged_scopes};

use rc_escape::DeclSet;
use rc_flow::InvalidatingCause;
use rc_merge::MergedFacts;
use rc_names::{DeclarationId, KeySet, Keyed, List, ScopeId};
use rc_pipe::Told;
use std::alloc::{AllocError, Global};

/// The memoized names, and for each scope of which a pass told the place where it did.
#[derive(Drop)]
pub(crate) struct Lookups {
    pub memoized: DeclSet,
    pub merged: Keyed<ScopeId, usize>,
    pub causes: Keyed<ScopeId, usize>,
}

/// What is looked up in what the passes told. Fails only when out of memory.
pub(crate) fn lookups_of(alloc: Global, told: &Told) -> Result<Lookups, AllocError>
    ensures { IfOk result (AreLookups told.now) }
{
    let memoized = names_in(alloc, told.memoized.as_slice())?;
    let merged = merged_places(alloc, told.merged.as_slice())?;
    let causes = caused_places(alloc, told.causes.as_slice())?;
    Ok(Lookups {
        memoized,
        merged,
        causes,
    })
}

/// The set of these names. Fails only when out of memory.
fn names_in(alloc: Global, names: &[DeclarationId]) -> Result<DeclSet, AllocError>
    ensures { IfOk result (HasNames names.now) }
{
    let mut set = KeySet::with_capacity(alloc, names.len())?;
    for name in names {
        set.insert(*name)?;
    }
    Ok(set)
}

/// Where merging told of each scope. Fails only when out of memory.
fn merged_places(alloc: Global, merged: &[MergedFacts]) -> Result<Keyed<ScopeId, usize>, AllocError>
    ensures { IfOk result (ArePlaces (merged_scopes merged.now)) }
{
    let scopes = scopes_merged(alloc, merged)?;
    places_of(alloc, scopes.as_slice())
}

/// The scopes of which merging told. Fails only when out of memory.
fn scopes_merged(alloc: Global, merged: &[MergedFacts]) -> Result<List<ScopeId>, AllocError>
    ensures { IfOk result (λ scopes. scopes ≡ merged_scopes merged.now) }
{
    let mut scopes = List::with_capacity(alloc, merged.len())?;
    for told in merged {
        scopes.push(told.scope)?;
    }
    Ok(scopes)
}

/// Where each scope that always invalidates was told. Fails only when out of memory.
fn caused_places(
    alloc: Global,
    causes: &[InvalidatingCause],
) -> Result<Keyed<ScopeId, usize>, AllocError>
    ensures { IfOk result (ArePlaces (caused_scopes causes.now)) }
{
    let scopes = scopes_caused(alloc, causes)?;
    places_of(alloc, scopes.as_slice())
}

/// The scopes that were told to always invalidate. Fails only when out of memory.
fn scopes_caused(alloc: Global, causes: &[InvalidatingCause]) -> Result<List<ScopeId>, AllocError>
    ensures { IfOk result (λ scopes. scopes ≡ caused_scopes causes.now) }
{
    let mut scopes = List::with_capacity(alloc, causes.len())?;
    for cause in causes {
        scopes.push(cause.scope)?;
    }
    Ok(scopes)
}

/// A place of each of the scopes in the list. Fails only when out of memory.
fn places_of(alloc: Global, scopes: &[ScopeId]) -> Result<Keyed<ScopeId, usize>, AllocError>
    ensures { IfOk result (ArePlaces scopes.now) }
{
    let mut places = Keyed::with_capacity(alloc, scopes.len())?;
    for (place, scope) in scopes.iter().enumerate() {
        places.insert(*scope, place)?;
    }
    Ok(places)
}
