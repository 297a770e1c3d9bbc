//! What merging reads of a scope that joins a head.

ghost use Rattle.std.specs.Prelude.{◌≡◌, Contains, IfOk};
ghost use Rattle.rc_why.specs.inside.Places.{ArePlaces};
ghost use Rattle.rc_why.specs.inside.ToldFacts.{IsToldMerged, as_facts, merged_scopes};

use crate::reason::Facts;
use rc_merge::MergedFacts;
use rc_names::{CloneIn, Keyed, ScopeId};
use std::alloc::{AllocError, Global};

/// The facts of a scope that joins a head: a copy of what merging told. Fails only when out of memory.
pub(crate) fn merged_facts(
    alloc: Global,
    merged: &[MergedFacts],
    places: &Keyed<ScopeId, usize>,
    scope: ScopeId,
) -> Result<Facts, AllocError>
    requires places { ArePlaces (merged_scopes merged.now) places.now }
    requires there { Contains (merged_scopes merged.now) scope }
    ensures { IfOk result (IsToldMerged merged.now scope) }
{
    match places.get(scope) {
        Some(place) => copied_facts(alloc, &merged[*place]),
        None => unreachable!(),
    }
}

/// What merging told, as the facts of a reason. Fails only when out of memory.
fn copied_facts(alloc: Global, told: &MergedFacts) -> Result<Facts, AllocError>
    ensures { IfOk result (λ it. it ≡ as_facts told.now) }
{
    Ok(Facts::Merged {
        condition: told.condition,
        head: told.head.clone_in(alloc)?,
        outputs: told.outputs.copy_in(alloc)?,
        next: told.next.clone_in(alloc)?,
        sources: told.sources.copy_in(alloc)?,
        uses: told.uses.copy_in(alloc)?,
        end: told.end,
    })
}
