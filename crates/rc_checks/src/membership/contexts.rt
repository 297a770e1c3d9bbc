//! The places of nested functions' contexts to visit. A visit of any other would have no lasting effect.
//!
//! Each row that names a function visits its context. A place without a scope, or whose scope has no block, is inside
//! wherever it is visited. The places of one scope are outside together, and only the last operand outside is kept. So
//! each context is looked through once, for the last place of each scope that has a block, and a row visits those of
//! them whose scope's range has its id. Where a place has a number outside its table, a row visits that one alone: the
//! check ends there, and keeps nothing of the places in front of it.

ghost use Rattle.std.specs.Prelude.{◌≡◌, ◌||◌, ◌++◌, ◌∷◌, [], IfOk, OnOk};
ghost use Rattle.std.specs.List.{find};
ghost use Rattle.rc_checks.specs.Membership as found;
ghost use Rattle.rc_checks.specs.inside.ContextVisits as spec;
ghost use Rattle.rc_names.specs.Numbers.{ScopeId as Scope, is_among};

use crate::membership::look_ups::{range_of, scope_of};
use rc_hir::{Environment, Fault, Place};
use rc_names::{KeySet, List, ScopeId};
use rc_ranges::{PlacesByRange, RangedPlace};
use std::alloc::{AllocError, Global};

/// What a row that names a function visits of its context.
#[derive(Drop)]
pub struct ContextToVisit {
    /// The first place with a number outside its table.
    pub unknown: Option<Place>,
    /// The places whose numbers are in their tables, with the ranges of their scopes.
    pub known: PlacesByRange,
}

/// Of each function of the environment, what is visited of its context. The only error is out of memory.
pub fn contexts_to_visit(
    alloc: Global,
    env: &Environment,
    blocks: &KeySet<ScopeId>,
) -> Result<List<ContextToVisit>, AllocError>
    ensures { IfOk result (λ contexts. contexts ≡ spec.contexts_to_visit env.now blocks.now) }
{
    let functions = env.functions.as_slice();
    let mut contexts = List::with_capacity(alloc, functions.len())?;
    for function in functions {
        let places = places_to_visit(alloc, env, blocks, function.context.as_slice())?;
        let context = by_range(alloc, env, places.as_slice())?;
        contexts.push(context)?;
    }
    Ok(contexts)
}

/// The places to visit among those of a context, in their order. The only error is out of memory.
fn places_to_visit(
    alloc: Global,
    env: &Environment,
    blocks: &KeySet<ScopeId>,
    context: &[Place],
) -> Result<List<Place>, AllocError>
    ensures { IfOk result (λ places. places ≡ spec.places_to_visit env.now blocks.now context.now) }
{
    let mut met = KeySet::new(alloc);
    let mut places = List::new(alloc);
    // From the end on, so that the last place of a scope is met first.
    let mut at = context.len();
    while at > 0 {
        at -= 1;
        let place = &context[at];
        if is_needed(env, blocks, &met, place) {
            add_scope(env, place, &mut met)?;
            places.push(*place)?;
        }
    }
    places.reverse();
    Ok(places)
}

/// Whether the place's scope has a block and isn't met, or a number of the place is outside its table.
fn is_needed(
    env: &Environment,
    blocks: &KeySet<ScopeId>,
    met: &KeySet<ScopeId>,
    place: &Place,
) -> bool
    ensures { result ≡ spec.is_needed env.now blocks.now (is_among met.now)
        (found.scope_of env.now place.now.identifier) }
{
    match scope_of(env, place.identifier) {
        Ok(Some(scope)) => {
            range_of(env, scope).is_err() || (blocks.contains(scope) && !met.contains(scope))
        }
        Ok(None) => false,
        Err(_) => true,
    }
}

/// Adds the place's scope, where it has one. The only error is out of memory.
fn add_scope(env: &Environment, place: &Place, met: &mut KeySet<ScopeId>) -> Result<(), AllocError>
    ensures { OnOk result ((scope : Scope) → is_among met.new scope
        ≡ (spec.is_scope scope (found.scope_of env.now place.now.identifier) || is_among met.old scope)) }
{
    if let Ok(Some(scope)) = scope_of(env, place.identifier) {
        met.insert(scope)?;
    }
    Ok(())
}

/// The places by the ranges of their scopes. The only error is out of memory.
fn by_range(
    alloc: Global,
    env: &Environment,
    places: &[Place],
) -> Result<ContextToVisit, AllocError>
    ensures { IfOk result (λ context. context ≡ spec.by_range env.now places.now) }
{
    let mut known = List::new(alloc);
    for place in places {
        add_known(env, place, &mut known)?;
    }
    Ok(ContextToVisit {
        unknown: first_unknown(env, places),
        known: PlacesByRange::new(alloc, known.as_slice())?,
    })
}

/// The first place with a number outside its table.
fn first_unknown(env: &Environment, places: &[Place]) -> Option<Place>
    ensures { result ≡ find (spec.is_unknown env.now) places.now }
{
    for place in places {
        if with_range(env, place).is_err() {
            return Some(*place);
        }
    }
    None
}

/// Adds the place with the range of its scope, where it has one that is in its table. The only error is out of memory.
fn add_known(
    env: &Environment,
    place: &Place,
    known: &mut List<RangedPlace>,
) -> Result<(), AllocError>
    ensures { OnOk result (known.new ≡ known.old ++ spec.known_places env.now (place.now ∷ [])) }
{
    if let Ok(Some(ranged)) = with_range(env, place) {
        known.push(ranged)?;
    }
    Ok(())
}

/// The place with the range of its scope, where it has one; `BadName` comes where one of its numbers is outside its
/// table.
fn with_range(env: &Environment, place: &Place) -> Result<Option<RangedPlace>, Fault>
    ensures { result ≡ spec.with_range env.now place.now }
{
    let Some(scope) = scope_of(env, place.identifier)? else {
        return Ok(None);
    };
    let range = range_of(env, scope)?;
    Ok(Some(RangedPlace {
        place: *place,
        range,
    }))
}
