//! The set of names grows over what the collecting walk told.
//!
//! A set only grows. So a context whose names were put in once has none to put in again, and each function's context is
//! gone through once, whatever the number of the rows that name it.
#![tactic(auto, using(crate::proofs::TakenLemmas::taking))]

ghost use Rattle.std.specs.Prelude.{◌≡◌, OnOk};
ghost use Rattle.rc_flow.specs.inside.Spread.{after_steps};
ghost use Rattle.rc_flow.specs.inside.Told.{AreTaken, steps_told, steps_told_at, with_place, with_places};
ghost use Rattle.rc_flow.specs.declared.told.Told.TheVariants as told_at;

use crate::spread::Spread;
use crate::told::Told;
use rc_hir::{Environment, Place};
use rc_names::{FunctionId, IdentifierId, KeySet};
use std::alloc::{AllocError, Global};

/// Takes all that was told, in order.
pub fn take_told(
    alloc: Global,
    env: &Environment,
    told: &[Told],
    spread: &mut Spread,
) -> Result<(), AllocError>
    ensures { OnOk result
        (spread.new ≡ after_steps env.now (steps_told env.now.functions told.now) spread.old) }
{
    let mut taken = KeySet::new(alloc);
    for one in told {
        take_one(env, one, &mut taken, spread)?;
    }
    Ok(())
}

/// Takes what was told at one place.
fn take_one(
    env: &Environment,
    told: &Told,
    taken: &mut KeySet<FunctionId>,
    spread: &mut Spread,
) -> Result<(), AllocError>
    requires taken { AreTaken env.now.functions taken.old spread.old.names }
    ensures steps { OnOk result
        (spread.new ≡ after_steps env.now (steps_told_at env.now.functions told.now) spread.old) }
    ensures taken { OnOk result (AreTaken env.now.functions taken.new spread.new.names) }
{
    match told {
        Told::Step(step) => spread.take_step(env, step),
        Told::Context(function) => take_context(env, *function, taken, spread),
    }
}

/// Takes the context of a function, unless it was taken before.
fn take_context(
    env: &Environment,
    function: FunctionId,
    taken: &mut KeySet<FunctionId>,
    spread: &mut Spread,
) -> Result<(), AllocError>
    requires taken { AreTaken env.now.functions taken.old spread.old.names }
    ensures steps { OnOk result (spread.new
        ≡ after_steps env.now (steps_told_at env.now.functions (told_at.Context function)) spread.old) }
    ensures taken { OnOk result (AreTaken env.now.functions taken.new spread.new.names) }
{
    if taken.contains(function) {
        return Ok(());
    }
    taken.insert(function)?;
    match env.functions.get(function) {
        Some(known) => {
            mark_places(&mut spread.names, known.context.as_slice())?;
            Ok(())
        }
        None => Ok(()),
    }
}

/// Puts the names of the places that are marked reactive into the set.
fn mark_places(names: &mut KeySet<IdentifierId>, places: &[Place]) -> Result<(), AllocError>
    ensures { OnOk result (names.new ≡ with_places places.now names.old) }
{
    for place in places {
        mark_place(names, place)?;
    }
    Ok(())
}

/// Puts the name of a place into the set, if it is marked reactive.
fn mark_place(names: &mut KeySet<IdentifierId>, place: &Place) -> Result<(), AllocError>
    ensures { OnOk result (names.new ≡ with_place place.now names.old) }
{
    if place.reactive {
        names.insert(place.identifier)?;
    }
    Ok(())
}
