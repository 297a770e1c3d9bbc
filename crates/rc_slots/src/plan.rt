//! The plan: each scope block of a function, in the order of the read walk, with its slots.

ghost use Rattle.std.specs.Prelude.{◌≡◌, ◌<◌, ◌≤◌, ◌^◌, ℕ, ◌∷◌, List as Scopes, map, Some, None};
ghost use Rattle.std.specs.Prelude.{IfOk, OnOk};
ghost use Rattle.rc_names.specs.Numbers.{ScopeId as Scope, to_id};
ghost use Rattle.rc_slots.specs.ScopeBlocks.{scopes_entered};
ghost use Rattle.rc_slots.specs.Slots as spec;
ghost use Rattle.rc_slots.specs.declared.plan.SlotFault.TheVariants as faults;
ghost use Rattle.rc_tree.specs.TreeNames.{TreeInTables};

use crate::numbering::{ScopeLengths, number_slots};
use crate::scope_blocks::scopes_entered;
use rc_hir::Environment;
use rc_names::{List, ScopeId};
use rc_tree::ReactiveFunction;
use std::alloc::{AllocError, Global};

/// The slots of a scope block: one for each dependency, then one for each declaration, then one for each reassignment.
#[derive(Clone, Copy, Debug, PartialEq, Eq)]
pub struct ScopeSlots {
    pub scope: ScopeId,
    /// The number of the first slot.
    pub first: u32,
    pub dependencies: u32,
    pub declarations: u32,
    pub reassignments: u32,
}

/// The slots of all scope blocks, in the order of the read walk.
#[derive(Drop)]
pub struct SlotPlan {
    pub scopes: List<ScopeSlots>,
    /// The number of all slots.
    pub total: u32,
}

/// Why there is no plan.
#[derive(Clone, Copy, Debug, PartialEq, Eq)]
pub enum SlotFault {
    /// A scope block has the number `index`, which is outside the table of scopes.
    BadName { index: u32 },
    /// The scope blocks have more than 4,294,967,295 slots together.
    TooMany,
    NoMemory,
}

impl From<AllocError> for SlotFault {
    ghost from_gives = { λ _ fault. fault ≡ faults.NoMemory };

    fn from(_error: AllocError) -> SlotFault {
        SlotFault::NoMemory
    }
}

/// Plans the slots of the function's scope blocks: each has one for each entry of its scope's three lists.
///
/// Returns `BadName` with the number of the first scope block, in the order of the read walk, whose scope isn't in the
/// environment, which never comes where every number is in its table; else `TooMany` if the lists have more than
/// 4,294,967,295 entries together; and `NoMemory` when out of memory.
pub fn plan_slots(
    alloc: Global,
    func: &ReactiveFunction,
    env: &Environment,
) -> Result<SlotPlan, SlotFault>
    ensures slots { IfOk result (λ plan. plan ≡ spec.slots_of env.now func.now) }
    ensures plan { IfOk result spec.IsPlan }

    ensures known { OnOk result (spec.first_outside env.now (scopes_entered func.now.body) ≡ None) }
    ensures bad_name { (index : ℕ) → result ≡ Err (faults.BadName index)
        → spec.first_outside env.now (scopes_entered func.now.body) ≡ Some (to_id index) }
    ensures sound { TreeInTables func.now env.now → (index : ℕ) → ¬ (result ≡ Err (faults.BadName index)) }

    ensures fits { OnOk result ((spec.slots_of env.now func.now).total < 2 ^ 32) }
    ensures too_many { result ≡ Err faults.TooMany
        → (spec.first_outside env.now (scopes_entered func.now.body) ≡ None)
        × (2 ^ 32 ≤ (spec.slots_of env.now func.now).total) }
{
    let scopes = scopes_entered(alloc, func, env)?;
    let lengths = lengths_of(alloc, env, scopes.as_slice())?;
    number_slots(alloc, lengths.as_slice())
}

/// The lengths of the lists of scopes. Returns `BadName` with the first scope that isn't in the environment, and
/// `NoMemory` when out of memory.
fn lengths_of(
    alloc: Global,
    env: &Environment,
    scopes: &[ScopeId],
) -> Result<List<ScopeLengths>, SlotFault>
    ensures lengths { IfOk result (λ lengths. lengths ≡ map (spec.lengths_in env.now) scopes.now) }
    ensures known { OnOk result (spec.first_outside env.now scopes.now ≡ None) }
    ensures bad_name { (index : ℕ) → result ≡ Err (faults.BadName index)
        → spec.first_outside env.now scopes.now ≡ Some (to_id index) }
    ensures not_many { ¬ (result ≡ Err faults.TooMany) }
{
    let mut lengths = List::with_capacity(alloc, scopes.len())?;
    for scope in scopes {
        lengths.push(lengths_in(env, *scope)?)?;
    }
    Ok(lengths)
}

/// The lengths of the lists of a scope. Returns `BadName` if it isn't in the environment.
fn lengths_in(env: &Environment, scope: ScopeId) -> Result<ScopeLengths, SlotFault>
    ensures lengths { IfOk result (λ lengths. lengths ≡ spec.lengths_in env.now scope) }
    ensures known { OnOk result ((more : Scopes Scope)
        → spec.first_outside env.now (scope ∷ more) ≡ spec.first_outside env.now more) }
    ensures bad_name { (index : ℕ) → result ≡ Err (faults.BadName index) → (more : Scopes Scope)
        → spec.first_outside env.now (scope ∷ more) ≡ Some (to_id index) }
    ensures not_many { ¬ (result ≡ Err faults.TooMany) }
{
    match env.scopes.get(scope) {
        Some(known) => Ok(ScopeLengths::of(scope, known)),
        None => Err(SlotFault::BadName { index: scope.0 }),
    }
}
