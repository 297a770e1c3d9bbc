//! The numbers of slots: each scope block's slots follow those of the one before it.

ghost use Rattle.std.specs.Prelude.{◌≡◌, ◌+◌, ◌<◌, ◌≤◌, ◌^◌, ℕ, [], ◌∷◌, ◌++◌, Some, IfOk, IfSome, IfNone, OnOk};
ghost use Rattle.rc_slots.specs.Slots as spec;
ghost use Rattle.rc_slots.specs.declared.plan.SlotFault.TheVariants as faults;

use crate::plan::{ScopeSlots, SlotFault, SlotPlan};
use rc_hir::ReactiveScope;
use rc_names::{List, ScopeId};
use std::alloc::Global;

/// The lengths of the three lists of a scope.
#[derive(Clone, Copy, Debug, PartialEq, Eq)]
pub struct ScopeLengths {
    pub scope: ScopeId,
    pub dependencies: usize,
    pub declarations: usize,
    pub reassignments: usize,
}

impl ScopeLengths {
    /// The lengths of the lists of that scope, which has this number.
    pub(crate) fn of(scope: ScopeId, known: &ReactiveScope) -> ScopeLengths
        ensures { result ≡ spec.lengths_if scope (Some known.now) }
    {
        ScopeLengths {
            scope,
            dependencies: known.dependencies.len(),
            declarations: known.declarations.len(),
            reassignments: known.reassignments.len(),
        }
    }

    /// The slots of a scope block from that one on, and `None` if a length isn't below 2^32.
    fn slots_from(self, first: u32) -> Option<ScopeSlots>
        ensures slots { IfSome result (λ entry. entry ≡ spec.slots_from first self) }
        ensures none { IfNone result (2 ^ 32 ≤ spec.size (spec.slots_from first self)) }
    {
        Some(ScopeSlots {
            scope: self.scope,
            first,
            dependencies: u32::try_from(self.dependencies).ok()?,
            declarations: u32::try_from(self.declarations).ok()?,
            reassignments: u32::try_from(self.reassignments).ok()?,
        })
    }
}

impl ScopeSlots {
    /// The number after the last slot, and `None` if it isn't below 2^32.
    fn end(self) -> Option<u32>
        ensures end { IfSome result (λ end. end ≡ self.first + spec.size self) }
        ensures none { IfNone result (2 ^ 32 ≤ self.first + spec.size self) }
    {
        self.first
            .checked_add(self.dependencies)?
            .checked_add(self.declarations)?
            .checked_add(self.reassignments)
    }
}

impl SlotPlan {
    /// Adds the slots of a scope block after all others. Returns `TooMany` if there are more than 4,294,967,295 then,
    /// and `NoMemory` when out of memory.
    fn add(&mut self, lengths: ScopeLengths) -> Result<(), SlotFault>
        ensures scopes { OnOk result (self.new.scopes
            ≡ self.old.scopes ++ spec.slots_from self.old.total lengths ∷ []) }
        ensures total { OnOk result (self.new.total
            ≡ self.old.total + spec.size (spec.slots_from self.old.total lengths)) }
        ensures fits { OnOk result (self.new.total < 2 ^ 32) }
        ensures too_many { result ≡ Err faults.TooMany
            → 2 ^ 32 ≤ self.old.total + spec.size (spec.slots_from self.old.total lengths) }
        ensures known { (index : ℕ) → ¬ (result ≡ Err (faults.BadName index)) }
    {
        let entry = lengths.slots_from(self.total).ok_or(SlotFault::TooMany)?;
        let end = entry.end().ok_or(SlotFault::TooMany)?;
        self.scopes.push(entry)?;
        self.total = end;
        Ok(())
    }
}

/// Numbers the slots of scope blocks with lists of these lengths. Returns `TooMany` if there are more than
/// 4,294,967,295 slots, and `NoMemory` when out of memory.
pub fn number_slots(alloc: Global, all: &[ScopeLengths]) -> Result<SlotPlan, SlotFault>
    ensures slots { IfOk result (λ plan. plan ≡ spec.numbered all.now) }
    ensures plan { IfOk result spec.IsPlan }
    ensures fits { OnOk result ((spec.numbered all.now).total < 2 ^ 32) }
    ensures too_many { result ≡ Err faults.TooMany → 2 ^ 32 ≤ (spec.numbered all.now).total }
    ensures known { (index : ℕ) → ¬ (result ≡ Err (faults.BadName index)) }
{
    let mut plan = SlotPlan {
        scopes: List::with_capacity(alloc, all.len())?,
        total: 0,
    };
    for lengths in all {
        plan.add(*lengths)?;
    }
    Ok(plan)
}
