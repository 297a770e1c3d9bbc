//! To which scope block a slot belongs.

ghost use Rattle.std.specs.Prelude.{◌≡◌, ◌+◌, ◌≤◌, ◌<◌, ◌↔◌, ℕ, length, slice_get, Some, IsNone, IfSome};
ghost use Rattle.rc_slots.specs.Owner as spec;
ghost use Rattle.rc_slots.specs.Slots.{IsPlan, size};
ghost use Rattle.rc_slots.specs.declared.plan.ScopeSlots.{ScopeSlots as Entry};

use crate::plan::{ScopeSlots, SlotPlan};
use rc_names::ScopeId;

/// What a slot is for, by the place in its list.
#[derive(Clone, Copy, Debug, PartialEq, Eq)]
pub enum SlotPart {
    Dependency(u32),
    Declaration(u32),
    Reassignment(u32),
}

/// The scope of the scope block that has a slot, and what the slot is for.
#[derive(Clone, Copy, Debug, PartialEq, Eq)]
pub struct SlotOwner {
    pub scope: ScopeId,
    pub part: SlotPart,
}

impl ScopeSlots {
    /// What a slot is for that isn't before the first one of the scope block, and `None` if it is after the last one.
    fn part_at(self, slot: u32) -> Option<SlotPart>
        requires { self.first ≤ slot }
        ensures none { IsNone result ↔ (self.first + size self ≤ slot) }
        ensures part { IfSome result (λ part. spec.HasSlot self part slot) }
    {
        let offset = slot - self.first;
        if offset < self.dependencies {
            return Some(SlotPart::Dependency(offset));
        }
        let offset = offset - self.dependencies;
        if offset < self.declarations {
            return Some(SlotPart::Declaration(offset));
        }
        let offset = offset - self.declarations;
        if offset < self.reassignments {
            return Some(SlotPart::Reassignment(offset));
        }
        None
    }
}

impl SlotPlan {
    /// The owner of a slot, and `None` if the plan has no such slot. Takes no memory.
    pub fn owner(&self, slot: u32) -> Option<SlotOwner>
        requires { IsPlan self.now }
        ensures none { IsNone result ↔ (self.now.total ≤ slot) }
        ensures owner { IfSome result (spec.IsOwner self.now slot) }
    {
        let last = self.begun(slot).checked_sub(1)?;
        let entry = self.scopes.as_slice()[last];
        let part = entry.part_at(slot)?;
        Some(SlotOwner {
            scope: entry.scope,
            part,
        })
    }

    /// How many scope blocks have their first slot at this one or before it. A block without slots has the first slot
    /// of the next one.
    fn begun(&self, slot: u32) -> usize
        requires { IsPlan self.now }
        ensures bound { result ≤ length self.now.scopes }
        ensures begun { (i : ℕ) (entry : Entry) → slice_get self.now.scopes i ≡ Some entry
            → (i < result) ↔ (entry.first ≤ slot) }
    {
        self.scopes
            .as_slice()
            .partition_point(|entry| entry.first <= slot)
    }
}
