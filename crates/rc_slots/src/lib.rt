//! The cache planner: which slots of a memo cache each scope block has, and such a cache.
#![tactic(auto)]

mod cache;
mod numbering;
mod owner;
mod plan;
mod scope_blocks;

pub use cache::{ScopeAnswer, ScopeValues, SlotCache, render_all};
pub use numbering::{ScopeLengths, number_slots};
pub use owner::{SlotOwner, SlotPart};
pub use plan::{ScopeSlots, SlotFault, SlotPlan, plan_slots};
