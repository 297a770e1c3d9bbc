//! Which names may change between renders, and which scopes would recompute in every render.
//!
//! A walk over the tree lists what makes names reactive or carries that on. One set of names then grows over the list.
#![tactic(auto)]

mod always_invalidating;
mod collect_visitor;
mod collected;
mod flows;
mod invalidating_cause;
mod reactive_dependencies;
mod spread;
mod step;
mod taking;
mod told;
mod types;
mod value_step;

pub use always_invalidating::{
    decide_always_invalidating_scopes, invalidating_causes, prune_always_invalidating_scopes,
};
pub use collected::collect_reactive_identifiers;
pub use invalidating_cause::InvalidatingCause;
pub use reactive_dependencies::prune_non_reactive_dependencies;
