//! Scope blocks that invalidate together: which lists of dependencies are the same, what merging makes of a tree and of
//! its scopes, and that no part of a merged scope is stale.
#![tactic(auto)]

mod declared;
mod facts;
mod find_last_usage;
mod group;
mod input;
mod inputs;
mod known;
mod last_uses;
mod list;
mod merge;
mod rows;
mod sorted_inputs;
mod tables;

pub use facts::{DepPair, MergeCondition, MergedFacts, NotedUse, pairs_of};
pub use inputs::are_equal_dependencies;
pub use merge::{
    ExplainedMerging, decide_merged_scopes, explain_merged_scopes,
    merge_reactive_scopes_that_invalidate_together,
};
