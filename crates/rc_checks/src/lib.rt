//! Two checks of a tree, and the two passes that need no analysis: unused labels and unused scopes.
#![tactic(auto)]

mod block_set;
mod break_targets;
mod labels;
mod membership;
mod scope_blocks;
mod unused_scopes;

pub use block_set::BlockSet;
pub use break_targets::assert_well_formed_break_targets;
pub use labels::{UnusedLabels, prune_unused_labels};
pub use membership::{
    assert_known_instructions_within_scopes, assert_scope_instructions_within_scopes,
};
pub use scope_blocks::scopes_in;
pub use unused_scopes::{decide_unused_scopes, prune_unused_scopes};
