//! Each check and pass on trees that are written here.

mod break_targets;
mod labels;
mod membership;
mod outline;
mod pruning;
mod trees;
mod unused_scopes;
