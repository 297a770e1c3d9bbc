//! From a graph to its pruned tree: the passes in their order, the fates of scopes, and what the passes read of them.
#![tactic(auto)]

mod causes;
mod explaining;
mod fates;
mod passes;
mod pipeline;
mod spelled_scopes;

pub use explaining::Told;
pub use pipeline::{
    Explained, Pruned, build_and_prune, build_and_prune_within, explain, explain_within,
};
pub use rc_build::USUAL_STACK;
pub use rc_flow::InvalidatingCause;
pub use rc_merge::{DepPair, MergeCondition, MergedFacts, NotedUse};
pub use rc_tree::{Fate, ScopeFate};
