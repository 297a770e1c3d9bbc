//! Reasons of fates: what the rule of a scope's fate read where it judged the scope, and whether that fits the fate.
#![tactic(auto)]

mod fits;
mod names;
mod pairs;
mod reason;
mod reasons;

pub use fits::check_reason;
pub use rc_merge::{DepPair, MergeCondition, NotedUse};
pub use reason::{Facts, Reason};
pub use reasons::{why, why_within};
