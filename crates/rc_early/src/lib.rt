//! Early returns: a `Return` in a scope block becomes a store and a jump out of the outermost scope block around it.
#![tactic(auto)]

mod early_return;
mod entries;
mod numbers;
mod pass;
mod replacing;
mod statements;

pub use pass::propagate_early_returns;
