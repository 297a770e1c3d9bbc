//! The runs of graphs and of bodies, and the body that a graph spells.
//!
//! The definitions are in `specs/`, and the frames, which the builder shares with them, in `src/`. `proofs/` has
//! theorems that hold for every builder: a graph spells one tree, and both have the same runs.
#![tactic(auto)]

mod frames;

pub use frames::{BreakResult, ContinueResult, Frame};
