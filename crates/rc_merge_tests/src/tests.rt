//! The three calls on small lists and trees.

mod dependencies;
mod merging;
mod trees;
