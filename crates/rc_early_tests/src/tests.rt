//! The pass on small trees.

mod faults;
mod returns;
mod trees;
