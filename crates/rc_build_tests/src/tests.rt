//! Graphs, the trees that they spell, and trees that differ from these in one place.

mod equality;
mod graph;
mod implicit_label;
mod jumps;
mod nesting;
mod refusals;
mod spelled;
mod tree;
