//! Tests of whether a graph spells a tree, and of the equality of trees.
#![tactic(auto)]

#[cfg(test)]
mod tests;
