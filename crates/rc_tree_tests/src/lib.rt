//! Tests of the reactive tree, of its copies and of both walks.
#![tactic(auto)]

#[cfg(test)]
mod tests;
