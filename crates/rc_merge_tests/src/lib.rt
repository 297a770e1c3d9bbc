//! Tests of merging, and of the comparison of dependencies.
#![tactic(auto)]

#[cfg(test)]
mod tests;
