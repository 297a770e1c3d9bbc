//! Tests of the cache planner.
#![tactic(auto)]

#[cfg(test)]
mod tests;
