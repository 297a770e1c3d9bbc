//! Tests of the replay of given runs.
#![tactic(auto)]

#[cfg(test)]
mod tests;
