//! Tests of reasons: of each kind one that fits, and the same with one fact changed.
#![tactic(auto)]

#[cfg(test)]
mod tests;
