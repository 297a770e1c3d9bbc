//! Tests of the levels and of the memoized names of records.
#![tactic(auto)]

#[cfg(test)]
mod tests;
