//! Tests of the places that are found by their ranges.
#![tactic(auto)]

#[cfg(test)]
mod tests;
