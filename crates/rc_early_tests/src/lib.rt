//! Tests of early returns.
#![tactic(auto)]

#[cfg(test)]
mod tests;
