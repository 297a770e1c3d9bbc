//! Tests of the two checks and of the two passes.
#![tactic(auto)]

#[cfg(test)]
mod tests;
