//! Tests of functions as two tables.
#![tactic(auto)]

#[cfg(test)]
mod tests;
