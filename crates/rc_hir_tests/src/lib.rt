//! Tests of the operand readers, of the check of numbers, and of the environment.
#![tactic(auto)]

#[cfg(test)]
mod tests;
