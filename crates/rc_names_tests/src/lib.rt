//! Tests of the typed numbers and of each container.
#![tactic(auto)]

#[cfg(test)]
mod tests;
