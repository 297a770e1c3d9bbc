//! Tests of reactive names, of dependencies, and of scopes that always invalidate.
#![tactic(auto)]

#[cfg(test)]
mod tests;
