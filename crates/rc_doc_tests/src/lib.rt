//! Tests of documents: reading, printing, and copies.
#![tactic(auto)]

#[cfg(test)]
mod tests;
