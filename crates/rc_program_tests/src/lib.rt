//! Tests of what no document shows: devices that fail, want of memory, calls of the libraries, and printed lines of
//! trees that no graph has. The documents are in `tests/` of the repository.
#![tactic(auto)]

#[cfg(test)]
mod tests;
