//! Copies of the tree: a copy equals its source.

mod statement;
mod value;
