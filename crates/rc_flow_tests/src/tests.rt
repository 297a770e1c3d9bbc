//! The three calls on small trees, a tree for each rule.

mod always_invalidating;
mod collected;
mod flows;
mod rows;
mod tables;
mod trees;
mod two_scopes;
