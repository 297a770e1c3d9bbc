//! The generated documents, with scopes of every kind, for measurements and for a first look at the program.
#![tactic(auto)]

mod blocks;
mod document;
mod kind;
mod parts;
mod rows;
mod tables;

pub use document::generate;
