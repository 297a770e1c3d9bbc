//! The readers of the types of a document, one file for each file of the types.

mod environment;
mod function;
mod instruction;
mod number;
mod part;
mod pattern;
pub(crate) mod place;
mod scope;
mod terminal;
mod types;
