//! The document: a function and its environment, read from JSON exactly.
#![tactic(auto)]

mod document;
mod fields;
mod members;
mod read;
mod refusal;

pub use document::{Doc, read_doc, read_instruction_value};
pub use fields::{Read, tag};
pub use read::place::read_place;
pub use refusal::Refusal;
