//! A document with every form: each of its parts is changed, and its values are printed and read again.

pub mod changes;
mod document;
pub mod judged;
pub mod parts;
mod places;
mod spellings;
pub mod types;
mod uses;
mod values;
