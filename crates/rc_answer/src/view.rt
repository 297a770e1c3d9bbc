//! Parts of the tables as they are sent.

pub mod nested;
pub mod statement;
pub mod terminal;
pub mod value;
