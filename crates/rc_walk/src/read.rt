//! The read walk: each call walks the inside of its part, without a change and without a copy.
//!
//! After oxc's visitors.rs.

pub(crate) mod function;
mod held;
mod statement;
mod value;

pub use statement::{traverse_block, traverse_pruned_scope, traverse_scope, traverse_terminal};
pub use value::{traverse_instruction, traverse_value};
