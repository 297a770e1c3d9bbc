//! The rewriting walk: each call walks the inside of its part and changes it in its place, without a copy.
//!
//! After an error the tree has no stated content and must not be used any more.
//!
//! After oxc's visitors.rs.

mod function;
mod in_place;
mod statement;
mod terminal;
mod value;
mod visits;

pub use function::transform_reactive_function;
pub use statement::{
    transform_stmt, traverse_block, traverse_pruned_scope, traverse_scope, traverse_terminal,
};
pub use value::{traverse_instruction, traverse_value};
