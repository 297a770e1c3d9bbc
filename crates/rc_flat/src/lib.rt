//! A function as two tables, blocks and nested values, in which no part is inside another: a part that would be is
//! named by its number. So neither a writer nor a reader of such a function needs a nested call.
#![tactic(auto)]

mod assembly;
mod fields;
mod found;
mod function;
mod queue;
mod reading_flat;
mod statement;
mod tables;
mod terminal;
mod value;

pub use function::FlatFunction;
pub use statement::{FlatScopeBlock, FlatStatement};
pub use tables::read_function;
pub use terminal::{FlatSwitchCase, FlatTerminal, FlatTerminalStatement};
pub use value::{FlatInstruction, FlatValue, NestedValue};
