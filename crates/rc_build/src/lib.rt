//! The builder: from a graph to the one function that it spells.
//!
//! A list is built block by block: the rows of a block, then the statement of its terminal, and on at the
//! statement's fallthrough where that was opened. Only the parts of a statement are built by a nested call.
//! Each block is marked before its parts are built, so a graph that leads back to a block is refused there.
//!
//! After oxc's build_reactive_function.
#![tactic(auto)]

mod answered_test;
mod blocks;
mod branches;
mod builder;
mod enclosures;
mod flatten;
mod frames;
mod given_tree;
mod handlers;
mod header;
mod jumps;
mod lists;
mod loops;
mod nesting;
mod places;
mod reactive_function;
mod rows;
mod short_arms;
mod switches;
mod tries;
mod unreachable;
mod value_ends;
mod value_rows;
mod value_statements;
mod value_steps;
mod value_terminals;
mod values;

pub use given_tree::{Broken, spells};
pub use nesting::USUAL_STACK;
pub use reactive_function::{
    build_known_function, build_reactive_function, build_reactive_function_within,
};
