//! The fields of each terminal, in families, each of which hands the name of another family's terminal on to
//! the next.

mod blocks;
mod branches;
mod jumps;
mod loops;

pub(crate) use branches::terminal_fields;
