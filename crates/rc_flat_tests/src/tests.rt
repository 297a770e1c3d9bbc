//! Functions that are read from two tables, and tables that give none.

mod answers;
mod examples;
mod parts;
mod refusals;
mod trees;
mod want_of_memory;
