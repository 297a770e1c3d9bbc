//! Copies of each type that owns memory: a copy equals its source.

mod environment;
mod function;
mod instruction;
mod pattern;
mod scope;
mod terminal;
