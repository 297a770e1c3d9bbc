//! The whole answer as one line of JSON, for programs.
#![tactic(auto)]

mod answer;
mod environment;
mod fates;
mod function;
mod graph;
mod numbering;
mod operator;
mod parts;
mod scope;
mod tables;
mod terminal;
mod view;

pub use answer::answer_text;
