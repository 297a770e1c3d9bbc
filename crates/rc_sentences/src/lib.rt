//! Why a graph is refused, in a sentence: what the graph has, and what the rule asks for. No contract speaks of it.
#![tactic(auto)]

mod arms;
mod blocks;
mod frames;
mod graph;
mod instructions;
mod jumps;
mod limits;
mod line;
mod loops;
mod names;
mod needs;
mod outside;
mod parts;
mod records;
mod sentence;
mod statements;
mod terminals;
mod tries;
mod usage;
mod uses;
mod values;

pub use sentence::fault_sentence;
