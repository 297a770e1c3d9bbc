//! Replay of one given run: whether a list of events with an end is a run of a graph, and whether it is one of a body.
//!
//! Graph and body are laid out as a table of positions with moves, with or without an event. A run is replayed by
//! following its events through the table, from all positions at once that the events so far lead to.
#![tactic(auto)]

mod body;
mod body_statements;
mod body_values;
mod early_returns;
mod exits;
mod given;
mod graph;
mod layout;
mod paths;
mod positions;
mod silent;

pub use body::replay_body;
pub use given::{End, Event, GivenRun, has_throw};
pub use graph::replay_graph;
