//! Runs that are replayed.

mod bodies;
mod build;
mod events;
mod graphs;
mod runs;
