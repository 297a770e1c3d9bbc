//! Walks and copies of trees that are written here, compared with visits that are written by hand.

mod copies;
mod drops;
mod graphs;
mod kinds;
mod order;
mod parts;
mod recorder;
mod rewriter;
mod rewrites;
mod trees;
