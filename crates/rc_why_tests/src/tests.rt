//! Reasons of each kind, and which of them fit.

mod comparing;
mod kinds;
mod lists;
mod merged;
