//! Plans of small functions, the owners of their slots, and renders of a cache.

mod cache;
mod numbers;
mod owners;
mod plans;
mod trees;
