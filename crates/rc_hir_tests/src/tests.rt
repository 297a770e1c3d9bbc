//! Worked values, with enough memory: operands, refusals of `check_names`, and the counters.

mod environment;
mod graphs;
mod names;
mod operands;
