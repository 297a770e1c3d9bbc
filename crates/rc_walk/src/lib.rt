//! The walks over the reactive tree: one that reads it and one that rewrites it in its place, each with hooks.
//!
//! After oxc's visitors.rs.
#![tactic(auto)]

pub mod read;
pub mod rewrite;
mod statement_transform;
pub mod statements;
mod transform;
mod visitor;

pub use read::function::{visit_hir_function, visit_reactive_function};
pub use rewrite::transform_reactive_function;
pub use statement_transform::{OverStatements, StatementTransform};
pub use transform::ReactiveFunctionTransform;
pub use visitor::ReactiveFunctionVisitor;
