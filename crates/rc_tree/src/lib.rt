//! The reactive tree: nested statements and expressions, with the blocks of reactive scopes.
//!
//! The types are after oxc's react_compiler_hir/reactive.rs.
#![tactic(auto)]

mod copies;
mod drops;
mod fate;
mod function;
mod hooks;
mod kind;
mod scope;
mod scopes;
mod statement;
mod terminal;
mod value;

pub use fate::{Fate, ScopeFate};
pub use function::ReactiveFunction;
pub use hooks::{Enter, Transformed};
pub use kind::ReactiveTerminalTargetKind;
pub use scope::{PrunedReactiveScopeBlock, ReactiveScopeBlock};
pub use scopes::scopes_in;
pub use statement::{ReactiveBlock, ReactiveStatement};
pub use terminal::{
    ReactiveLabel, ReactiveSwitchCase, ReactiveTerminal, ReactiveTerminalStatement,
};
pub use value::{Opened, ReactiveInstruction, ReactiveValue};
