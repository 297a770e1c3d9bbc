//! Typed numbers, and the small containers that contracts see as lists.
//!
//! Every other crate is built on these: a typed number is the index of a table, and a tree is made of `List` and
//! `Boxed`. No contract above this crate speaks of a pointer or of a capacity.
#![tactic(auto)]

mod bit_row;
mod boxed;
mod clone_in;
mod fixed_list;
mod key_set;
mod keyed;
mod list;
mod name;
mod numbers;
mod seed;
mod span;
mod table;
mod text;

pub use bit_row::BitRow;
pub use boxed::Boxed;
pub use clone_in::CloneIn;
pub use fixed_list::FixedList;
pub use key_set::KeySet;
pub use keyed::Keyed;
pub use list::List;
pub use name::Name;
pub use numbers::{
    BlockId, DeclarationId, EvaluationOrder, FunctionId, Id, IdentifierId, InstructionId, ScopeId,
    TypeId,
};
pub use seed::Seed;
pub use span::Span;
pub use table::Table;
pub use text::Text;
