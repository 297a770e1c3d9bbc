//! The memo record of a function: how much each name asks to be memoized, on which names it depends, and which scopes
//! compute it.
//!
//! The rows of a tree are read by the memo table, which says of each kind of instruction what it asks of its places.
//! Each row is recorded as it is read: its operands once, and with each of its targets where they are.
//!
//! After oxc's prune_non_escaping_scopes.
#![tactic(auto)]

mod collecting;
mod event;
mod expanding;
mod level;
mod nodes;
mod reader;
mod record;
mod recording;
mod row_record;
mod rows;
mod scopes;
mod table;
mod tree;

pub use collecting::{collect, collect_rows};
pub use level::{MemoizationLevel, join_aliases};
pub use record::{DeclSet, MemoNode, MemoRecord};
pub use row_record::{RowNode, RowRecord};
