//! Escape analysis: which names have to be memoized, since they escape from the function or since a name that escapes
//! needs them.
//!
//! A record tells of each name how much it asks to be memoized, on which names it depends, and which scopes compute it.
//! A walk over the record from the names that escape decides which names are memoized.
//!
//! After oxc's prune_non_escaping_scopes.
#![tactic(auto)]

mod memo_walk;
mod memoized_names;
mod missing_scopes;
mod not_escaping;
mod one_row_each;
mod row_users;
mod walk_state;

pub use memoized_names::memoized;
pub use not_escaping::outputs::outputs;
pub use not_escaping::{
    ExplainedEscape, decide_non_escaping_scopes, explain_non_escaping_scopes, flag_memoizations,
    prune_non_escaping_scopes,
};
pub use rc_memo::{DeclSet, MemoNode, MemoRecord, MemoizationLevel, collect, join_aliases};
