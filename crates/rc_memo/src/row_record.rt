//! What escape analysis records of a function, with the operands of a row once for all its targets.

use crate::{DeclSet, MemoizationLevel};
use rc_names::{DeclarationId, KeySet, Keyed, List, ScopeId};

/// What is recorded of a name.
#[derive(Drop)]
pub struct RowNode {
    pub level: MemoizationLevel,
    /// The rows that the name is a target of, by the positions of their operands. The name depends on the operands of
    /// each of them.
    pub rows: List<usize>,
    /// The scopes that have to stay where the name is memoized.
    pub scopes: KeySet<ScopeId>,
}

/// What is recorded of a function: a `MemoRecord` that holds the operands of each row once.
#[derive(Drop)]
pub struct RowRecord {
    pub nodes: Keyed<DeclarationId, RowNode>,
    /// The operands of rows.
    pub operands: List<List<DeclarationId>>,
    /// Each recorded scope with the names of its dependencies.
    pub scopes: Keyed<ScopeId, List<DeclarationId>>,
    /// Each name that a `LoadLocal` loads into, with the name that the last such row loads.
    pub definitions: Keyed<DeclarationId, DeclarationId>,
    /// The names that escape from the function.
    pub escaping: DeclSet,
}
