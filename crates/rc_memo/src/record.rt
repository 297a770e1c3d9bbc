//! What escape analysis records of a function.

use crate::MemoizationLevel;
use rc_names::{DeclarationId, KeySet, Keyed, List, ScopeId};

/// A set of names, in the order in which they were put in.
pub type DeclSet = KeySet<DeclarationId>;

/// What is recorded of a name.
#[derive(Drop)]
pub struct MemoNode {
    pub level: MemoizationLevel,
    /// The names that its value is computed from.
    pub dependencies: KeySet<DeclarationId>,
    /// The scopes that were active at a row that has the name. If the name is memoized, what these scopes depend on is
    /// visited as needed by a memoized scope.
    pub scopes: KeySet<ScopeId>,
}

/// What is recorded of a function.
#[derive(Drop)]
pub struct MemoRecord {
    pub nodes: Keyed<DeclarationId, MemoNode>,
    /// Each recorded scope with the names of its dependencies.
    pub scopes: Keyed<ScopeId, List<DeclarationId>>,
    /// Each name that a `LoadLocal` loads into, with the name that the last such row loads.
    pub definitions: Keyed<DeclarationId, DeclarationId>,
    /// The names that escape from the function.
    pub escaping: KeySet<DeclarationId>,
}
