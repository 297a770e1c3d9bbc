//! What makes a scope always invalidate.

use rc_names::{IdentifierId, ScopeId};

/// A scope whose block becomes a pruned one, and the first of its dependencies whose value is new in every render and
/// kept by no scope, where the block ends.
#[derive(Clone, Copy, Debug, PartialEq, Eq)]
pub struct InvalidatingCause {
    pub scope: ScopeId,
    pub dependency: IdentifierId,
}
