//! One place of a walk, and what happens to reactive names there.

use rc_names::{IdentifierId, List, ScopeId};

/// What a place of a walk says of reactive names.
#[derive(Drop)]
pub enum Step {
    /// The name is reactive.
    Marks(IdentifierId),
    /// Where one of the first names is reactive, so are the others.
    Carries {
        from: List<IdentifierId>,
        to: List<IdentifierId>,
    },
    /// The end of a scope block: if one of its scope's dependencies is reactive, all of its outputs become reactive.
    Ends(ScopeId),
}
