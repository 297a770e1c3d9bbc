//! What the parts of a tree tell, in the order of the text.

use crate::MemoizationLevel;
use rc_names::{DeclarationId, List, ScopeId};

/// A place of a row: the declaration of its identifier, and the scope that is active for it.
#[derive(Clone, Copy)]
pub struct Mention {
    pub name: DeclarationId,
    pub scope: Option<ScopeId>,
}

/// A place that a row gives a level.
#[derive(Clone, Copy)]
pub struct Target {
    pub mention: Mention,
    pub level: MemoizationLevel,
}

/// What one part of a tree tells of names.
#[derive(Drop)]
pub enum MemoEvent {
    /// A row: the operands that are recorded, and the targets.
    Row {
        operands: List<Mention>,
        targets: List<Target>,
    },
    /// A row that loads a name into another.
    Load {
        target: DeclarationId,
        loaded: DeclarationId,
    },
    /// A name that is returned or reassigned has these scopes.
    Within {
        name: DeclarationId,
        scopes: List<ScopeId>,
    },
    /// A name escapes from the function.
    Escape {
        name: DeclarationId,
    },
}
