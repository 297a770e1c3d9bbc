//! The fate of a scope, with the facts that the rule of that fate read.

use rc_merge::{DepPair, MergeCondition, NotedUse};
use rc_names::{DeclarationId, EvaluationOrder, IdentifierId, List, ScopeId};
use rc_tree::Fate;

/// What the rule of a fate read where it judged a scope. The outputs of a scope are its declarations, and then its
/// reassignments.
#[derive(Drop)]
pub enum Facts {
    /// The first output that is memoized, if there is one.
    Kept {
        output: Option<DeclarationId>,
    },
    /// The outputs, and all names that are memoized.
    NotEscaping {
        outputs: List<DeclarationId>,
        memoized: List<DeclarationId>,
    },
    /// The scope by which each value was declared, the number of reassignments, and that of each `Return` in the block
    /// but outside the blocks in it.
    Unused {
        declared_by: List<ScopeId>,
        reassignments: u32,
        returns: u32,
    },
    /// The dependencies of the scope, and those of the scope of the nearest block around it.
    Dissolved {
        own: List<DepPair>,
        parent: List<DepPair>,
    },
    /// What the condition compares: the dependencies and the declared values of the head, the dependencies of the next
    /// scope, and for `Sources` the value of the head that each of these is or copies. Then the names that are written
    /// between the scope block before and this one, and the id at which the next scope's range ends.
    Merged {
        condition: MergeCondition,
        head: List<DepPair>,
        outputs: List<DeclarationId>,
        next: List<DepPair>,
        sources: List<DeclarationId>,
        uses: List<NotedUse>,
        end: EvaluationOrder,
    },
    /// The first dependency whose value is always a new one and kept by no scope.
    AlwaysInvalidating {
        dependency: IdentifierId,
    },
}

/// Why a scope has its fate.
#[derive(Drop)]
pub struct Reason {
    pub scope: ScopeId,
    pub fate: Fate,
    pub facts: Facts,
}
