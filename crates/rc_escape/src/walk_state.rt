//! What a walk over a record keeps.

use rc_names::{BitRow, FixedList, List};

/// What a walk has made of a node so far. A node is seen before it is memoized.
#[derive(Clone, Copy, Debug, PartialEq, Eq)]
pub(crate) enum NodeMark {
    /// The walk hasn't visited the node.
    Unseen,
    /// The walk has visited the node, and it isn't memoized, or not yet.
    Seen,
    /// The walk has memoized the node.
    Memoized,
}

/// What a walk has met so far, by positions in the record: of nodes, of rows and of scopes.
#[derive(Drop)]
pub(crate) struct WalkState {
    /// What the walk has made of each node.
    pub marks: FixedList<NodeMark>,
    /// The scopes that the walk has taken.
    pub taken: BitRow,
    /// How many operands of each row the walk has visited through the row. All names that depend on the row share this,
    /// so an operand is visited once through its row.
    pub passed: FixedList<usize>,
    /// The rows that have a memoized operand.
    pub answered: BitRow,
    /// For each node, the rows that its name is an operand of.
    pub users: List<List<usize>>,
}

/// A part of the walk that isn't done. It names nodes and scopes by their positions in the record, and `next` is the
/// place of the first name, row or scope that is left.
#[derive(Clone, Copy, Debug, PartialEq, Eq)]
pub(crate) enum VisitFrame {
    /// The escaping names are visited.
    Escaping {
        next: usize,
    },
    /// The operands of a node's rows are visited.
    Dependencies {
        node: usize,
        forced: bool,
        next: usize,
    },
    /// The scopes of a memoized node are taken.
    Scopes {
        node: usize,
        next: usize,
    },
    /// The dependencies of a scope are visited, each of them forced.
    ScopeDependencies {
        scope: usize,
        next: usize,
    },
}
