//! The faults, which all calls share.

ghost use Rattle.std.specs.Prelude.{◌≡◌};
ghost use Rattle.rc_hir.specs.declared.fault.Fault.TheVariants as faults;

use rc_names::{BlockId, DeclarationId, EvaluationOrder, FunctionId, ScopeId};
use std::alloc::{AllocError, AllocFailed};

/// The reason why a call has no result.
#[derive(Clone, Copy, Debug, PartialEq, Eq)]
pub enum Fault {
    /// The graph spells no tree, because the block breaks the rule.
    Malformed { block: BlockId, rule: Rule },
    /// The graph spells no tree, because the block ends in a `Label` where a value must be.
    Todo { block: BlockId },
    /// The scope has an early return already; it is the lowest such scope.
    EarlyReturnSet { scope: ScopeId },
    /// An operand outside the blocks of its scope is visited at that id and has that scope; it is the last such
    /// operand.
    ScopeCompleted { id: EvaluationOrder, scope: ScopeId },
    /// The escape record needs the declaration before it has a node; this is the first such need.
    Uninitialised { declaration: DeclarationId },
    /// A recorded declaration is linked to the scope, which has no record; it is the lowest such scope.
    NoScopeNode { scope: ScopeId },
    /// The graph, the tree or the environment has that number, which is outside that table.
    BadName { table: TableName, index: u32 },
    /// No identifier, type or block number is left.
    NoIds,
    /// Memory ran out.
    NoMemory,
    /// The target of a jump is no label that was met so far.
    BadTarget { target: BlockId },
    /// The function is met inside itself.
    FunctionCycle { function: FunctionId },
}

/// The rule that a graph breaks which spells no tree. The fault names a block with it.
#[derive(Clone, Copy, Debug, PartialEq, Eq)]
pub enum Rule {
    /// The block is no key of the graph.
    NoBlock,
    /// The block's own number isn't its key.
    KeyDiffers,
    /// A row or the terminal of the block has the id 0.
    UnsetId,
    /// The block must be opened here, but it is used already or a jump can name it.
    Twice,
    /// The block breaks to a block to which no frame leads, or its `Branch` in a list has an alternate that a jump can
    /// name.
    BreakTarget,
    /// The block continues to a block that isn't the continue block of an enclosing loop.
    ContinueTarget,
    /// The block breaks out of the frame of a case, and the break isn't implicit.
    CaseLabel,
    /// The block breaks out of the frame of a scope, and the break isn't implicit.
    ScopeBreak,
    /// The block's `Goto` of variant `Try` doesn't name the block that falling off reaches.
    GotoTry,
    /// The block's loop has a fallthrough or a continue block that a jump can name, or is a `While` whose fallthrough
    /// ends in `Unreachable`.
    LoopLive,
    /// The block's `Switch` has two defaults, or a tested case whose block is the fallthrough.
    SwitchCase,
    /// The block must give a value, but it has no rows and ends in a `Goto`, or in a `MaybeThrow` to an empty block
    /// that ends in one.
    EmptyValue,
    /// The block ends a value, but not as the parts around the value ask: a test's `Branch` has other arms, an arm's
    /// `Goto` goes to another block, or the fallthrough itself was taken as a value.
    ValueEnd,
    /// The block must give a value, but no value can end in its terminal.
    NotValue,
    /// The block's `Branch` tests another declaration than that of the value's place.
    Tested,
    /// The block begins an arm that must be silent, but a row of it isn't, or the arm is no chain that ends in a
    /// `Goto`.
    LoudArm,
    /// The block's `Branch` in an inner optional has another alternate than the `Branch` of the outer optional.
    ShortArm,
    /// The block's `MaybeThrow` has a handler that isn't the current handler.
    Handler,
    /// The block ends in `Throw` inside the block of a `Try`.
    ThrowInTry,
    /// The block leads to a block that ends in `Unreachable`.
    Dead,
    /// The block opens a scope that another block opens too.
    ScopeTwice,
    /// Falling off a part of the block's statement reaches another block in the tree than in the graph.
    FallsElsewhere,
    /// The graph spells another tree than the one that was handed in; the block is the entry.
    OtherTree,
}

/// A table of the environment or of a function.
#[derive(Clone, Copy, Debug, PartialEq, Eq)]
pub enum TableName {
    Identifiers,
    Declarations,
    Types,
    Scopes,
    Functions,
    Instructions,
    Shapes,
}

impl From<AllocError> for Fault {
    ghost from_gives = { λ _ fault. fault ≡ faults.NoMemory };

    fn from(_error: AllocError) -> Fault {
        Fault::NoMemory
    }
}

impl<T: Drop> From<AllocFailed<T>> for Fault {
    ghost from_gives = { λ _ fault. fault ≡ faults.NoMemory };

    fn from(_error: AllocFailed<T>) -> Fault {
        Fault::NoMemory
    }
}
