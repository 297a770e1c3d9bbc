//! The terminals, each of which ends a basic block.

ghost use Rattle.std.specs.Prelude.{◌≡◌};
ghost use Rattle.rc_hir.specs.Terminal as terminals;

use crate::instruction::LogicalOperator;
use crate::place::Place;
use rc_names::{BlockId, EvaluationOrder, List, ScopeId, Span};

/// The kind of jump of a `Goto`.
#[derive(Clone, Copy, Debug, PartialEq, Eq)]
pub enum GotoVariant {
    Break,
    Continue,
    Try,
}

/// A case of a `Switch`; it is the default if `test` is `None`.
#[derive(Clone, Copy, Debug, PartialEq, Eq)]
pub struct Case {
    pub test: Option<Place>,
    pub block: BlockId,
}

/// The end of a basic block.
#[derive(Drop)]
pub enum Terminal {
    If {
        test: Place,
        consequent: BlockId,
        alternate: BlockId,
        fallthrough: BlockId,
        id: EvaluationOrder,
        span: Option<Span>,
    },
    Branch {
        test: Place,
        consequent: BlockId,
        alternate: BlockId,
        id: EvaluationOrder,
        span: Option<Span>,
    },
    Logical {
        operator: LogicalOperator,
        test: BlockId,
        fallthrough: BlockId,
        id: EvaluationOrder,
        span: Option<Span>,
    },
    Ternary {
        test: BlockId,
        fallthrough: BlockId,
        id: EvaluationOrder,
        span: Option<Span>,
    },
    Optional {
        optional: bool,
        test: BlockId,
        fallthrough: BlockId,
        id: EvaluationOrder,
        span: Option<Span>,
    },
    Sequence {
        block: BlockId,
        fallthrough: BlockId,
        id: EvaluationOrder,
        span: Option<Span>,
    },
    Throw {
        value: Place,
        id: EvaluationOrder,
        span: Option<Span>,
    },
    Return {
        value: Place,
        id: EvaluationOrder,
        span: Option<Span>,
    },
    Goto {
        block: BlockId,
        variant: GotoVariant,
        id: EvaluationOrder,
        span: Option<Span>,
    },
    Switch {
        test: Place,
        cases: List<Case>,
        fallthrough: BlockId,
        id: EvaluationOrder,
        span: Option<Span>,
    },
    DoWhile {
        loop_block: BlockId,
        test: BlockId,
        fallthrough: BlockId,
        id: EvaluationOrder,
        span: Option<Span>,
    },
    While {
        test: BlockId,
        loop_block: BlockId,
        fallthrough: BlockId,
        id: EvaluationOrder,
        span: Option<Span>,
    },
    For {
        init: BlockId,
        test: BlockId,
        update: Option<BlockId>,
        loop_block: BlockId,
        fallthrough: BlockId,
        id: EvaluationOrder,
        span: Option<Span>,
    },
    ForOf {
        init: BlockId,
        test: BlockId,
        loop_block: BlockId,
        fallthrough: BlockId,
        id: EvaluationOrder,
        span: Option<Span>,
    },
    ForIn {
        init: BlockId,
        loop_block: BlockId,
        fallthrough: BlockId,
        id: EvaluationOrder,
        span: Option<Span>,
    },
    Label {
        block: BlockId,
        fallthrough: BlockId,
        id: EvaluationOrder,
        span: Option<Span>,
    },
    Unreachable {
        id: EvaluationOrder,
        span: Option<Span>,
    },
    MaybeThrow {
        continuation: BlockId,
        handler: Option<BlockId>,
        id: EvaluationOrder,
        span: Option<Span>,
    },
    Scope {
        fallthrough: BlockId,
        block: BlockId,
        scope: ScopeId,
        id: EvaluationOrder,
        span: Option<Span>,
    },
    PrunedScope {
        fallthrough: BlockId,
        block: BlockId,
        scope: ScopeId,
        id: EvaluationOrder,
        span: Option<Span>,
    },
    Try {
        block: BlockId,
        handler_binding: Option<Place>,
        handler: BlockId,
        fallthrough: BlockId,
        id: EvaluationOrder,
        span: Option<Span>,
    },
}

impl Terminal {
    /// Returns the terminal's id, which is its place in the order of evaluation.
    pub fn evaluation_order(&self) -> EvaluationOrder
        ensures { result ≡ terminals.evaluation_order self.now }
    {
        match self {
            Terminal::If { id, .. }
            | Terminal::Branch { id, .. }
            | Terminal::Logical { id, .. }
            | Terminal::Ternary { id, .. }
            | Terminal::Optional { id, .. }
            | Terminal::Sequence { id, .. }
            | Terminal::Throw { id, .. }
            | Terminal::Return { id, .. }
            | Terminal::Goto { id, .. }
            | Terminal::Switch { id, .. }
            | Terminal::DoWhile { id, .. }
            | Terminal::While { id, .. }
            | Terminal::For { id, .. }
            | Terminal::ForOf { id, .. }
            | Terminal::ForIn { id, .. }
            | Terminal::Label { id, .. }
            | Terminal::Unreachable { id, .. }
            | Terminal::MaybeThrow { id, .. }
            | Terminal::Scope { id, .. }
            | Terminal::PrunedScope { id, .. }
            | Terminal::Try { id, .. } => *id,
        }
    }
}
