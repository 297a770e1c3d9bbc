//! Statements that were terminals of the graph.

use crate::kind::ReactiveTerminalTargetKind;
use crate::statement::ReactiveBlock;
use crate::value::ReactiveValue;
use rc_hir::Place;
use rc_names::{BlockId, Boxed, EvaluationOrder, List, Span};

/// The block that the jumps to a statement name.
#[derive(Clone, Copy, Debug, PartialEq, Eq)]
pub struct ReactiveLabel {
    pub id: BlockId,
    /// Whether no labeled jump names it.
    pub implicit: bool,
}

/// A terminal with its label.
#[cycle(tree)]
#[derive(Drop)]
pub struct ReactiveTerminalStatement {
    pub terminal: ReactiveTerminal,
    pub label: Option<ReactiveLabel>,
}

/// A case of a switch; it is the default if `test` is `None`.
#[cycle(tree)]
#[derive(Drop)]
pub struct ReactiveSwitchCase {
    pub test: Option<Place>,
    pub block: Option<ReactiveBlock>,
}

/// A statement that was a terminal of the graph. The values of loops are boxed, since each terminal takes the room of
/// the largest.
#[cycle(tree)]
#[derive(Drop)]
pub enum ReactiveTerminal {
    Break {
        target: BlockId,
        target_kind: ReactiveTerminalTargetKind,
        id: EvaluationOrder,
    },
    Continue {
        target: BlockId,
        target_kind: ReactiveTerminalTargetKind,
        id: EvaluationOrder,
    },
    Return {
        value: Place,
        id: EvaluationOrder,
    },
    Throw {
        value: Place,
        id: EvaluationOrder,
    },
    Switch {
        test: Place,
        cases: List<ReactiveSwitchCase>,
        id: EvaluationOrder,
    },
    DoWhile {
        loop_block: ReactiveBlock,
        test: Boxed<ReactiveValue>,
        id: EvaluationOrder,
    },
    While {
        test: Boxed<ReactiveValue>,
        loop_block: ReactiveBlock,
        id: EvaluationOrder,
    },
    For {
        init: Boxed<ReactiveValue>,
        test: Boxed<ReactiveValue>,
        update: Option<Boxed<ReactiveValue>>,
        loop_block: ReactiveBlock,
        id: EvaluationOrder,
    },
    ForOf {
        init: Boxed<ReactiveValue>,
        test: Boxed<ReactiveValue>,
        loop_block: ReactiveBlock,
        span: Option<Span>,
        id: EvaluationOrder,
    },
    ForIn {
        init: Boxed<ReactiveValue>,
        loop_block: ReactiveBlock,
        span: Option<Span>,
        id: EvaluationOrder,
    },
    If {
        test: Place,
        consequent: ReactiveBlock,
        alternate: Option<ReactiveBlock>,
        id: EvaluationOrder,
    },
    Label {
        block: ReactiveBlock,
        id: EvaluationOrder,
    },
    Try {
        block: ReactiveBlock,
        handler_binding: Option<Place>,
        handler: ReactiveBlock,
        id: EvaluationOrder,
    },
}
