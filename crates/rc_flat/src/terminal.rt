//! Statements that were terminals of the graph. A block is named by its index in the table of blocks.

use crate::value::FlatValue;
use rc_hir::Place;
use rc_names::{BlockId, EvaluationOrder, List, Span};
use rc_tree::{ReactiveLabel, ReactiveTerminalTargetKind};

/// A terminal with its label.
#[derive(Drop)]
pub struct FlatTerminalStatement {
    pub terminal: FlatTerminal,
    pub label: Option<ReactiveLabel>,
}

/// A case of a switch; it is the default if `test` is `None`.
#[derive(Clone, Copy, Debug, PartialEq, Eq)]
pub struct FlatSwitchCase {
    pub test: Option<Place>,
    pub block: Option<u32>,
}

/// A statement that was a terminal of the graph.
#[derive(Drop)]
pub enum FlatTerminal {
    Break {
        target: BlockId,
        target_kind: ReactiveTerminalTargetKind,
        id: EvaluationOrder,
    },
    Continue {
        target: BlockId,
        target_kind: ReactiveTerminalTargetKind,
        id: EvaluationOrder,
    },
    Return {
        value: Place,
        id: EvaluationOrder,
    },
    Throw {
        value: Place,
        id: EvaluationOrder,
    },
    Switch {
        test: Place,
        cases: List<FlatSwitchCase>,
        id: EvaluationOrder,
    },
    DoWhile {
        loop_block: u32,
        test: FlatValue,
        id: EvaluationOrder,
    },
    While {
        test: FlatValue,
        loop_block: u32,
        id: EvaluationOrder,
    },
    For {
        init: FlatValue,
        test: FlatValue,
        update: Option<FlatValue>,
        loop_block: u32,
        id: EvaluationOrder,
    },
    ForOf {
        init: FlatValue,
        test: FlatValue,
        loop_block: u32,
        span: Option<Span>,
        id: EvaluationOrder,
    },
    ForIn {
        init: FlatValue,
        loop_block: u32,
        span: Option<Span>,
        id: EvaluationOrder,
    },
    If {
        test: Place,
        consequent: u32,
        alternate: Option<u32>,
        id: EvaluationOrder,
    },
    Label {
        block: u32,
        id: EvaluationOrder,
    },
    Try {
        block: u32,
        handler_binding: Option<Place>,
        handler: u32,
        id: EvaluationOrder,
    },
}
