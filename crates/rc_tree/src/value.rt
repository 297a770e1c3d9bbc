//! Rows and nested expressions.

ghost use Rattle.rc_tree.specs.Opened.{IsOpened};

mod drops;

use drops::drop_levels;
use rc_hir::{InstructionValue, LogicalOperator, Place};
use rc_names::{Boxed, EvaluationOrder, List, Span};

/// A row: it computes a value for its target, if it has one.
#[cycle(value)]
#[derive(Drop)]
pub struct ReactiveInstruction {
    pub id: EvaluationOrder,
    pub lvalue: Option<Place>,
    pub value: ReactiveValue,
    pub span: Option<Span>,
}

/// The computation of a row: an instruction, or an expression over other values.
#[cycle(value)]
pub enum ReactiveValue {
    Instruction(InstructionValue),
    LogicalExpression {
        operator: LogicalOperator,
        left: Boxed<ReactiveValue>,
        right: Boxed<ReactiveValue>,
    },
    ConditionalExpression {
        test: Boxed<ReactiveValue>,
        consequent: Boxed<ReactiveValue>,
        alternate: Boxed<ReactiveValue>,
    },
    /// Rows that run one after the other, and then a value.
    SequenceExpression {
        instructions: List<ReactiveInstruction>,
        id: EvaluationOrder,
        value: Boxed<ReactiveValue>,
    },
    /// A member or a call in an optional chain; `optional` says whether it has its own `?.`.
    OptionalExpression {
        value: Boxed<ReactiveValue>,
        optional: bool,
    },
}

/// A sequence with its parts, or another value.
#[derive(Drop)]
pub enum Opened {
    Sequence {
        instructions: List<ReactiveInstruction>,
        behind: Boxed<ReactiveValue>,
    },
    Last {
        value: ReactiveValue,
    },
}

impl ReactiveValue {
    /// Returns the parts of a sequence, or another value as it is.
    pub fn open_sequence(self) -> Opened
        ensures { IsOpened self result }
    {
        match self {
            ReactiveValue::SequenceExpression {
                instructions,
                id: _id,
                value,
            } => Opened::Sequence {
                instructions,
                behind: value,
            },
            value => Opened::Last { value },
        }
    }
}

// A derived drop would be a nested call for each level. This one moves the values inside a level to the next level before
// it drops the level (`value/drops.rt`), so a deep value takes no stack.
impl Drop for ReactiveValue {
    #[cycle(value)]
    fn drop(self) {
        match self {
            ReactiveValue::Instruction(value) => drop(value),
            ReactiveValue::LogicalExpression {
                operator: _operator,
                left,
                right,
            } => {
                let mut inside = List::new(left.allocator());
                left.into_inner().drop_parts(&mut inside);
                right.into_inner().drop_parts(&mut inside);
                drop_levels(inside);
            }
            ReactiveValue::ConditionalExpression {
                test,
                consequent,
                alternate,
            } => {
                let mut inside = List::new(test.allocator());
                test.into_inner().drop_parts(&mut inside);
                consequent.into_inner().drop_parts(&mut inside);
                alternate.into_inner().drop_parts(&mut inside);
                drop_levels(inside);
            }
            ReactiveValue::SequenceExpression {
                instructions: mut inside,
                id: _id,
                value,
            } => {
                value.into_inner().drop_parts(&mut inside);
                drop_levels(inside);
            }
            ReactiveValue::OptionalExpression {
                value,
                optional: _optional,
            } => {
                let mut inside = List::new(value.allocator());
                value.into_inner().drop_parts(&mut inside);
                drop_levels(inside);
            }
        }
    }
}
