//! Rows and values. A nested value is named by its index in the table of nested values.

use rc_hir::{InstructionValue, LogicalOperator, Place};
use rc_names::{Boxed, EvaluationOrder, List, Span};

/// A value in its place: an instruction itself, and any other value by its number. An instruction is boxed, since each
/// value takes the room of the largest.
#[derive(Drop)]
pub enum FlatValue {
    Instruction(Boxed<InstructionValue>),
    Nested(u32),
}

/// A row.
#[derive(Drop)]
pub struct FlatInstruction {
    pub id: EvaluationOrder,
    pub lvalue: Option<Place>,
    pub value: FlatValue,
    pub span: Option<Span>,
}

/// A value that isn't an instruction: an expression over other values.
#[derive(Drop)]
pub enum NestedValue {
    LogicalExpression {
        operator: LogicalOperator,
        left: FlatValue,
        right: FlatValue,
    },
    ConditionalExpression {
        test: FlatValue,
        consequent: FlatValue,
        alternate: FlatValue,
    },
    SequenceExpression {
        instructions: List<FlatInstruction>,
        id: EvaluationOrder,
        value: FlatValue,
    },
    OptionalExpression {
        value: FlatValue,
        optional: bool,
    },
}
