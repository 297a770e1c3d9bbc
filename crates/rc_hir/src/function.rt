//! A function as a graph of basic blocks.

use crate::instruction::InstructionValue;
use crate::place::{ParamPattern, Place};
use crate::terminal::Terminal;
use rc_names::{BlockId, EvaluationOrder, InstructionId, Keyed, List, Span, Text};

/// A row: it computes a value for its target.
#[derive(Drop)]
pub struct Instruction {
    pub id: EvaluationOrder,
    pub lvalue: Place,
    pub value: InstructionValue,
    pub span: Option<Span>,
}

/// Rows that run one after the other, and the terminal that ends them.
#[derive(Drop)]
pub struct BasicBlock {
    pub id: BlockId,
    /// Indexes of rows in the function's list of instructions.
    pub instructions: List<InstructionId>,
    pub terminal: Terminal,
}

/// The blocks of a function, in graph order.
#[derive(Drop)]
pub struct Hir {
    pub entry: BlockId,
    pub blocks: Keyed<BlockId, BasicBlock>,
}

/// A function: its header, its context, and its graph.
#[derive(Drop)]
pub struct HirFunction {
    pub span: Option<Span>,
    pub id: Option<Text>,
    pub name_hint: Option<Text>,
    pub params: List<ParamPattern>,
    pub generator: bool,
    pub is_async: bool,
    pub context: List<Place>,
    pub body: Hir,
    pub instructions: List<Instruction>,
    pub directives: List<Text>,
}
