//! The control-flow graph, its environment, and the faults of every pass.
#![tactic(auto)]

mod copies;
mod environment;
mod fault;
mod function;
mod held_places;
mod instruction;
mod names;
mod operands;
mod pattern;
mod place;
mod places;
mod scope;
mod successors;
mod terminal;
mod types;

pub use environment::{Config, Environment, Identifier, IdentifierName};
pub use fault::{Fault, Rule, TableName};
pub use function::{BasicBlock, Hir, HirFunction, Instruction};
pub use instruction::{
    InstructionValue, JsxAttribute, JsxTag, LogicalOperator, LoweredFunction, NonLocalBinding,
    PrimitiveValue,
};
pub use names::check_names;
pub use operands::{
    borrowed_lvalues, borrowed_operands, borrowed_pattern_operands, borrowed_terminal_operands,
    each_instruction_value_lvalue, each_instruction_value_operand, each_pattern_operand,
    each_terminal_operand,
};
pub use pattern::{
    ArrayElement, ArrayPatternElement, InstructionKind, LValue, LValuePattern, ObjectProperty,
    ObjectPropertyKey, ObjectPropertyOrSpread, Pattern, PropertyLiteral,
};
pub use place::{Effect, ParamPattern, Place, PlaceOrSpread, SpreadPattern};
pub use places::Places;
pub use scope::{
    DeclarationEntry, DependencyPathEntry, MutableRange, ReactiveScope, ReactiveScopeDeclaration,
    ReactiveScopeDependency, ReactiveScopeEarlyReturn,
};
pub use successors::Successors;
pub use terminal::{Case, GotoVariant, Terminal};
pub use types::{HirType, Shape, ShapeRow};
