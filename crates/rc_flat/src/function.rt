//! A function as two tables.

use crate::statement::FlatStatement;
use crate::value::NestedValue;
use rc_hir::ParamPattern;
use rc_names::{List, Span, Text};

/// A function: its header, its blocks, of which the first is the body, and its nested values.
#[derive(Drop)]
pub struct FlatFunction {
    pub span: Option<Span>,
    pub id: Option<Text>,
    pub name_hint: Option<Text>,
    pub params: List<ParamPattern>,
    pub generator: bool,
    pub is_async: bool,
    pub blocks: List<List<FlatStatement>>,
    pub values: List<NestedValue>,
    pub directives: List<Text>,
}
