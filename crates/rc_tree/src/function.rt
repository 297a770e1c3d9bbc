//! A function as a tree.
//!
//! After oxc's react_compiler_hir/reactive.rs, as the other types of the tree are.

use crate::statement::ReactiveBlock;
use rc_hir::ParamPattern;
use rc_names::{List, Span, Text};

/// A function: the header of its graph, and its body.
#[derive(Drop)]
pub struct ReactiveFunction {
    pub span: Option<Span>,
    pub id: Option<Text>,
    pub name_hint: Option<Text>,
    pub params: List<ParamPattern>,
    pub generator: bool,
    pub is_async: bool,
    pub body: ReactiveBlock,
    pub directives: List<Text>,
}
