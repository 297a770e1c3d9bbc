//! Reactive scopes.

use crate::pattern::PropertyLiteral;
use rc_names::{BlockId, EvaluationOrder, IdentifierId, List, ScopeId, Span};

/// The ids from `start` up to `end`.
#[derive(Clone, Copy, Debug, PartialEq, Eq)]
pub struct MutableRange {
    pub start: EvaluationOrder,
    pub end: EvaluationOrder,
}

/// A step from a value to one of its properties.
#[derive(Drop)]
pub struct DependencyPathEntry {
    pub property: PropertyLiteral,
    pub optional: bool,
}

/// A value whose changes make a scope recompute, given as a path from an identifier.
#[derive(Drop)]
pub struct ReactiveScopeDependency {
    pub identifier: IdentifierId,
    pub reactive: bool,
    pub path: List<DependencyPathEntry>,
    pub span: Option<Span>,
}

/// A value that a scope declares.
#[derive(Clone, Copy, Debug, PartialEq, Eq)]
pub struct ReactiveScopeDeclaration {
    pub identifier: IdentifierId,
    pub scope: ScopeId,
}

/// A declaration under its key.
#[derive(Clone, Copy, Debug, PartialEq, Eq)]
pub struct DeclarationEntry {
    pub key: IdentifierId,
    pub value: ReactiveScopeDeclaration,
}

/// The sentinel variable that stands for a `Return` inside a scope.
#[derive(Clone, Copy, Debug, PartialEq, Eq)]
pub struct ReactiveScopeEarlyReturn {
    pub value: IdentifierId,
    pub span: Option<Span>,
    pub label: BlockId,
}

/// A part of a function whose values may be kept between renders.
#[derive(Drop)]
pub struct ReactiveScope {
    pub range: MutableRange,
    pub dependencies: List<ReactiveScopeDependency>,
    pub declarations: List<DeclarationEntry>,
    pub reassignments: List<IdentifierId>,
    pub early_return_value: Option<ReactiveScopeEarlyReturn>,
    pub merged: List<ScopeId>,
}
