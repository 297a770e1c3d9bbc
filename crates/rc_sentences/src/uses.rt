//! The identifiers that a row or a terminal uses.

use crate::graph::Graph;
use rc_hir::{
    Fault, Instruction, InstructionValue, InstructionValue as Kind, Place, Places, Terminal,
    borrowed_lvalues, borrowed_operands, borrowed_terminal_operands,
};
use rc_names::{DeclarationId, EvaluationOrder, IdentifierId, ScopeId};
use rc_ranges::is_in_range;
use std::alloc::{AllocError, Global};

/// The places that were read. The only other fault than want of memory is a number outside its table, and the operands
/// of a graph with such a number aren't read.
fn read(places: Result<Places<'_>, Fault>) -> Result<Places<'_>, AllocError> {
    match places {
        Ok(places) => Ok(places),
        Err(_) => Err(AllocError),
    }
}

/// The first operand of a row that is in a scope.
pub fn operand_in(
    alloc: Global,
    graph: &Graph<'_>,
    row: &Instruction,
    scope: ScopeId,
) -> Result<Option<IdentifierId>, AllocError> {
    let places = read(borrowed_operands(alloc, &row.value, graph.env))?;
    Ok(first_in(graph, places.as_slice(), scope))
}

/// The first operand of a terminal that is in a scope.
pub fn terminal_operand_in(
    alloc: Global,
    graph: &Graph<'_>,
    terminal: &Terminal,
    scope: ScopeId,
) -> Result<Option<IdentifierId>, AllocError> {
    let places = read(borrowed_terminal_operands(alloc, terminal))?;
    Ok(first_in(graph, places.as_slice(), scope))
}

/// The first of these places whose identifier is in a scope.
fn first_in(graph: &Graph<'_>, places: &[Place], scope: ScopeId) -> Option<IdentifierId> {
    for place in places {
        if graph.scope_of(place.identifier) == Some(scope) {
            return Some(place.identifier);
        }
    }
    None
}

/// Whether a row writes a declaration.
pub fn writes(
    alloc: Global,
    graph: &Graph<'_>,
    row: &Instruction,
    name: DeclarationId,
) -> Result<bool, AllocError> {
    if graph.declaration(row.lvalue.identifier) == name {
        return Ok(true);
    }
    let places = read(borrowed_lvalues(alloc, &row.value))?;
    for place in places.as_slice() {
        if graph.declaration(place.identifier) == name {
            return Ok(true);
        }
    }
    Ok(false)
}

/// The operands of a row that the memo record takes.
pub fn recorded_operands<'p>(
    alloc: Global,
    graph: &'p Graph<'_>,
    row: &'p Instruction,
) -> Result<Places<'p>, AllocError> {
    match taken_of(graph, &row.value) {
        Taken::All => read(borrowed_operands(alloc, &row.value, graph.env)),
        Taken::One(place) => Ok(Places::one(place)),
        Taken::None => Ok(Places::none()),
    }
}

/// Which operands of a row are recorded.
#[derive(Clone, Copy)]
enum Taken<'p> {
    All,
    One(&'p Place),
    None,
}

/// Which operands of a value are recorded, by the table of the memo record.
fn taken_of<'p>(graph: &Graph<'_>, value: &'p InstructionValue) -> Taken<'p> {
    match value {
        Kind::NextPropertyOf { .. }
        | Kind::StartMemoize { .. }
        | Kind::FinishMemoize { .. }
        | Kind::ComputedDelete { .. }
        | Kind::PropertyDelete { .. }
        | Kind::TemplateLiteral { .. }
        | Kind::BinaryExpression { .. }
        | Kind::UnaryExpression { .. } => if graph.memoizes_cheap() {
            Taken::All
        } else {
            Taken::None
        },
        Kind::DeclareContext { .. } | Kind::DeclareLocal { .. } => Taken::None,
        Kind::StoreContext { value, .. } => Taken::One(value),
        Kind::ComputedLoad { object, .. } => Taken::One(object),
        Kind::ComputedStore { value, .. } => Taken::One(value),
        Kind::TaggedTemplateExpression { tag: callee, .. }
        | Kind::CallExpression { callee, .. }
        | Kind::MethodCall {
            property: callee,
            ..
        } => if graph.env.has_no_alias_signature(callee.identifier) {
            Taken::None
        } else {
            Taken::All
        },
        _ => Taken::All,
    }
}

/// The scope of an identifier, where it is active at an id.
pub fn active_scope(
    graph: &Graph<'_>,
    id: EvaluationOrder,
    identifier: IdentifierId,
) -> Option<ScopeId> {
    let scope = graph.scope_of(identifier)?;
    let found = graph.env.scopes.get(scope)?;
    if is_in_range(id, found.range) {
        Some(scope)
    } else {
        None
    }
}
