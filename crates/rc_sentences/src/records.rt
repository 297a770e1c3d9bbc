//! Scopes that the memo record needs and that no row records.

use crate::graph::Graph;
use crate::line::Line;
use crate::terminals::Role;
use crate::usage::Usage;
use crate::uses::operand_in;
use rc_hir::{BasicBlock, Instruction, Terminal};
use rc_names::{BlockId, FixedList, ScopeId};
use rc_ranges::is_in_range;
use std::alloc::{AllocError, Global};

/// A scope is needed, and no row has a recorded operand or a target in it.
pub fn write_no_record(
    alloc: Global,
    line: &mut Line,
    graph: &Graph<'_>,
    scope: ScopeId,
) -> Result<(), AllocError> {
    graph.write_scope(line, scope)?;
    line.push(" is needed")?;
    if let Some(opener) = graph.opener(scope) {
        line.push(", since ")?;
        write_reason(alloc, line, graph, opener)?;
    }
    line.push(", and no row at an id of the range has a recorded operand or a target in it")?;
    match unrecorded_use(alloc, graph, scope)? {
        Some(usage) => {
            line.push("; ")?;
            usage.write_user(line, graph)?;
            line.push(" uses ")?;
            graph.write_identifier(line, usage.identifier)?;
            line.push(" of the scope, but that operand isn't recorded")
        }
        None => Ok(()),
    }
}

/// What needs the scope that the block at a position opens: a return or a reassignment inside it.
fn write_reason(
    alloc: Global,
    line: &mut Line,
    graph: &Graph<'_>,
    opener: usize,
) -> Result<(), AllocError> {
    match needing_block(alloc, graph, opener)? {
        Some(block) => {
            graph.write_block(line, block)?;
            match graph.terminal(block) {
                Some(Terminal::Return { .. }) => line.push(" returns inside ")?,
                _ => line.push(" opens a scope with reassignments in ")?,
            }
        }
        None => line.push("a name is returned or reassigned in ")?,
    }
    graph.write_block_at(line, opener)?;
    line.push(", which opens it")
}

/// The first block, in the scope block that the one at a position opens, that returns or opens a scope with
/// reassignments. Fails only when out of memory.
fn needing_block(
    alloc: Global,
    graph: &Graph<'_>,
    opener: usize,
) -> Result<Option<BlockId>, AllocError> {
    let mut inside = FixedList::new(alloc, false, graph.hir.body.blocks.len())?;
    for place in graph.parts.order() {
        if is_inside(graph, &inside, *place, opener) {
            inside.set(*place, true);
        }
    }
    for (place, block) in graph.hir.body.blocks.values().iter().enumerate() {
        let is_around = place == opener || inside.get(place) == Some(true);
        if is_around && needs_scopes(graph, block) {
            return Ok(Some(block.id));
        }
    }
    Ok(None)
}

/// Whether the block at a position is inside the scope block, given which of the blocks around it are.
fn is_inside(graph: &Graph<'_>, inside: &FixedList<bool>, place: usize, opener: usize) -> bool {
    match graph.parts.get(place) {
        Some(part) => {
            part.statement == opener && part.role == Role::Block
                || inside.get(part.statement) == Some(true)
        }
        None => false,
    }
}

/// Whether a block needs a record of the scopes around it.
fn needs_scopes(graph: &Graph<'_>, block: &BasicBlock) -> bool {
    match &block.terminal {
        Terminal::Return { .. } => true,
        Terminal::Scope { scope, .. } => match graph.env.scopes.get(*scope) {
            Some(found) => !found.reassignments.is_empty(),
            None => false,
        },
        _ => false,
    }
}

/// The first operand that is in a scope, of a row in its range. Fails only when out of memory.
fn unrecorded_use(
    alloc: Global,
    graph: &Graph<'_>,
    scope: ScopeId,
) -> Result<Option<Usage>, AllocError> {
    for block in graph.hir.body.blocks.values() {
        if let Some(usage) = use_in(alloc, graph, block, scope)? {
            return Ok(Some(usage));
        }
    }
    Ok(None)
}

/// The first such operand in a block. Fails only when out of memory.
fn use_in(
    alloc: Global,
    graph: &Graph<'_>,
    block: &BasicBlock,
    scope: ScopeId,
) -> Result<Option<Usage>, AllocError> {
    for number in block.instructions.as_slice() {
        let Some(row) = graph.row(*number) else {
            continue;
        };
        if !is_active(graph, row, scope) {
            continue;
        }
        if let Some(identifier) = operand_in(alloc, graph, row, scope)? {
            return Ok(Some(Usage {
                identifier,
                row: Some(*number),
                block: block.id,
            }));
        }
    }
    Ok(None)
}

/// Whether a row is in the range of a scope.
fn is_active(graph: &Graph<'_>, row: &Instruction, scope: ScopeId) -> bool {
    match graph.env.scopes.get(scope) {
        Some(found) => is_in_range(row.id, found.range),
        None => false,
    }
}
