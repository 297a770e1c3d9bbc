//! Operands outside the blocks of their scope.

use crate::graph::Graph;
use crate::line::Line;
use crate::usage::Usage;
use crate::uses::{operand_in, terminal_operand_in};
use rc_hir::BasicBlock;
use rc_names::{EvaluationOrder, ScopeId};
use std::alloc::{AllocError, Global};

/// An operand is outside the blocks of its scope.
pub fn write_outside(
    alloc: Global,
    line: &mut Line,
    graph: &Graph<'_>,
    id: EvaluationOrder,
    scope: ScopeId,
) -> Result<(), AllocError> {
    match usage_at(alloc, graph, id, scope)? {
        Some(usage) => {
            graph.write_identifier(line, usage.identifier)?;
            line.push(", which ")?;
            usage.write_user(line, graph)?;
            line.number(" uses at id ", id.0)?;
            line.push(", is in ")?;
        }
        None => {
            line.number("an operand that is visited at id ", id.0)?;
            line.push(" is in ")?;
        }
    }
    graph.write_scope(line, scope)?;
    line.push(" and is used outside the block of that scope")?;
    match graph.opener(scope) {
        Some(place) => {
            line.push(", which ")?;
            graph.write_block_at(line, place)?;
            line.push(" opens")
        }
        None => Ok(()),
    }
}

/// The first operand at an id that is in a scope. Fails only when out of memory.
fn usage_at(
    alloc: Global,
    graph: &Graph<'_>,
    id: EvaluationOrder,
    scope: ScopeId,
) -> Result<Option<Usage>, AllocError> {
    for block in graph.hir.body.blocks.values() {
        if let Some(usage) = usage_in(alloc, graph, block, id, scope)? {
            return Ok(Some(usage));
        }
    }
    Ok(None)
}

/// The first such operand of a block. Fails only when out of memory.
fn usage_in(
    alloc: Global,
    graph: &Graph<'_>,
    block: &BasicBlock,
    id: EvaluationOrder,
    scope: ScopeId,
) -> Result<Option<Usage>, AllocError> {
    for number in block.instructions.as_slice() {
        let Some(row) = graph.row(*number) else {
            continue;
        };
        if row.id != id {
            continue;
        }
        if let Some(identifier) = operand_in(alloc, graph, row, scope)? {
            return Ok(Some(Usage {
                identifier,
                row: Some(*number),
                block: block.id,
            }));
        }
    }
    if block.terminal.evaluation_order() != id {
        return Ok(None);
    }
    match terminal_operand_in(alloc, graph, &block.terminal, scope)? {
        Some(identifier) => Ok(Some(Usage {
            identifier,
            row: None,
            block: block.id,
        })),
        None => Ok(None),
    }
}
