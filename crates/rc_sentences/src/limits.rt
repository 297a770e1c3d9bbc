//! Early returns that are there already, and numbers for which there is no room.

use crate::graph::Graph;
use crate::line::Line;
use rc_hir::Terminal;
use rc_names::{BlockId, ScopeId};
use std::alloc::AllocError;

/// A scope has an early return already.
pub fn write_early_return(
    line: &mut Line,
    graph: &Graph<'_>,
    scope: ScopeId,
) -> Result<(), AllocError> {
    line.number("env.scopes[", scope.0)?;
    line.push("].early_return_value is set already")?;
    if let Some(found) = graph.env.scopes.get(scope) {
        if let Some(early) = found.early_return_value {
            line.number(", to identifier ", early.value.0)?;
            line.number(" with the label block ", early.label.0)?;
        }
    }
    line.push("; only the passes set it, so a document leaves it out")
}

/// A key isn't below the next block's number, or new numbers have no room.
pub fn write_no_numbers(line: &mut Line, graph: &Graph<'_>) -> Result<(), AllocError> {
    if let Some(key) = key_too_large(graph) {
        graph.write_block(line, key)?;
        return line.number(" isn't below `next_block`, which is ", graph.env.next_block);
    }
    line.index(
        "an early return in each of the graph's `Scope` terminals, ",
        scope_count(graph),
    )?;
    line.push(" in all, may take a block, five identifiers and five types, and numbers end at ")?;
    line.number("", u32::MAX)?;
    line.number(": `next_block` is ", graph.env.next_block)?;
    line.index(
        ", and the lengths of env.identifiers and env.types are ",
        graph.env.identifiers.len(),
    )?;
    line.index(" and ", graph.env.types.len())
}

/// The first key that isn't below the next block's number.
fn key_too_large(graph: &Graph<'_>) -> Option<BlockId> {
    for key in graph.hir.body.blocks.keys() {
        if key.0 >= graph.env.next_block {
            return Some(*key);
        }
    }
    None
}

/// The number of scopes that the graph opens and keeps.
fn scope_count(graph: &Graph<'_>) -> usize {
    let blocks = graph.hir.body.blocks.values();
    blocks
        .iter()
        .filter(|block| opens_scope(&block.terminal))
        .count()
}

fn opens_scope(terminal: &Terminal) -> bool {
    matches!(terminal, Terminal::Scope { .. })
}
