//! Loops whose fallthrough or first block a jump can name already.

use crate::frames::jump_target;
use crate::graph::Graph;
use crate::line::Line;
use crate::parts::Part;
use crate::terminals::{fallthrough_of, loop_start};
use rc_hir::Terminal;
use rc_names::BlockId;
use std::alloc::{AllocError, Global};

/// A block begins a loop that can't have its fallthrough, or the block with which its turns begin.
pub fn write_loop(
    alloc: Global,
    line: &mut Line,
    graph: &Graph<'_>,
    key: BlockId,
) -> Result<(), AllocError> {
    let around = graph.parts_around(alloc, key)?;
    graph.write_block(line, key)?;
    let Some(terminal) = graph.terminal(key) else {
        return Ok(());
    };
    if let Some(fallthrough) = fallthrough_of(terminal) {
        if jump_target(graph, around.as_slice(), fallthrough).is_some() {
            line.number(" has the `fallthrough` block ", fallthrough.0)?;
            return write_owner(line, graph, around.as_slice(), fallthrough);
        }
    }
    if let Some(start) = loop_start(terminal) {
        if jump_target(graph, around.as_slice(), start.block).is_some() {
            line.number(" begins its turns at block ", start.block.0)?;
            return write_owner(line, graph, around.as_slice(), start.block);
        }
    }
    write_dead_end(line, graph, terminal)
}

/// The statement around a loop that has the block already.
fn write_owner(
    line: &mut Line,
    graph: &Graph<'_>,
    around: &[Part],
    block: BlockId,
) -> Result<(), AllocError> {
    if let Some(target) = jump_target(graph, around, block) {
        line.push(", which is ")?;
        graph.write_role(line, target.role, target.statement)?;
        line.push(" around it")?;
    }
    line.push("; a loop needs one of its own")
}

/// The fallthrough of a while, which ends in `Unreachable`.
fn write_dead_end(
    line: &mut Line,
    graph: &Graph<'_>,
    terminal: &Terminal,
) -> Result<(), AllocError> {
    line.push(" has the `fallthrough` ")?;
    if let Some(fallthrough) = fallthrough_of(terminal) {
        graph.write_block(line, fallthrough)?;
    }
    line.push(", and control must be able to leave a `While`")
}
