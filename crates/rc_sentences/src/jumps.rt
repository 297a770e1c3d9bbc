//! Jumps to blocks that no statement around them lets them name.

use crate::frames::{JumpTarget, frames_around, jump_target, write_next};
use crate::graph::Graph;
use crate::line::Line;
use crate::parts::Part;
use crate::terminals::{Role, fallthrough_of, loop_start, target_of};
use rc_hir::Terminal;
use rc_names::BlockId;
use std::alloc::{AllocError, Global};

/// How many statements a sentence names at most that are around a block.
const MOST_AROUND: usize = 3;

/// A block breaks to a block that no statement around it lets it name, or a `Branch` has an arm that a jump can name.
pub fn write_break(
    alloc: Global,
    line: &mut Line,
    graph: &Graph<'_>,
    key: BlockId,
) -> Result<(), AllocError> {
    let around = graph.parts_around(alloc, key)?;
    graph.write_block(line, key)?;
    match graph.terminal(key) {
        Some(
            Terminal::Branch {
                consequent,
                alternate,
                ..
            },
        ) => write_arm(line, graph, around.as_slice(), *consequent, *alternate),
        Some(Terminal::Goto { block, .. }) => {
            line.number(" breaks to block ", block.0)?;
            write_breakable(line, graph, around.as_slice())
        }
        _ => line.push(" breaks to a block that no statement around it lets it name"),
    }
}

/// The arm of a `Branch` in a list that a jump can name.
fn write_arm(
    line: &mut Line,
    graph: &Graph<'_>,
    around: &[Part],
    consequent: BlockId,
    alternate: BlockId,
) -> Result<(), AllocError> {
    let (name, block) = match jump_target(graph, around, alternate) {
        Some(_) => (" has the `alternate` block ", alternate),
        None => (" has the `consequent` block ", consequent),
    };
    line.number(name, block.0)?;
    if let Some(target) = jump_target(graph, around, block) {
        line.push(", which is ")?;
        graph.write_role(line, target.role, target.statement)?;
    }
    line.push(", and only a jump may lead there")
}

/// The blocks to which a break may lead from inside these parts.
fn write_breakable(line: &mut Line, graph: &Graph<'_>, around: &[Part]) -> Result<(), AllocError> {
    let mut count = 0usize;
    for part in around {
        if let Some(block) = break_block(graph, *part) {
            if count < MOST_AROUND {
                line.push(if count == 0 {
                    ", and a break may lead from there to block "
                } else {
                    ", or to block "
                })?;
                write_target(line, graph, *part, block)?;
            }
            count = count.saturating_add(1);
        }
    }
    if count > MOST_AROUND {
        line.push(", or further out")?;
    }
    if count == 0 {
        line.push(", and no statement that a break can leave is around it")?;
    }
    Ok(())
}

/// The block after the statement of a part.
fn write_target(
    line: &mut Line,
    graph: &Graph<'_>,
    part: Part,
    block: BlockId,
) -> Result<(), AllocError> {
    line.number("", block.0)?;
    line.push(", ")?;
    graph.write_role(line, Role::Fallthrough, part.statement)
}

/// The block to which a break out of the statement of a part leads.
fn break_block(graph: &Graph<'_>, part: Part) -> Option<BlockId> {
    let terminal = graph.terminal_at(part.statement)?;
    let fallthrough = fallthrough_of(terminal)?;
    match jump_target(graph, &[part], fallthrough) {
        Some(_) => Some(fallthrough),
        None => None,
    }
}

/// A block continues to a block with which no loop around it begins its turns.
pub fn write_continue(
    alloc: Global,
    line: &mut Line,
    graph: &Graph<'_>,
    key: BlockId,
) -> Result<(), AllocError> {
    graph.write_block(line, key)?;
    if let Some(block) = graph.terminal(key).and_then(target_of) {
        line.number(" continues to block ", block.0)?;
    }
    let around = graph.parts_around(alloc, key)?;
    let mut count = 0usize;
    for part in around.as_slice() {
        if let Some(start) = start_around(graph, *part) {
            if count < MOST_AROUND {
                write_start(line, graph, *part, start, count == 0)?;
            }
            count = count.saturating_add(1);
        }
    }
    if count == 0 {
        return line.push(", and no loop is around it");
    }
    Ok(())
}

/// The block with which the turns of a loop begin, where the part is its body.
fn start_around(graph: &Graph<'_>, part: Part) -> Option<BlockId> {
    let start = loop_start(graph.terminal_at(part.statement)?)?;
    if part.role == Role::LoopBlock {
        Some(start.block)
    } else {
        None
    }
}

/// The loop of a part, and the block with which its turns begin.
fn write_start(
    line: &mut Line,
    graph: &Graph<'_>,
    part: Part,
    start: BlockId,
    is_first: bool,
) -> Result<(), AllocError> {
    line.push(if is_first {
        ", and the loop around it, "
    } else {
        ", and the loop around that, "
    })?;
    graph.write_block_at(line, part.statement)?;
    line.push(if is_first {
        ", begins its turns at block "
    } else {
        ", at block "
    })?;
    line.number("", start.0)
}

/// A block jumps to the fallthrough of a scope or to the block of a case, which only the list of `owner` may do.
pub fn write_leaving(
    alloc: Global,
    line: &mut Line,
    graph: &Graph<'_>,
    key: BlockId,
    owner: &str,
) -> Result<(), AllocError> {
    let around = graph.parts_around(alloc, key)?;
    graph.write_block(line, key)?;
    let Some(block) = graph.terminal(key).and_then(target_of) else {
        return Ok(());
    };
    line.number(" jumps to block ", block.0)?;
    if let Some(target) = jump_target(graph, around.as_slice(), block) {
        write_left(line, graph, around.as_slice(), target)?;
    }
    line.push("; only the list of ")?;
    line.push(owner)?;
    line.push(" may lead there, at its end")
}

/// What the target of a jump is, and the statement inside of which the jump is.
fn write_left(
    line: &mut Line,
    graph: &Graph<'_>,
    around: &[Part],
    target: JumpTarget,
) -> Result<(), AllocError> {
    line.push(", ")?;
    graph.write_role(line, target.role, target.statement)?;
    if let Some(part) = around.first() {
        if part.statement != target.statement {
            line.push(", from inside ")?;
            graph.write_part(line, *part)?;
        }
    }
    Ok(())
}

/// A block leaves a try for another block than the one to which falling off its list leads.
pub fn write_try_exit(
    alloc: Global,
    line: &mut Line,
    graph: &Graph<'_>,
    key: BlockId,
) -> Result<(), AllocError> {
    graph.write_block(line, key)?;
    if let Some(block) = graph.terminal(key).and_then(target_of) {
        line.number(" leaves a try for block ", block.0)?;
    }
    line.push(", and must go where falling off ")?;
    match graph.part_of(key) {
        Some(part) => graph.write_part(line, part)?,
        None => line.push("its list")?,
    }
    line.push(" leads: to ")?;
    write_next(line, &frames_around(alloc, graph, key)?)
}
