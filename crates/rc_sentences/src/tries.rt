//! Handlers and throws.

use crate::graph::Graph;
use crate::line::Line;
use crate::parts::Part;
use crate::terminals::Role;
use rc_hir::Terminal;
use rc_names::BlockId;
use std::alloc::{AllocError, Global};

/// A block names a handler that isn't the one of the innermost try around it.
pub fn write_handler(
    alloc: Global,
    line: &mut Line,
    graph: &Graph<'_>,
    key: BlockId,
) -> Result<(), AllocError> {
    graph.write_block(line, key)?;
    if let Some(
        Terminal::MaybeThrow {
            handler: Some(handler),
            ..
        },
    ) = graph.terminal(key)
    {
        line.number(" names the handler block ", handler.0)?;
    }
    let around = graph.parts_around(alloc, key)?;
    match try_around(graph, around.as_slice()) {
        Some(part) => {
            line.push(", and the innermost try whose block it is in, ")?;
            write_try(line, graph, part, ", has the handler block ")
        }
        None => line.push(", and it is in the block of no `Try`"),
    }
}

/// A block throws inside the block of a try.
pub fn write_throw(
    alloc: Global,
    line: &mut Line,
    graph: &Graph<'_>,
    key: BlockId,
) -> Result<(), AllocError> {
    graph.write_block(line, key)?;
    line.push(" is in the block of ")?;
    let around = graph.parts_around(alloc, key)?;
    match try_around(graph, around.as_slice()) {
        Some(part) => write_try(line, graph, part, ", whose handler is block ")?,
        None => line.push("a `Try`")?,
    }
    line.push("; a `Throw` must be outside of it")
}

/// The innermost part that is the block of a try.
fn try_around(graph: &Graph<'_>, around: &[Part]) -> Option<Part> {
    for part in around {
        if let Some(Terminal::Try { .. }) = graph.terminal_at(part.statement) {
            if part.role == Role::Block {
                return Some(*part);
            }
        }
    }
    None
}

/// A try, and its handler after these words.
fn write_try(
    line: &mut Line,
    graph: &Graph<'_>,
    part: Part,
    words: &str,
) -> Result<(), AllocError> {
    graph.write_block_at(line, part.statement)?;
    match graph.terminal_at(part.statement) {
        Some(Terminal::Try { handler, .. }) => line.number(words, handler.0),
        _ => Ok(()),
    }
}
