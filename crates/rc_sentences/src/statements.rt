//! Statements that don't fit where they are: switches, and statements whose fallthrough isn't reached.

use crate::frames::{frames_around, jump_target, write_next};
use crate::graph::Graph;
use crate::line::Line;
use crate::parts::Part;
use crate::terminals::fallthrough_of;
use rc_hir::{Case, Terminal};
use rc_names::BlockId;
use std::alloc::{AllocError, Global};

/// A block has a switch with two defaults, or with a tested case whose block is the fallthrough.
pub fn write_switch(line: &mut Line, graph: &Graph<'_>, key: BlockId) -> Result<(), AllocError> {
    graph.write_block(line, key)?;
    match graph.terminal(key) {
        Some(
            Terminal::Switch {
                cases,
                fallthrough,
                ..
            },
        ) => write_cases(line, cases.as_slice(), *fallthrough),
        _ => Ok(()),
    }
}

/// The cases that a switch can't have.
fn write_cases(line: &mut Line, cases: &[Case], fallthrough: BlockId) -> Result<(), AllocError> {
    let mut default = None;
    for (index, case) in cases.iter().enumerate() {
        match (case.test.is_none(), default) {
            (true, Some(first)) => return write_defaults(line, first, index),
            (true, None) => default = Some(index),
            _ => {}
        }
    }
    for (index, case) in cases.iter().enumerate() {
        if case.test.is_some() && case.block == fallthrough {
            line.index(" has the tested case `cases[", index)?;
            line.number("]` at block ", fallthrough.0)?;
            return line.push(
                ", which is its `fallthrough`; a tested case needs a block of its own",
            );
        }
    }
    line.push(
        " has a switch with two defaults, or with a tested case whose block is the fallthrough",
    )
}

fn write_defaults(line: &mut Line, first: usize, second: usize) -> Result<(), AllocError> {
    line.index(" has two defaults, `cases[", first)?;
    line.index("]` and `cases[", second)?;
    line.push("]`; a switch has one at most")
}

/// A block has a statement whose fallthrough is framed by another one or ends in `Unreachable`, and falling off it
/// leads elsewhere.
pub fn write_falls_elsewhere(
    alloc: Global,
    line: &mut Line,
    graph: &Graph<'_>,
    key: BlockId,
) -> Result<(), AllocError> {
    graph.write_block(line, key)?;
    if let Some(fallthrough) = graph.terminal(key).and_then(fallthrough_of) {
        let around = graph.parts_around(alloc, key)?;
        line.number(" goes on at its `fallthrough`, block ", fallthrough.0)?;
        write_why_not(line, graph, around.as_slice(), fallthrough)?;
    }
    line.push(", and falling off its list leads to ")?;
    write_next(line, &frames_around(alloc, graph, key)?)?;
    line.push("; it needs a `fallthrough` of its own that control can reach")
}

/// Why a statement doesn't go on at its fallthrough.
fn write_why_not(
    line: &mut Line,
    graph: &Graph<'_>,
    around: &[Part],
    fallthrough: BlockId,
) -> Result<(), AllocError> {
    if graph.ends_unreachable(fallthrough) {
        return line.push(", which ends in `Unreachable`");
    }
    match jump_target(graph, around, fallthrough) {
        Some(target) => {
            line.push(", which is ")?;
            graph.write_role(line, target.role, target.statement)?;
            line.push(" too")
        }
        None => Ok(()),
    }
}
