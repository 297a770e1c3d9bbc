//! Arms that must be silent, and the arm that two optionals share.

use crate::graph::Graph;
use crate::line::Line;
use crate::parts::Part;
use crate::terminals::{Role, fallthrough_of, is_value};
use rc_hir::{BasicBlock, InstructionValue, PrimitiveValue, Terminal};
use rc_names::{BlockId, InstructionId};
use std::alloc::AllocError;

/// Why an arm isn't silent.
#[derive(Clone, Copy, Debug, PartialEq, Eq)]
enum Noise {
    /// A row has an effect.
    Row(InstructionId),
    /// A block doesn't go on by a `Goto` to the arm's end.
    Block(BlockId),
}

/// A block begins an arm that has a row with an effect, or that doesn't go on by `Goto` alone.
pub fn write_loud(line: &mut Line, graph: &Graph<'_>, arm: BlockId) -> Result<(), AllocError> {
    graph.write_block(line, arm)?;
    line.push(" begins ")?;
    let part = arm_of(graph, arm);
    match part {
        Some(part) => graph.write_part(line, part)?,
        None => line.push("an arm")?,
    }
    let (end, noise) = noise_of(graph, arm, part);
    match noise {
        Some(Noise::Row(number)) => {
            line.push(", where no row may have an effect, and ")?;
            graph.write_row(line, number)?;
            line.push(" has one")
        }
        Some(Noise::Block(block)) => write_elsewhere(line, graph, block, end),
        None => line.push(
            ", where no row may have an effect, and which must go on by `Goto` alone",
        ),
    }
}

/// The arm of a logical or an optional that the block begins.
fn arm_of(graph: &Graph<'_>, arm: BlockId) -> Option<Part> {
    for place in 0..graph.hir.body.blocks.len() {
        if let Some(part) = arm_at(graph, place, arm) {
            return Some(part);
        }
    }
    None
}

/// The same, where the terminal at a position is the `Branch` after the test.
fn arm_at(graph: &Graph<'_>, place: usize, arm: BlockId) -> Option<Part> {
    let part = graph.parts.get(place)?;
    if part.role != Role::Test {
        return None;
    }
    let Terminal::Branch {
        consequent,
        alternate,
        ..
    } = graph.terminal_at(place)?
    else {
        return None;
    };
    let role = match graph.terminal_at(part.statement)? {
        Terminal::Logical { .. } if *consequent == arm => Role::Consequent,
        Terminal::Optional { .. } if *alternate == arm => Role::Alternate,
        _ => return None,
    };
    Some(Part {
        statement: part.statement,
        role,
        first: arm,
    })
}

/// The block to which an arm must lead, and why it isn't silent. Where optionals share the arm, the outermost is tried
/// first.
fn noise_of(
    graph: &Graph<'_>,
    arm: BlockId,
    part: Option<Part>,
) -> (Option<BlockId>, Option<Noise>) {
    let Some(part) = part else {
        return (None, noise_in(graph, arm, None));
    };
    let outer = arm_end(graph, arm, part.statement);
    match noise_in(graph, arm, outer) {
        Some(noise) => (outer, Some(noise)),
        None => {
            let own = graph.terminal_at(part.statement).and_then(fallthrough_of);
            (own, noise_in(graph, arm, own))
        }
    }
}

/// A block of an arm that goes on elsewhere.
fn write_elsewhere(
    line: &mut Line,
    graph: &Graph<'_>,
    block: BlockId,
    end: Option<BlockId>,
) -> Result<(), AllocError> {
    match end {
        Some(end) => line.number(", which must lead to block ", end.0)?,
        None => line.push(", which must lead past the value")?,
    }
    line.push(" by a `Goto`, and ")?;
    graph.write_block(line, block)?;
    match graph.terminal(block) {
        Some(Terminal::Goto { block, .. }) => line.number(" goes to block ", block.0),
        _ => line.push(" doesn't"),
    }
}

/// The first row with an effect in an arm, or the block that doesn't go on by a `Goto` to its end.
fn noise_in(graph: &Graph<'_>, arm: BlockId, end: Option<BlockId>) -> Option<Noise> {
    let mut at = arm;
    for _ in 0..graph.hir.body.blocks.len() {
        let block = graph.block(at)?;
        if let Some(number) = loud_row(graph, block) {
            return Some(Noise::Row(number));
        }
        match &block.terminal {
            Terminal::MaybeThrow { continuation, .. } => at = *continuation,
            Terminal::Goto { block, .. } if end == Some(*block) => return None,
            _ => return Some(Noise::Block(at)),
        }
    }
    None
}

/// The first row of a block that has an effect.
fn loud_row(graph: &Graph<'_>, block: &BasicBlock) -> Option<InstructionId> {
    for number in block.instructions.as_slice() {
        if let Some(row) = graph.row(*number) {
            if !is_silent(graph, &row.value) {
                return Some(*number);
            }
        }
    }
    None
}

/// Whether a value has no effect, as the builder decides it.
fn is_silent(graph: &Graph<'_>, value: &InstructionValue) -> bool {
    match value {
        InstructionValue::LoadLocal { .. }
        | InstructionValue::StartMemoize { .. }
        | InstructionValue::FinishMemoize { .. } => true,
        InstructionValue::StoreLocal { lvalue, .. } => graph.is_unnamed(lvalue.place),
        InstructionValue::Primitive { value, .. } => matches!(value, PrimitiveValue::Undefined),
        _ => false,
    }
}

/// The block to which a silent arm of the value at a position must lead: past that value, or past the outermost of the
/// optionals that share the arm.
fn arm_end(graph: &Graph<'_>, arm: BlockId, place: usize) -> Option<BlockId> {
    let mut owner = place;
    for _ in 0..graph.hir.body.blocks.len() {
        match sharing_optional(graph, owner, arm) {
            Some(outer) => owner = outer,
            None => break,
        }
    }
    fallthrough_of(graph.terminal_at(owner)?)
}

/// The optional whose test the value at a position is, if they share the arm as their alternate.
pub fn sharing_optional(graph: &Graph<'_>, place: usize, arm: BlockId) -> Option<usize> {
    let part = graph.parts.get(place)?;
    let Terminal::Optional { .. } = graph.terminal_at(part.statement)? else {
        return None;
    };
    let end = fallthrough_of(graph.terminal_at(place)?)?;
    match graph.terminal(end)? {
        Terminal::Branch { alternate, .. } if *alternate == arm && part.role == Role::Test => {
            Some(part.statement)
        }
        _ => None,
    }
}

/// A block ends the test of an optional with another alternate than the optional around it has.
pub fn write_short(line: &mut Line, graph: &Graph<'_>, key: BlockId) -> Result<(), AllocError> {
    graph.write_block(line, key)?;
    if let Some(Terminal::Branch { alternate, .. }) = graph.terminal(key) {
        line.number(" has the `alternate` block ", alternate.0)?;
    }
    match outer_branch(graph, key) {
        Some(outer) => {
            line.push(", and the test of the optional around it, which ")?;
            graph.write_block(line, outer)?;
            line.push(" ends, has ")?;
            match graph.terminal(outer) {
                Some(Terminal::Branch { alternate, .. }) => line.number("block ", alternate.0)?,
                _ => line.push("another one")?,
            }
        }
        None => line.push(", and the test of the optional around it has another one")?,
    }
    line.push("; an optional that answers the test of another one shares its `alternate`")
}

/// The block of the `Branch` after the optional whose test the block ends.
fn outer_branch(graph: &Graph<'_>, key: BlockId) -> Option<BlockId> {
    let part = graph.part_of(key)?;
    let inner = graph.terminal_at(part.statement)?;
    if !is_value(inner) {
        return None;
    }
    let end = fallthrough_of(inner)?;
    match graph.terminal(end)? {
        Terminal::Branch { .. } => Some(end),
        _ => None,
    }
}
