//! Blocks that must give a value, and the ends of values.

use crate::graph::Graph;
use crate::line::Line;
use crate::parts::Part;
use crate::terminals::{Naming, Role, fallthrough_of, is_value, loop_block_of, namings};
use rc_hir::{InstructionValue, Place, Terminal};
use rc_names::{BlockId, InstructionId};
use std::alloc::{AllocError, Global};

/// How a value must end.
#[derive(Clone, Copy, Debug, PartialEq, Eq)]
enum Ending {
    /// By a `Goto` to what the terminal names so.
    Goes(Naming),
    /// By a `Branch`.
    Chooses,
    /// By a `Branch` to a loop's body and else to its fallthrough.
    Loops { body: BlockId, fallthrough: BlockId },
}

/// A block must give a value and has no row.
pub fn write_empty(
    alloc: Global,
    line: &mut Line,
    graph: &Graph<'_>,
    key: BlockId,
) -> Result<(), AllocError> {
    write_asked(alloc, line, graph, key)?;
    line.push(", and has no row that gives one")
}

/// A block must give a value, and none ends in its terminal.
pub fn write_no_value(
    alloc: Global,
    line: &mut Line,
    graph: &Graph<'_>,
    key: BlockId,
) -> Result<(), AllocError> {
    write_asked(alloc, line, graph, key)?;
    line.push(", and a value ends in a `Branch` or a `Goto`")
}

/// A block must give a value, and ends in a `Label`.
pub fn write_label(
    alloc: Global,
    line: &mut Line,
    graph: &Graph<'_>,
    key: BlockId,
) -> Result<(), AllocError> {
    write_asked(alloc, line, graph, key)?;
    line.push(", and no value may have a `Label` in it")
}

/// A block, and the part of a statement or of a value that it must give the value of.
fn write_asked(
    alloc: Global,
    line: &mut Line,
    graph: &Graph<'_>,
    key: BlockId,
) -> Result<(), AllocError> {
    graph.write_block(line, key)?;
    line.push(" must give a value")?;
    match asking_part(alloc, graph, key, false)? {
        Some(part) => {
            line.push(", that of ")?;
            graph.write_part(line, part)
        }
        None => Ok(()),
    }
}

/// A part that must give a value and has the block in it: the innermost around it, or one by another terminal that
/// names the block. `unmet`: the block's terminal doesn't end the value as the part asks. Fails only when out of
/// memory.
fn asking_part(
    alloc: Global,
    graph: &Graph<'_>,
    key: BlockId,
    unmet: bool,
) -> Result<Option<Part>, AllocError> {
    let innermost = graph.part_of(key);
    if asks(graph, key, innermost, unmet) {
        return Ok(innermost);
    }
    for place in 0..graph.hir.body.blocks.len() {
        let part = part_asking_at(alloc, graph, place, key, unmet)?;
        if part.is_some() {
            return Ok(part);
        }
    }
    Ok(None)
}

/// The same of the terminal at a position. Fails only when out of memory.
fn part_asking_at(
    alloc: Global,
    graph: &Graph<'_>,
    place: usize,
    key: BlockId,
    unmet: bool,
) -> Result<Option<Part>, AllocError> {
    let Some(terminal) = graph.terminal_at(place) else {
        return Ok(None);
    };
    let named = namings(alloc, terminal)?;
    for naming in named.as_slice() {
        if naming.block == key && !naming.role.is_jump() {
            let part = graph.parts.part_named(&graph.hir.body, place, *naming);
            if asks(graph, key, part, unmet) {
                return Ok(part);
            }
        }
    }
    Ok(None)
}

/// Whether a part must give a value, and, if `unmet`, the terminal of the block doesn't end it so.
fn asks(graph: &Graph<'_>, key: BlockId, part: Option<Part>, unmet: bool) -> bool {
    let Some(part) = part else { return false };
    match ending_of(graph, part) {
        Some(ending) => !unmet || !is_met(graph, key, ending),
        None => false,
    }
}

/// Whether the terminal of a block ends a value so.
fn is_met(graph: &Graph<'_>, key: BlockId, ending: Ending) -> bool {
    match (graph.terminal(key), ending) {
        (Some(Terminal::Goto { block, .. }), Ending::Goes(naming)) => *block == naming.block,
        (Some(Terminal::Branch { .. }), Ending::Chooses) => true,
        (
            Some(
                Terminal::Branch {
                    consequent,
                    alternate,
                    ..
                },
            ),
            Ending::Loops { body, fallthrough },
        ) => *consequent == body && *alternate == fallthrough,
        _ => false,
    }
}

/// How a part must end, if it must give a value.
fn ending_of(graph: &Graph<'_>, part: Part) -> Option<Ending> {
    let terminal = graph.terminal_at(part.statement)?;
    let fallthrough = fallthrough_of(terminal)?;
    if is_value(terminal) {
        return Some(match part.role {
            Role::Test => Ending::Chooses,
            _ => goes(Role::Fallthrough, fallthrough),
        });
    }
    let body = loop_block_of(terminal)?;
    match (terminal, part.role) {
        (_, Role::LoopBlock) => None,
        (Terminal::For { test, .. }, Role::Init | Role::Update) => Some(goes(Role::Test, *test)),
        (Terminal::ForOf { test, .. }, Role::Init) => Some(goes(Role::Test, *test)),
        _ => Some(Ending::Loops { body, fallthrough }),
    }
}

fn goes(role: Role, block: BlockId) -> Ending {
    Ending::Goes(Naming { role, block })
}

/// A block ends a value otherwise than the parts around the value ask.
pub fn write_value_end(
    alloc: Global,
    line: &mut Line,
    graph: &Graph<'_>,
    key: BlockId,
) -> Result<(), AllocError> {
    graph.write_block(line, key)?;
    match asking_part(alloc, graph, key, true)? {
        Some(part) => write_part_end(line, graph, key, part),
        None => line.push(" ends a value otherwise than the parts around it ask"),
    }
}

/// How a block ends the value of a part, and how that must end.
fn write_part_end(
    line: &mut Line,
    graph: &Graph<'_>,
    key: BlockId,
    part: Part,
) -> Result<(), AllocError> {
    let ending = ending_of(graph, part);
    if let Some(Ending::Goes(naming)) = ending {
        if naming.block == key {
            line.push(" is where the value of ")?;
            graph.write_part(line, part)?;
            return line.push(" must go at its end by a `Goto`, and that value goes on into it");
        }
    }
    line.push(" ends ")?;
    graph.write_part(line, part)?;
    match graph.terminal(key) {
        Some(Terminal::Goto { block, .. }) => line.number(" and goes to block ", block.0)?,
        Some(
            Terminal::Branch {
                consequent,
                alternate,
                ..
            },
        ) => {
            line.number(" and goes to block ", consequent.0)?;
            line.number(" or else to block ", alternate.0)?;
        }
        _ => {}
    }
    match ending {
        Some(ending) => write_ending(line, ending),
        None => Ok(()),
    }
}

/// How a value must end.
fn write_ending(line: &mut Line, ending: Ending) -> Result<(), AllocError> {
    match ending {
        Ending::Goes(Naming { role, block }) => {
            line.number(", where it must go by a `Goto` to block ", block.0)?;
            line.push(", the `")?;
            line.push(role.field())?;
            line.push("`")
        }
        Ending::Chooses => line.push(", where it must choose between two blocks by a `Branch`"),
        Ending::Loops { body, fallthrough } => {
            line.number(", where it must go by a `Branch` to block ", body.0)?;
            line.number(", the `loop_block`, or else to block ", fallthrough.0)?;
            line.push(", the `fallthrough`")
        }
    }
}

/// A block tests another declaration than that with which its value answers.
pub fn write_tested(line: &mut Line, graph: &Graph<'_>, key: BlockId) -> Result<(), AllocError> {
    graph.write_block(line, key)?;
    if let Some(number) = last_row(graph, key) {
        line.push(" must test what its last row, ")?;
        graph.write_row(line, number)?;
        line.push(", gives")?;
        if let Some(place) = answer_of(graph, number) {
            line.push(", ")?;
            graph.write_identifier(line, place.identifier)?;
        }
        line.push(", and")?;
    }
    match graph.terminal(key) {
        Some(Terminal::Branch { test, .. }) => {
            line.push(" tests ")?;
            graph.write_identifier(line, test.identifier)
        }
        _ => line.push(" tests another declaration"),
    }
}

/// The last row of a block.
fn last_row(graph: &Graph<'_>, key: BlockId) -> Option<InstructionId> {
    graph.block(key)?.instructions.as_slice().last().copied()
}

/// The target of a last row, or what it stores into, if that has no name.
fn answer_of(graph: &Graph<'_>, number: InstructionId) -> Option<Place> {
    let row = graph.row(number)?;
    match &row.value {
        InstructionValue::StoreLocal { lvalue, .. } => {
            if graph.is_unnamed(lvalue.place) {
                Some(lvalue.place)
            } else {
                Some(row.lvalue)
            }
        }
        _ => Some(row.lvalue),
    }
}
