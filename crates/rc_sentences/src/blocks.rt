//! A block that is there once too often or not at all, and what it holds: its key, its ids, where it leads.

use crate::arms::sharing_optional;
use crate::graph::Graph;
use crate::line::Line;
use crate::terminals::{Naming, Role, fallthrough_of, loop_block_of, namings, scope_named};
use rc_hir::Terminal;
use rc_names::{BlockId, InstructionId, List, ScopeId};
use std::alloc::{AllocError, Global};

/// How many terminals a sentence names at most that name one block.
const MOST_USES: usize = 4;

/// What a block is to the terminal of the block at a position.
#[derive(Clone, Copy, Debug, PartialEq, Eq)]
struct Use {
    statement: usize,
    role: Role,
}

/// A block is named and isn't there.
pub fn write_no_block(
    alloc: Global,
    line: &mut Line,
    graph: &Graph<'_>,
    block: BlockId,
) -> Result<(), AllocError> {
    line.number("hir.body.blocks has no block ", block.0)?;
    let uses = uses_of(alloc, graph, block, true)?;
    line.push(", which is ")?;
    write_uses(line, graph, uses.as_slice(), block)
}

/// A block has more than one place in the tree.
pub fn write_twice(
    alloc: Global,
    line: &mut Line,
    graph: &Graph<'_>,
    block: BlockId,
) -> Result<(), AllocError> {
    graph.write_block(line, block)?;
    line.push(" is in more than one place: it is ")?;
    let uses = uses_of(alloc, graph, block, false)?;
    write_uses(line, graph, uses.as_slice(), block)?;
    line.push("; each block has one place in the tree")
}

/// The terminals that name a block, with those that only jump to it or without. Fails only when out of memory.
fn uses_of(
    alloc: Global,
    graph: &Graph<'_>,
    block: BlockId,
    with_jumps: bool,
) -> Result<List<Use>, AllocError> {
    let mut uses = List::new(alloc);
    for statement in 0..graph.hir.body.blocks.len() {
        if let Some(terminal) = graph.terminal_at(statement) {
            let named = namings(alloc, terminal)?;
            put_uses(
                &mut uses,
                graph,
                statement,
                named.as_slice(),
                block,
                with_jumps,
            )?;
        }
    }
    Ok(uses)
}

/// Puts those of these names that are of the block.
fn put_uses(
    uses: &mut List<Use>,
    graph: &Graph<'_>,
    statement: usize,
    named: &[Naming],
    block: BlockId,
    with_jumps: bool,
) -> Result<(), AllocError> {
    for naming in named {
        let counts = with_jumps || !naming.role.is_jump();
        if naming.block == block && counts && !is_named_around(graph, statement, block) {
            uses.push(Use {
                statement,
                role: naming.role,
            })?;
        }
    }
    Ok(())
}

/// Whether the terminal at a position is a `Branch` that names a block of what is around it: the body or the
/// fallthrough of a loop, or the arm that an optional shares with another one.
fn is_named_around(graph: &Graph<'_>, place: usize, block: BlockId) -> bool {
    let Some(Terminal::Branch { .. }) = graph.terminal_at(place) else {
        return false;
    };
    let Some(part) = graph.parts.get(place) else {
        return false;
    };
    let Some(around) = graph.terminal_at(part.statement) else {
        return false;
    };
    match loop_block_of(around) {
        Some(body) => {
            part.role != Role::LoopBlock && (body == block || fallthrough_of(around) == Some(block))
        }
        None => sharing_optional(graph, part.statement, block).is_some(),
    }
}

/// What a block is: the entry, where it is, and what these terminals name it as.
fn write_uses(
    line: &mut Line,
    graph: &Graph<'_>,
    uses: &[Use],
    block: BlockId,
) -> Result<(), AllocError> {
    let is_entry = graph.hir.body.entry == block;
    if is_entry {
        line.push("the entry of the graph")?;
    }
    let mut is_first = !is_entry;
    for used in uses.iter().take(MOST_USES) {
        if !is_first {
            line.push(" and ")?;
        }
        is_first = false;
        graph.write_role(line, used.role, used.statement)?;
    }
    if uses.len() > MOST_USES {
        line.index(" and so on, ", uses.len())?;
        line.push(" times in all")?;
    }
    Ok(())
}

/// A block has another number than its key.
pub fn write_key(line: &mut Line, graph: &Graph<'_>, key: BlockId) -> Result<(), AllocError> {
    graph.write_block(line, key)?;
    line.number(" has the key ", key.0)?;
    if let Some(block) = graph.block(key) {
        line.number(" and the id ", block.id.0)?;
    }
    line.push(", which must be equal")
}

/// A row or the terminal of a block has the id 0.
pub fn write_unset(line: &mut Line, graph: &Graph<'_>, key: BlockId) -> Result<(), AllocError> {
    if let Some(number) = unset_row(graph, key) {
        graph.write_row(line, number)?;
        line.push(", which is in ")?;
        graph.write_block(line, key)?;
        line.push(",")?;
    } else {
        line.push("the terminal of ")?;
        graph.write_block(line, key)?;
    }
    line.push(" has the id 0, which means unset; ids are numbered from 1")
}

/// The first row of a block that has the id 0.
fn unset_row(graph: &Graph<'_>, key: BlockId) -> Option<InstructionId> {
    let block = graph.block(key)?;
    for number in block.instructions.as_slice() {
        if let Some(row) = graph.row(*number) {
            if row.id.0 == 0 {
                return Some(*number);
            }
        }
    }
    None
}

/// A block leads to one that ends in `Unreachable`.
pub fn write_dead(
    alloc: Global,
    line: &mut Line,
    graph: &Graph<'_>,
    key: BlockId,
) -> Result<(), AllocError> {
    graph.write_block(line, key)?;
    line.push(" leads to ")?;
    match unreachable_successor(alloc, graph, key)? {
        Some(naming) => {
            graph.write_block(line, naming.block)?;
            line.push(", its `")?;
            line.push(naming.role.field())?;
            line.push("`")?;
        }
        None => line.push("a block that ends in `Unreachable`")?,
    }
    line.push("; only a fallthrough to which nothing leads may end in `Unreachable`")
}

/// A block to which a terminal leads, and that ends in `Unreachable`. Fails only when out of memory.
fn unreachable_successor(
    alloc: Global,
    graph: &Graph<'_>,
    key: BlockId,
) -> Result<Option<Naming>, AllocError> {
    let Some(terminal) = graph.terminal(key) else {
        return Ok(None);
    };
    let named = namings(alloc, terminal)?;
    let mut found = None;
    for naming in named.as_slice() {
        // The fallthrough comes first, and counts where nothing else is found.
        if graph.ends_unreachable(naming.block) {
            found = Some(*naming);
        }
    }
    Ok(found)
}

/// A block opens a scope that another block opens too.
pub fn write_scope_twice(
    line: &mut Line,
    graph: &Graph<'_>,
    key: BlockId,
) -> Result<(), AllocError> {
    graph.write_block(line, key)?;
    line.push(" opens ")?;
    match graph.terminal(key).and_then(scope_named) {
        None => line.push("a scope that another block opens too"),
        Some(scope) => {
            line.number("scope ", scope.0)?;
            line.push(", which ")?;
            write_other_opener(line, graph, key, scope)?;
            line.push(" opens too")
        }
    }
}

/// The first other block that opens a scope.
fn write_other_opener(
    line: &mut Line,
    graph: &Graph<'_>,
    key: BlockId,
    scope: ScopeId,
) -> Result<(), AllocError> {
    for block in graph.hir.body.blocks.values() {
        if block.id != key && scope_named(&block.terminal) == Some(scope) {
            return graph.write_block(line, block.id);
        }
    }
    line.push("another block")
}
