//! Names that the memo record needs before a row gives them a value.

use crate::graph::Graph;
use crate::line::Line;
use crate::usage::Usage;
use crate::uses::{active_scope, recorded_operands, writes};
use rc_hir::{BasicBlock, Instruction, InstructionValue, Terminal};
use rc_names::{BlockId, DeclarationId, IdentifierId, InstructionId, Keyed, ScopeId};
use std::alloc::{AllocError, Global};

/// Each name that a `LoadLocal` loads into, with the name that the last such row loads.
type Loads = Keyed<DeclarationId, DeclarationId>;

/// Why the memo record needs a name.
#[derive(Clone, Copy, Debug, PartialEq, Eq)]
enum Need {
    /// The terminal of the block returns it.
    Returned(BlockId),
    /// The scope that the block opens reassigns it.
    Reassigned(BlockId, ScopeId),
    /// A row uses it, or a name that was loaded from it, in the range of the scope.
    Used(Usage, ScopeId),
}

/// A name is needed before a row gives it a value.
pub fn write_uninitialised(
    alloc: Global,
    line: &mut Line,
    graph: &Graph<'_>,
    name: DeclarationId,
) -> Result<(), AllocError> {
    line.number("declaration ", name.0)?;
    line.push(" is needed before a row gives it a value: ")?;
    match first_need(alloc, graph, name)? {
        Some(need) => {
            write_need(line, graph, name, need)?;
            line.push(", and ")?;
        }
        None => {}
    }
    match first_writer(alloc, graph, name)? {
        Some(row) => {
            line.push("the first row that writes it is ")?;
            graph.write_row(line, row)
        }
        None => line.push("no row writes it"),
    }
}

/// Why a name is needed.
fn write_need(
    line: &mut Line,
    graph: &Graph<'_>,
    name: DeclarationId,
    need: Need,
) -> Result<(), AllocError> {
    match need {
        Need::Returned(block) => {
            graph.write_block(line, block)?;
            line.push(" returns it")
        }
        Need::Reassigned(block, scope) => {
            graph.write_block(line, block)?;
            line.number(" opens scope ", scope.0)?;
            line.number(", which reassigns it (env.scopes[", scope.0)?;
            line.push("].reassignments)")
        }
        Need::Used(usage, scope) => {
            usage.write_user(line, graph)?;
            line.push(" uses ")?;
            graph.write_identifier(line, usage.identifier)?;
            if graph.declaration(usage.identifier) != name {
                line.push(", which is loaded from it,")?;
            }
            line.push(" where its ")?;
            graph.write_scope(line, scope)?;
            line.push(" is active")
        }
    }
}

/// The first need of a name, by the order of the blocks. Fails only when out of memory.
fn first_need(
    alloc: Global,
    graph: &Graph<'_>,
    name: DeclarationId,
) -> Result<Option<Need>, AllocError> {
    let mut loads = Keyed::new(alloc);
    for block in graph.hir.body.blocks.values() {
        if let Some(need) = row_need(alloc, graph, block, name, &mut loads)? {
            return Ok(Some(need));
        }
        if let Some(need) = terminal_need(graph, block, name) {
            return Ok(Some(need));
        }
    }
    Ok(None)
}

/// The first need of a name in the rows of a block. Fails only when out of memory.
fn row_need(
    alloc: Global,
    graph: &Graph<'_>,
    block: &BasicBlock,
    name: DeclarationId,
    loads: &mut Loads,
) -> Result<Option<Need>, AllocError> {
    for number in block.instructions.as_slice() {
        let Some(row) = graph.row(*number) else {
            continue;
        };
        if let Some((identifier, scope)) = active_use(alloc, graph, row, name, loads)? {
            let usage = Usage {
                identifier,
                row: Some(*number),
                block: block.id,
            };
            return Ok(Some(Need::Used(usage, scope)));
        }
        note_load(graph, loads, row)?;
    }
    Ok(None)
}

/// The first recorded operand of a row that stands for a name and whose scope is active there, with that scope. Fails
/// only when out of memory.
fn active_use(
    alloc: Global,
    graph: &Graph<'_>,
    row: &Instruction,
    name: DeclarationId,
    loads: &Loads,
) -> Result<Option<(IdentifierId, ScopeId)>, AllocError> {
    let operands = recorded_operands(alloc, graph, row)?;
    for place in operands.as_slice() {
        let own = graph.declaration(place.identifier);
        let stands_for = loads.get(own).copied().unwrap_or(own);
        if stands_for == name {
            if let Some(scope) = active_scope(graph, row.id, place.identifier) {
                return Ok(Some((place.identifier, scope)));
            }
        }
    }
    Ok(None)
}

/// Notes the name that a row loads into another, if it does. Fails only when out of memory.
fn note_load(graph: &Graph<'_>, loads: &mut Loads, row: &Instruction) -> Result<(), AllocError> {
    if let InstructionValue::LoadLocal { place, .. } = &row.value {
        let into = graph.declaration(row.lvalue.identifier);
        loads.insert(into, graph.declaration(place.identifier))?;
    }
    Ok(())
}

/// The need of a name in the terminal of a block.
fn terminal_need(graph: &Graph<'_>, block: &BasicBlock, name: DeclarationId) -> Option<Need> {
    match &block.terminal {
        Terminal::Return { value, .. } => if graph.declaration(value.identifier) == name {
            Some(Need::Returned(block.id))
        } else {
            None
        },
        Terminal::Scope { scope, .. } => if reassigns(graph, *scope, name) {
            Some(Need::Reassigned(block.id, *scope))
        } else {
            None
        },
        _ => None,
    }
}

/// Whether a scope reassigns a name.
fn reassigns(graph: &Graph<'_>, scope: ScopeId, name: DeclarationId) -> bool {
    let Some(found) = graph.env.scopes.get(scope) else {
        return false;
    };
    for number in found.reassignments.as_slice() {
        if graph.declaration(*number) == name {
            return true;
        }
    }
    false
}

/// The first row that writes a name, by the order of the blocks. Fails only when out of memory.
fn first_writer(
    alloc: Global,
    graph: &Graph<'_>,
    name: DeclarationId,
) -> Result<Option<InstructionId>, AllocError> {
    for block in graph.hir.body.blocks.values() {
        for number in block.instructions.as_slice() {
            if is_writer(alloc, graph, *number, name)? {
                return Ok(Some(*number));
            }
        }
    }
    Ok(None)
}

/// Whether the row with a number writes a name. Fails only when out of memory.
fn is_writer(
    alloc: Global,
    graph: &Graph<'_>,
    number: InstructionId,
    name: DeclarationId,
) -> Result<bool, AllocError> {
    match graph.row(number) {
        Some(row) => writes(alloc, graph, row, name),
        None => Ok(false),
    }
}
