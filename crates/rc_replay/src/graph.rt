//! Replay of a run of a graph.
//!
//! The table begins with a position for each block, in graph order, and one for all numbers that are no key. They are
//! followed by those of the blocks' rows and terminals, laid out from the last one of a block to its first, so that
//! each is told where it goes on.

ghost use Rattle.std.specs.Prelude.{◌≡◌, ◌↔◌, IsTrue, IfErr, IfOk, OnOk};
ghost use Rattle.std.specs.List.{list_any};
ghost use Rattle.rc_hir.specs.Successors as successors;
ghost use Rattle.rc_hir.specs.declared.fault.Fault.TheVariants.{NoMemory};
ghost use Rattle.rc_replay.specs.GivenRun.{events_of, end_of};
ghost use Rattle.rc_replay.specs.inside.GraphTable as spec;
ghost use Rattle.rc_replay.specs.inside.Positions.{position_of, table_of};
ghost use Rattle.rc_runs.specs.GraphRun.{IsGraphRun};

use crate::given::{End, GivenRun};
use crate::paths::follows;
use crate::positions::{Choice, Position};
use crate::silent::is_silent;
use rc_hir::{BasicBlock, Case, Environment, Fault, HirFunction, Instruction, Terminal};
use rc_names::{BlockId, List, Name};
use std::alloc::{AllocError, Global};

/// Returns whether the run is one of the graph: whether its events are those of rows and edges on a way from the
/// entry, and the way ends as the run does.
///
/// A run with an open end may stop anywhere. A block number that is no key, or whose block has a row that is none of
/// the function's, leads no further. The only fault is `NoMemory`.
pub fn replay_graph(
    alloc: Global,
    hir: &HirFunction,
    env: &Environment,
    run: &GivenRun,
) -> Result<bool, Fault>
    ensures found { IfOk result (λ found.
        IsTrue found ↔ IsGraphRun hir.now env.now (events_of run.now) (end_of run.now)) }
    ensures no_memory { IfErr result (λ fault. fault ≡ NoMemory) }
{
    let table = graph_table(alloc, hir, env)?;
    let start = number_of(hir, hir.body.entry);
    Ok(follows(alloc, &table, start, run)?)
}

/// Returns the table of the graph's positions. Fails only when out of memory.
fn graph_table<'g>(
    alloc: Global,
    hir: &'g HirFunction,
    env: &Environment,
) -> Result<List<Position<'g>>, AllocError>
    ensures { IfOk result (λ table. spec.IsGraphTable hir.now env.now (table_of table)) }
{
    let mut table = List::new(alloc);
    let mut rows = List::new(alloc);
    for block in hir.body.blocks.values() {
        table.push(add_block(alloc, hir, env, block, &mut rows)?)?;
    }
    table.push(Position::Stops)?;
    table.append(rows)?;
    Ok(table)
}

/// Adds the positions of a block's terminal and rows, and returns that of the block. Fails only when out of memory.
fn add_block<'g>(
    alloc: Global,
    hir: &'g HirFunction,
    env: &Environment,
    block: &'g BasicBlock,
    rows: &mut List<Position<'g>>,
) -> Result<Position<'g>, AllocError>
    ensures grown { OnOk result (spec.IsGrown (spec.row_start hir.now) rows.old rows.new) }
    ensures entry { IfOk result (λ entry. spec.IsLaidOut hir.now env.now rows.new (position_of entry) block.now) }
{
    let start = hir.body.blocks.values().len() + 1;
    let numbers = block.instructions.as_slice();
    let mut next = start + rows.as_slice().len();
    rows.push(terminal_position(alloc, hir, &block.terminal)?)?;
    for i in (0..numbers.len()).rev() {
        let Some(row) = hir.instructions.get(numbers[i].index()) else {
            return Ok(Position::Stops);
        };
        let here = start + rows.as_slice().len();
        rows.push(row_position(env, row, next))?;
        next = here;
    }
    Ok(Position::Passes(next))
}

/// Returns the position in front of a row.
fn row_position<'g>(env: &Environment, row: &'g Instruction, next: usize) -> Position<'g>
    ensures { position_of result ≡ spec.row_position env.now row.now next }
{
    if is_silent(env, row.id, &row.value) {
        Position::Passes(next)
    } else {
        Position::Computes(&row.value, next)
    }
}

/// Returns the position in front of a terminal. Fails only when out of memory.
fn terminal_position<'g>(
    alloc: Global,
    hir: &HirFunction,
    terminal: &Terminal,
) -> Result<Position<'g>, AllocError>
    ensures { IfOk result (λ position. position_of position ≡ spec.terminal_position hir.now terminal.now) }
{
    match terminal {
        Terminal::If {
            consequent,
            alternate,
            ..
        }
        | Terminal::Branch {
            consequent,
            alternate,
            ..
        } => Ok(Position::Tests {
            holds: number_of(hir, *consequent),
            fails: number_of(hir, *alternate),
        }),
        Terminal::Switch {
            cases,
            fallthrough,
            ..
        } => {
            let choices = all_choices(alloc, hir, cases.as_slice(), *fallthrough)?;
            Ok(Position::Chooses(choices))
        }
        Terminal::MaybeThrow {
            continuation,
            handler,
            ..
        } => Ok(attempt(hir, *continuation, *handler)),
        Terminal::Return { value, .. } => Ok(Position::Ends(End::Returned(*value))),
        Terminal::Throw { value, .. } => Ok(Position::Ends(End::Thrown(*value))),
        Terminal::Unreachable { .. } => Ok(Position::Stops),
        Terminal::Logical { test: block, .. }
        | Terminal::Ternary { test: block, .. }
        | Terminal::Optional { test: block, .. }
        | Terminal::Sequence { block, .. }
        | Terminal::Goto { block, .. }
        | Terminal::DoWhile {
            loop_block: block,
            ..
        }
        | Terminal::While { test: block, .. }
        | Terminal::For { init: block, .. }
        | Terminal::ForOf { init: block, .. }
        | Terminal::ForIn { init: block, .. }
        | Terminal::Label { block, .. }
        | Terminal::Scope { block, .. }
        | Terminal::PrunedScope { block, .. }
        | Terminal::Try { block, .. } => Ok(Position::Passes(number_of(hir, *block))),
    }
}

/// Returns the choices of a switch: those of its cases, and the way past all of them, if none is the default. Fails
/// only when out of memory.
fn all_choices(
    alloc: Global,
    hir: &HirFunction,
    cases: &[Case],
    fallthrough: BlockId,
) -> Result<List<Choice>, AllocError>
    ensures { IfOk result (λ choices. choices ≡ spec.all_choices hir.now cases.now fallthrough) }
{
    let mut choices = List::new(alloc);
    for case in cases {
        choices.push((case.test, number_of(hir, case.block)))?;
    }
    if has_default(cases) {
        return Ok(choices);
    }
    choices.push((None, number_of(hir, fallthrough)))?;
    Ok(choices)
}

/// Returns whether one of the cases is the default.
fn has_default(cases: &[Case]) -> bool
    ensures { result ≡ list_any successors.is_default cases.now }
{
    cases.iter().any(|case| case.test.is_none())
}

/// Returns the position after a row that may throw. Without a handler a throw leaves the function, which no run shows.
fn attempt<'g>(hir: &HirFunction, continuation: BlockId, handler: Option<BlockId>) -> Position<'g>
    ensures { position_of result ≡ spec.form_position hir.now (successors.MayThrow continuation handler) }
{
    match handler {
        Some(handler) => Position::Attempts {
            next: number_of(hir, continuation),
            handler: number_of(hir, handler),
        },
        None => Position::Passes(number_of(hir, continuation)),
    }
}

/// Returns the number of a block's position: its index among the blocks, or their count where the number is no key.
fn number_of(hir: &HirFunction, key: BlockId) -> usize
    ensures { result ≡ spec.number_of hir.now key }
{
    match hir.body.blocks.position(key) {
        Some(index) => index,
        None => hir.body.blocks.len(),
    }
}
