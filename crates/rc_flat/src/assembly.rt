//! The function of two tables, which are read from the last entry to the first, and each entry from its end to its
//! start. Each number is that of the part that waits longest, which it takes; the part of an entry then waits itself.
//! `specs/inside/Assembly.antt` has the same words.

mod statements;
mod terminals;
mod values;

ghost use Rattle.std.specs.Prelude.{◌≡◌, [], length};
ghost use Rattle.rc_doc.specs.Reading.{IsRead};
ghost use Rattle.rc_flat.specs.inside.Assembly as spec;
ghost use Rattle.rc_flat.specs.inside.Assembly.{from_last, if_there, Taking, through};

use crate::found::Found;
use crate::function::FlatFunction;
use crate::queue::Queue;
use crate::statement::FlatStatement;
use crate::value::NestedValue;
use rc_doc::Refusal;
use rc_names::List;
use rc_tree::{ReactiveBlock, ReactiveFunction};
use std::alloc::Global;

/// A part of an entry, which becomes a part of the tree.
trait Assemble: Drop {
    /// The part of the tree.
    type Tree: Drop;

    /// The part of the tree, and the parts that wait after those that it takes.
    ghost takes: { Self → Taking Self.Tree };

    /// Puts the parts that it mentions into their places, from its end to its start, and returns it with the parts
    /// that still wait. Refuses with `NotDoc` where a number isn't that of the part that has waited longest, and with
    /// `Memory` when out of memory.
    fn assemble(self, alloc: Global, found: Found) -> Result<(Self::Tree, Found), Refusal>
        ensures { IsRead result (takes self found) };
}

impl<P: Assemble> Assemble for Option<P> {
    type Tree = Option<P::Tree>;

    ghost takes = { if_there P.takes };

    fn assemble(self, alloc: Global, found: Found) -> Result<(Option<P::Tree>, Found), Refusal> {
        match self {
            Some(part) => {
                let (part, found) = part.assemble(alloc, found)?;
                Ok((Some(part), found))
            }
            None => Ok((None, found)),
        }
    }
}

impl<P: Assemble> Assemble for List<P> {
    type Tree = List<P::Tree>;

    ghost takes = { from_last P.takes };

    fn assemble(self, alloc: Global, found: Found) -> Result<(List<P::Tree>, Found), Refusal> {
        let mut left = self;
        let mut found = found;
        let mut later = List::with_capacity(alloc, left.len())?;
        while let Some(last) = left.pop() {
            let (part, rest) = last.assemble(alloc, found)?;
            later.push(part)?;
            found = rest;
        }
        later.reverse();
        Ok((later, found))
    }
}

/// Puts a nested value into those that wait.
fn wait_value(alloc: Global, entry: NestedValue, found: Found) -> Result<Found, Refusal>
    ensures { IsRead result (spec.wait_value entry found) }
{
    let (value, mut found) = entry.assemble(alloc, found)?;
    found.values.put(value)?;
    Ok(found)
}

/// Puts all nested values into those that wait, the last one first.
fn wait_values(alloc: Global, entries: List<NestedValue>, found: Found) -> Result<Found, Refusal>
    ensures { IsRead result (through spec.wait_value entries found) }
{
    let mut left = entries;
    let mut found = found;
    while let Some(entry) = left.pop() {
        found = wait_value(alloc, entry, found)?;
    }
    Ok(found)
}

/// Puts a block into those that wait.
fn wait_block(alloc: Global, entry: List<FlatStatement>, found: Found) -> Result<Found, Refusal>
    ensures { IsRead result (spec.wait_block entry found) }
{
    let (statements, mut found) = entry.assemble(alloc, found)?;
    found.blocks.put(ReactiveBlock { statements })?;
    Ok(found)
}

/// Puts all blocks into those that wait, the last one first.
fn wait_blocks(
    alloc: Global,
    entries: List<List<FlatStatement>>,
    found: Found,
) -> Result<Found, Refusal>
    ensures { IsRead result (through spec.wait_block entries found) }
{
    let mut left = entries;
    let mut found = found;
    while let Some(entry) = left.pop() {
        found = wait_block(alloc, entry, found)?;
    }
    Ok(found)
}

/// Returns the body of two tables.
fn body(
    alloc: Global,
    blocks: List<List<FlatStatement>>,
    values: List<NestedValue>,
) -> Result<ReactiveBlock, Refusal>
    ensures { IsRead result (spec.body_of blocks values) }
{
    let found = Found {
        blocks: Queue::new(alloc),
        values: Queue::new(alloc),
        next_block: blocks.len() as u64,
        next_value: values.len() as u64,
    };
    let found = wait_values(alloc, values, found)?;
    wait_blocks(alloc, blocks, found)?.into_body()
}

/// Returns the function of two tables. Refuses with `NotDoc` if they are those of none, and with `Memory` when out of
/// memory.
#[tactic(auto, unfolding(crate::specs::inside::Assembly::assembled))]
pub(crate) fn assembled(alloc: Global, func: FlatFunction) -> Result<ReactiveFunction, Refusal>
    ensures { IsRead result (spec.assembled func) }
{
    let FlatFunction {
        span,
        id,
        name_hint,
        params,
        generator,
        is_async,
        blocks,
        values,
        directives,
    } = func;
    let body = body(alloc, blocks, values)?;
    Ok(ReactiveFunction {
        span,
        id,
        name_hint,
        params,
        generator,
        is_async,
        body,
        directives,
    })
}
