//! The part of a statement or of a value that each block of a graph is in.

use crate::terminals::{Naming, Role, is_value, namings};
use rc_hir::{Hir, Terminal};
use rc_names::{BitRow, BlockId, FixedList, List};
use std::alloc::{AllocError, Global};

/// A part of a statement or of a value: the blocks from the one that a terminal names until control leaves them.
#[derive(Clone, Copy, Debug, PartialEq, Eq)]
pub struct Part {
    /// The position of the block with the terminal.
    pub statement: usize,
    /// What the part's first block is to the terminal.
    pub role: Role,
    /// The part's first block.
    pub first: BlockId,
}

/// The innermost part that each block is in, by the block's position in the graph; none for a block of the function's
/// own list, and for one that isn't reached.
#[derive(Drop)]
pub struct Parts {
    parts: FixedList<Option<Part>>,
    /// The positions of the blocks that are reached, each after that of the statement around it.
    order: List<usize>,
}

impl Parts {
    /// The parts of a graph. A block that two terminals name is in the part that is found first. Fails only when out of
    /// memory.
    pub fn new(alloc: Global, graph: &Hir) -> Result<Parts, AllocError> {
        let count = graph.blocks.len();
        let mut walk = Walk {
            graph,
            met: BitRow::new(alloc, count)?,
            parts: Parts {
                parts: FixedList::new(alloc, None, count)?,
                order: List::new(alloc),
            },
            waiting: List::new(alloc),
        };
        walk.meet(graph.entry, None)?;
        // Each block waits once.
        for _ in 0..count {
            let Some(place) = walk.waiting.pop() else {
                break;
            };
            walk.look_at(alloc, place)?;
        }
        Ok(walk.parts)
    }

    /// The innermost part that the block at a position is in.
    pub fn get(&self, place: usize) -> Option<Part> {
        match self.parts.get(place) {
            Some(part) => part,
            None => None,
        }
    }

    /// The part of a block that the terminal at a position names, by what the block is to that terminal.
    pub fn part_named(&self, graph: &Hir, place: usize, naming: Naming) -> Option<Part> {
        let (_, block) = graph.blocks.at(place)?;
        match (&block.terminal, naming.role) {
            (_, Role::Fallthrough) | (_, Role::Continuation) => self.get(place),
            (Terminal::Branch { .. }, _) => arm_part(graph, self.get(place), naming),
            _ => Some(Part {
                statement: place,
                role: naming.role,
                first: naming.block,
            }),
        }
    }

    /// The positions of the blocks that are reached, each after that of the statement around it.
    pub fn order(&self) -> &[usize] {
        self.order.as_slice()
    }
}

/// The blocks that were met, and those of them whose terminals wait to be looked at.
#[derive(Drop)]
struct Walk<'g> {
    graph: &'g Hir,
    met: BitRow,
    parts: Parts,
    waiting: List<usize>,
}

impl<'g> Walk<'g> {
    /// Meets a block in a part; it waits where it wasn't met before.
    fn meet(&mut self, block: BlockId, part: Option<Part>) -> Result<(), AllocError> {
        let Some(place) = self.graph.blocks.position(block) else {
            return Ok(());
        };
        if let Some(false) = self.met.get(place) {
            self.met.set(place, true);
            self.parts.parts.set(place, part);
            self.parts.order.push(place)?;
            self.waiting.push(place)?;
        }
        Ok(())
    }

    /// Meets the blocks that the terminal of a block names, but for those to which it only jumps.
    fn look_at(&mut self, alloc: Global, place: usize) -> Result<(), AllocError> {
        let Some((_, block)) = self.graph.blocks.at(place) else {
            return Ok(());
        };
        let named = namings(alloc, &block.terminal)?;
        for naming in named.as_slice() {
            if !naming.role.is_jump() {
                let part = self.parts.part_named(self.graph, place, *naming);
                self.meet(naming.block, part)?;
            }
        }
        Ok(())
    }
}

/// The part that an arm of a `Branch` is in, given the part around the `Branch`: after a value's test it is an arm of
/// the value, and otherwise it belongs to the same list.
fn arm_part(graph: &Hir, around: Option<Part>, naming: Naming) -> Option<Part> {
    let part = around?;
    let (_, block) = graph.blocks.at(part.statement)?;
    if part.role == Role::Test && is_value(&block.terminal) {
        return Some(Part {
            statement: part.statement,
            role: naming.role,
            first: naming.block,
        });
    }
    around
}
