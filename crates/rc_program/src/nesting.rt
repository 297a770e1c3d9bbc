//! How deep the blocks of a graph nest, for the sentence on a stack that is too small. No contract speaks of it.

use rc_hir::{Case, Hir, Terminal};
use rc_names::{BitRow, BlockId, List};
use std::alloc::{AllocError, Global};

/// Blocks that were met, and those of them whose terminals wait to be looked at, each with its level.
#[derive(Drop)]
struct Levels<'g> {
    graph: &'g Hir,
    met: BitRow,
    waiting: List<(usize, usize)>,
    deepest: usize,
}

/// Returns how many levels deep the blocks of a graph nest at most. The fallthrough of a terminal is as deep as the
/// terminal, and another block to which it leads is a level deeper, where there is a fallthrough. Fails only when out
/// of memory.
pub fn nesting(alloc: Global, graph: &Hir) -> Result<usize, AllocError> {
    let mut levels = Levels {
        graph,
        met: BitRow::new(alloc, graph.blocks.len())?,
        waiting: List::new(alloc),
        deepest: 0,
    };
    levels.meet(graph.entry, 0)?;
    // Each block waits once.
    for _ in 0..graph.blocks.len() {
        let Some((place, level)) = levels.waiting.pop() else {
            break;
        };
        levels.look_at(place, level)?;
    }
    Ok(levels.deepest)
}

impl<'g> Levels<'g> {
    /// Meets a block at a level, which waits where it wasn't met before.
    fn meet(&mut self, block: BlockId, level: usize) -> Result<(), AllocError> {
        let Some(place) = self.graph.blocks.position(block) else {
            return Ok(());
        };
        if let Some(false) = self.met.get(place) {
            self.met.set(place, true);
            self.deepest = self.deepest.max(level);
            self.waiting.push((place, level))?;
        }
        Ok(())
    }

    /// Meets the blocks to which the terminal of a block leads.
    fn look_at(&mut self, place: usize, level: usize) -> Result<(), AllocError> {
        let Some((_, block)) = self.graph.blocks.at(place) else {
            return Ok(());
        };
        let mut inside = level;
        if let Some(fallthrough) = fallthrough(&block.terminal) {
            self.meet(fallthrough, level)?;
            inside = level.saturating_add(1);
        }
        let successors = block.terminal.successors();
        self.meet_cases(successors.cases, inside)?;
        self.meet_if(successors.first, inside)?;
        self.meet_if(successors.second, inside)
    }

    fn meet_cases(&mut self, cases: &[Case], level: usize) -> Result<(), AllocError> {
        for case in cases {
            self.meet(case.block, level)?;
        }
        Ok(())
    }

    fn meet_if(&mut self, block: Option<BlockId>, level: usize) -> Result<(), AllocError> {
        match block {
            Some(block) => self.meet(block, level),
            None => Ok(()),
        }
    }
}

/// Where control is after the statement of a terminal.
fn fallthrough(terminal: &Terminal) -> Option<BlockId> {
    match terminal {
        Terminal::If { fallthrough, .. }
        | Terminal::Switch { fallthrough, .. }
        | Terminal::DoWhile { fallthrough, .. }
        | Terminal::While { fallthrough, .. }
        | Terminal::For { fallthrough, .. }
        | Terminal::ForOf { fallthrough, .. }
        | Terminal::ForIn { fallthrough, .. }
        | Terminal::Label { fallthrough, .. }
        | Terminal::Try { fallthrough, .. }
        | Terminal::Scope { fallthrough, .. }
        | Terminal::PrunedScope { fallthrough, .. }
        | Terminal::Logical { fallthrough, .. }
        | Terminal::Ternary { fallthrough, .. }
        | Terminal::Optional { fallthrough, .. }
        | Terminal::Sequence { fallthrough, .. } => Some(*fallthrough),
        Terminal::Branch { .. }
        | Terminal::Throw { .. }
        | Terminal::Return { .. }
        | Terminal::Goto { .. }
        | Terminal::Unreachable { .. }
        | Terminal::MaybeThrow { .. } => None,
    }
}
