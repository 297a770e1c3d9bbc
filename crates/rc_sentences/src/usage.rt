//! Where an identifier is used.

use crate::graph::Graph;
use crate::line::Line;
use rc_names::{BlockId, IdentifierId, InstructionId};
use std::alloc::AllocError;

/// A use of an identifier, in a row that a block lists or in the block's terminal.
#[derive(Clone, Copy, Debug, PartialEq, Eq)]
pub struct Usage {
    pub identifier: IdentifierId,
    pub row: Option<InstructionId>,
    pub block: BlockId,
}

impl Usage {
    /// Writes the row and its block, or the block alone: "hir.instructions[1] (`Await`) in block 2 (`Return`, ..)".
    pub fn write_user(self, line: &mut Line, graph: &Graph<'_>) -> Result<(), AllocError> {
        if let Some(row) = self.row {
            graph.write_row(line, row)?;
            line.push(" in ")?;
        }
        graph.write_block(line, self.block)
    }
}
