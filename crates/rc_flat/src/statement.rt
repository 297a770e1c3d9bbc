//! Statements. A block is named by its index in the table of blocks.

use crate::terminal::FlatTerminalStatement;
use crate::value::FlatInstruction;
use rc_names::ScopeId;

/// A statement.
#[derive(Drop)]
pub enum FlatStatement {
    Instruction(FlatInstruction),
    Terminal(FlatTerminalStatement),
    Scope(FlatScopeBlock),
    PrunedScope(FlatScopeBlock),
}

/// The block of a reactive scope.
#[derive(Clone, Copy, Debug, PartialEq, Eq)]
pub struct FlatScopeBlock {
    pub scope: ScopeId,
    pub instructions: u32,
}
