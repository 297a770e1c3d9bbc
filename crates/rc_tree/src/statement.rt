//! Statements and their blocks.

use crate::drops::take_inside;
use crate::scope::{PrunedReactiveScopeBlock, ReactiveScopeBlock};
use crate::terminal::ReactiveTerminalStatement;
use crate::value::ReactiveInstruction;
use rc_names::{Boxed, List};

/// Statements that run one after the other.
#[cycle(tree)]
pub struct ReactiveBlock {
    pub statements: List<ReactiveStatement>,
}

// A derived drop would be a nested call for each level. This one empties the blocks of a level before it drops the
// level (`drops.rt`), so a deep tree takes no stack. Only a block for which there was no memory is dropped by a nested
// call.
impl Drop for ReactiveBlock {
    #[cycle(tree)]
    fn drop(mut self) {
        while !self.statements.is_empty() {
            let mut level = self.statements.take();
            take_inside(&mut level, &mut self.statements);
            drop(level);
        }
        let ReactiveBlock { statements } = self;
        drop(statements);
    }
}

/// A statement.
#[cycle(tree)]
#[derive(Drop)]
pub enum ReactiveStatement {
    Instruction(ReactiveInstruction),
    Terminal(Boxed<ReactiveTerminalStatement>),
    Scope(ReactiveScopeBlock),
    PrunedScope(PrunedReactiveScopeBlock),
}
