//! Statements with the numbers of the blocks and values inside.

ghost use Rattle.std.specs.Prelude.{◌≡◌, ◌++◌, IfOk, OnOk};
ghost use Rattle.rc_tree.specs.declared.statement.ReactiveStatement.{out-ReactiveStatement};
ghost use Rattle.rc_flat.specs.Blocks.{blocks_in_statement, flat_statement, values_in_statement};
ghost use Rattle.rc_answer.specs.inside.Numbering.{next_of, Grows};

use crate::numbering::Numbered;
use crate::view::statement::{StatementForm, StatementView, TerminalStatementView};
use rc_flat::FlatScopeBlock;
use rc_tree::{ReactiveBlock, ReactiveStatement, ReactiveValue};
use std::alloc::{AllocError, Global};

/// The numbers of blocks and of nested values.
#[derive(Drop)]
pub struct Numbering<'a> {
    pub blocks: Numbered<'a, ReactiveBlock>,
    pub values: Numbered<'a, ReactiveValue>,
    pub alloc: Global,
}

impl<'a> Numbering<'a> {
    /// Returns a statement with the numbers of the blocks and values inside.
    pub fn statement(
        &mut self,
        statement: &'a ReactiveStatement,
    ) -> Result<StatementView<'a>, AllocError>
        ensures statement { IfOk result
            (λ view. view ≡ flat_statement (next_of self.old) (out-ReactiveStatement statement.now)) }
        ensures blocks { OnOk result
            (Grows (blocks_in_statement (out-ReactiveStatement statement.now)) self.old.blocks self.new.blocks) }
        ensures values { OnOk result
            (Grows (values_in_statement (out-ReactiveStatement statement.now)) self.old.values self.new.values) }
    {
        Ok(StatementView::new(match statement {
            ReactiveStatement::Instruction(row) => StatementForm::Instruction(
                self.values.row(row)?,
            ),
            ReactiveStatement::Terminal(statement) => {
                let statement = statement.get();
                let terminal = self.terminal(&statement.terminal)?;
                StatementForm::Terminal(TerminalStatementView::new(terminal, &statement.label))
            }
            ReactiveStatement::Scope(block) => StatementForm::Scope(FlatScopeBlock {
                scope: block.scope,
                instructions: self.blocks.number(&block.instructions)?,
            }),
            ReactiveStatement::PrunedScope(block) => StatementForm::PrunedScope(FlatScopeBlock {
                scope: block.scope,
                instructions: self.blocks.number(&block.instructions)?,
            }),
        }))
    }
}
