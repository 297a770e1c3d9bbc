//! Statements.

ghost use Rattle.rc_doc.specs.Reading.{IsRead};
ghost use Rattle.rc_flat.specs.inside.Assembly.{statement_from};

use crate::assembly::Assemble;
use crate::found::Found;
use crate::statement::{FlatScopeBlock, FlatStatement};
use crate::terminal::FlatTerminalStatement;
use rc_doc::Refusal;
use rc_names::Boxed;
use rc_tree::{
    PrunedReactiveScopeBlock, ReactiveScopeBlock, ReactiveStatement, ReactiveTerminalStatement,
};
use std::alloc::Global;

fn terminal(
    alloc: Global,
    statement: FlatTerminalStatement,
    found: Found,
) -> Result<(ReactiveStatement, Found), Refusal>
    ensures { IsRead result (statement_from (FlatStatement.Terminal statement) found) }
{
    let (terminal, found) = statement.terminal.assemble(alloc, found)?;
    let label = statement.label;
    let boxed = Boxed::new(alloc, ReactiveTerminalStatement { terminal, label })?;
    Ok((ReactiveStatement::Terminal(boxed), found))
}

fn scope(block: FlatScopeBlock, found: Found) -> Result<(ReactiveStatement, Found), Refusal>
    ensures { IsRead result (statement_from (FlatStatement.Scope block) found) }
{
    let (instructions, found) = found.take_block(block.instructions)?;
    let scope = block.scope;
    Ok((
        ReactiveStatement::Scope(ReactiveScopeBlock {
            scope,
            instructions,
        }),
        found,
    ))
}

fn pruned_scope(block: FlatScopeBlock, found: Found) -> Result<(ReactiveStatement, Found), Refusal>
    ensures { IsRead result (statement_from (FlatStatement.PrunedScope block) found) }
{
    let (instructions, found) = found.take_block(block.instructions)?;
    let scope = block.scope;
    Ok((
        ReactiveStatement::PrunedScope(PrunedReactiveScopeBlock {
            scope,
            instructions,
        }),
        found,
    ))
}

impl Assemble for FlatStatement {
    type Tree = ReactiveStatement;

    ghost takes = { statement_from };

    fn assemble(self, alloc: Global, found: Found) -> Result<(ReactiveStatement, Found), Refusal> {
        match self {
            FlatStatement::Instruction(row) => {
                let (row, found) = row.assemble(alloc, found)?;
                Ok((ReactiveStatement::Instruction(row), found))
            }
            FlatStatement::Terminal(statement) => terminal(alloc, statement, found),
            FlatStatement::Scope(block) => scope(block, found),
            FlatStatement::PrunedScope(block) => pruned_scope(block, found),
        }
    }
}
