//! Emptying the blocks of a level of statements before the level is dropped.
//!
//! Each call moves the statements in the blocks of its part to the end of the list `inside`, as far as there is
//! memory. Afterwards the part is no deeper than before, and the statements that were moved are less deep than the
//! part. So dropping a tree comes to an end.

ghost use Rattle.std.specs.Prelude.{◌≤◌, ◌<◌, ℕ};
ghost use denote.Param.Weighed.{most};
ghost use Rattle.rc_tree.specs.declared.scope.PrunedReactiveScopeBlock.{size-PrunedReactiveScopeBlock};
ghost use Rattle.rc_tree.specs.declared.scope.ReactiveScopeBlock.{size-ReactiveScopeBlock};
ghost use Rattle.rc_tree.specs.declared.statement.ReactiveBlock.{size-ReactiveBlock};
ghost use Rattle.rc_tree.specs.declared.statement.ReactiveStatement.{size-ReactiveStatement};
ghost use Rattle.rc_tree.specs.declared.terminal.ReactiveSwitchCase.{size-ReactiveSwitchCase};
ghost use Rattle.rc_tree.specs.declared.terminal.ReactiveTerminal.{size-ReactiveTerminal};

use crate::scope::{PrunedReactiveScopeBlock, ReactiveScopeBlock};
use crate::statement::{ReactiveBlock, ReactiveStatement};
use crate::terminal::{ReactiveSwitchCase, ReactiveTerminal};
use rc_names::List;

/// Moves the statements in the blocks of a level's statements.
pub(crate) fn take_inside(level: &mut List<ReactiveStatement>, inside: &mut List<ReactiveStatement>)
    ensures rest { most size-ReactiveStatement level.new ≤ most size-ReactiveStatement level.old }
    ensures taken { (n : ℕ) → most size-ReactiveStatement level.old ≤ n → most size-ReactiveStatement inside.old < n
        → most size-ReactiveStatement inside.new < n }
{
    for i in 0..level.len() {
        if let Some(statement) = level.get_mut(i) {
            take_blocks(statement, inside);
        }
    }
}

/// Moves the statements in the blocks of a statement.
fn take_blocks(statement: &mut ReactiveStatement, inside: &mut List<ReactiveStatement>)
    ensures rest { size-ReactiveStatement statement.new ≤ size-ReactiveStatement statement.old }
    ensures taken { (n : ℕ) → size-ReactiveStatement statement.old ≤ n → most size-ReactiveStatement inside.old < n
        → most size-ReactiveStatement inside.new < n }
{
    match statement {
        ReactiveStatement::Instruction(_) => {}
        ReactiveStatement::Terminal(stmt) => take_parts(&mut stmt.get_mut().terminal, inside),
        ReactiveStatement::Scope(scope) => take_scope(scope, inside),
        ReactiveStatement::PrunedScope(scope) => take_pruned_scope(scope, inside),
    }
}

/// Moves the statements of a scope block.
fn take_scope(scope: &mut ReactiveScopeBlock, inside: &mut List<ReactiveStatement>)
    ensures rest { size-ReactiveScopeBlock scope.new ≤ size-ReactiveScopeBlock scope.old }
    ensures taken { (n : ℕ) → size-ReactiveScopeBlock scope.old ≤ n → most size-ReactiveStatement inside.old < n
        → most size-ReactiveStatement inside.new < n }
{
    take_block(&mut scope.instructions, inside);
}

/// Moves the statements of a pruned scope block.
fn take_pruned_scope(scope: &mut PrunedReactiveScopeBlock, inside: &mut List<ReactiveStatement>)
    ensures rest { size-PrunedReactiveScopeBlock scope.new ≤ size-PrunedReactiveScopeBlock scope.old }
    ensures taken { (n : ℕ) → size-PrunedReactiveScopeBlock scope.old ≤ n → most size-ReactiveStatement inside.old < n
        → most size-ReactiveStatement inside.new < n }
{
    take_block(&mut scope.instructions, inside);
}

/// Moves the statements in the blocks of a terminal.
fn take_parts(terminal: &mut ReactiveTerminal, inside: &mut List<ReactiveStatement>)
    ensures rest { size-ReactiveTerminal terminal.new ≤ size-ReactiveTerminal terminal.old }
    ensures taken { (n : ℕ) → size-ReactiveTerminal terminal.old ≤ n → most size-ReactiveStatement inside.old < n
        → most size-ReactiveStatement inside.new < n }
{
    match terminal {
        ReactiveTerminal::Break { .. } => {}
        ReactiveTerminal::Continue { .. } => {}
        ReactiveTerminal::Return { .. } => {}
        ReactiveTerminal::Throw { .. } => {}
        ReactiveTerminal::Switch { cases, .. } => take_cases(cases, inside),
        ReactiveTerminal::DoWhile { loop_block, .. } => take_block(loop_block, inside),
        ReactiveTerminal::While { loop_block, .. } => take_block(loop_block, inside),
        ReactiveTerminal::For { loop_block, .. } => take_block(loop_block, inside),
        ReactiveTerminal::ForOf { loop_block, .. } => take_block(loop_block, inside),
        ReactiveTerminal::ForIn { loop_block, .. } => take_block(loop_block, inside),
        ReactiveTerminal::If {
            consequent,
            alternate,
            ..
        } => {
            take_block(consequent, inside);
            if let Some(alternate) = alternate {
                take_block(alternate, inside);
            }
        }
        ReactiveTerminal::Label { block, .. } => take_block(block, inside),
        ReactiveTerminal::Try { block, handler, .. } => {
            take_block(block, inside);
            take_block(handler, inside);
        }
    }
}

/// Moves the statements in the blocks of the cases of a switch.
fn take_cases(cases: &mut List<ReactiveSwitchCase>, inside: &mut List<ReactiveStatement>)
    ensures rest { most size-ReactiveSwitchCase cases.new ≤ most size-ReactiveSwitchCase cases.old }
    ensures taken { (n : ℕ) → most size-ReactiveSwitchCase cases.old ≤ n → most size-ReactiveStatement inside.old < n
        → most size-ReactiveStatement inside.new < n }
{
    for i in 0..cases.len() {
        if let Some(case) = cases.get_mut(i) {
            take_case(case, inside);
        }
    }
}

/// Moves the statements in the block of a case.
fn take_case(case: &mut ReactiveSwitchCase, inside: &mut List<ReactiveStatement>)
    ensures rest { size-ReactiveSwitchCase case.new ≤ size-ReactiveSwitchCase case.old }
    ensures taken { (n : ℕ) → size-ReactiveSwitchCase case.old ≤ n → most size-ReactiveStatement inside.old < n
        → most size-ReactiveStatement inside.new < n }
{
    if let Some(block) = &mut case.block {
        take_block(block, inside);
    }
}

/// Moves the statements of a block.
fn take_block(block: &mut ReactiveBlock, inside: &mut List<ReactiveStatement>)
    ensures rest { size-ReactiveBlock block.new ≤ size-ReactiveBlock block.old }
    ensures taken { (n : ℕ) → size-ReactiveBlock block.old ≤ n → most size-ReactiveStatement inside.old < n
        → most size-ReactiveStatement inside.new < n }
{
    let _ = inside.take_from(&mut block.statements);
}
