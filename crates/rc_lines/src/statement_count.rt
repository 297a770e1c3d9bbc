//! The number of statements of a tree, at every depth.
//!
//! Statements that follow each other are a loop, so that the call stack grows with the nesting alone.
#![tactic(auto, using(crate::proofs::StatementCount::counting))]

ghost use Rattle.std.specs.Prelude.{◌≡◌, ◌+◌, IfOk, OnOk};
ghost use Rattle.rc_names.specs.Numbers.{EvaluationOrder as Order};
ghost use Rattle.rc_tree.specs.Collected.{collected, collected_cases, collected_if, collected_list};
ghost use Rattle.rc_tree.specs.Collected.{collected_statement, collected_terminal};
ghost use Rattle.rc_lines.specs.Counts.{statement_count, statement_parts as parts};

use rc_tree::{
    ReactiveBlock, ReactiveFunction, ReactiveStatement, ReactiveSwitchCase, ReactiveTerminal,
};
use std::alloc::AllocError;

/// The number of statements of a function. Fails only when out of memory: no tree has 2^64 statements.
pub fn statement_count(func: &ReactiveFunction) -> Result<usize, AllocError>
    ensures { IfOk result (λ count. count ≡ statement_count func.now) }
{
    let mut count = 0;
    add_block(&mut count, &func.body)?;
    Ok(count)
}

/// Adds one.
fn add_one(count: &mut usize) -> Result<(), AllocError>
    ensures { OnOk result (count.new ≡ count.old + 1) }
{
    *count = count.checked_add(1).ok_or(AllocError)?;
    Ok(())
}

/// Adds the statements of a block.
#[cycle(count)]
fn add_block(count: &mut usize, block: &ReactiveBlock) -> Result<(), AllocError>
    ensures { OnOk result (count.new ≡ count.old + collected parts block.now) }
{
    add_statements(count, block.statements.as_slice())
}

/// Adds statements with those in them, one after the other.
#[cycle(count)]
fn add_statements(count: &mut usize, all: &[ReactiveStatement]) -> Result<(), AllocError>
    ensures { OnOk result (count.new ≡ count.old + collected_list parts all.now) }
{
    for statement in all {
        add_one(count)?;
        add_inside(count, statement)?;
    }
    Ok(())
}

/// Adds the statements in a statement.
#[cycle(count)]
fn add_inside(count: &mut usize, statement: &ReactiveStatement) -> Result<(), AllocError>
    ensures { OnOk result (count.new + 1 ≡ count.old + collected_statement parts statement.now) }
{
    match statement {
        ReactiveStatement::Instruction(_) => Ok(()),
        ReactiveStatement::Terminal(statement) => add_terminal(count, &statement.get().terminal),
        ReactiveStatement::Scope(block) => add_block(count, &block.instructions),
        ReactiveStatement::PrunedScope(block) => add_block(count, &block.instructions),
    }
}

/// Adds the statements in the blocks of a terminal.
#[cycle(count)]
fn add_terminal(count: &mut usize, terminal: &ReactiveTerminal) -> Result<(), AllocError>
    ensures { OnOk result (count.new ≡ count.old + collected_terminal parts terminal.now) }
{
    match terminal {
        ReactiveTerminal::Break { .. }
        | ReactiveTerminal::Continue { .. }
        | ReactiveTerminal::Return { .. }
        | ReactiveTerminal::Throw { .. } => Ok(()),
        ReactiveTerminal::Switch { cases, .. } => add_cases(count, cases.as_slice()),
        ReactiveTerminal::DoWhile { loop_block, .. }
        | ReactiveTerminal::While { loop_block, .. }
        | ReactiveTerminal::For { loop_block, .. }
        | ReactiveTerminal::ForOf { loop_block, .. }
        | ReactiveTerminal::ForIn { loop_block, .. } => add_block(count, loop_block),
        ReactiveTerminal::If {
            consequent,
            alternate,
            ..
        } => {
            add_block(count, consequent)?;
            add_if_there(count, alternate)
        }
        ReactiveTerminal::Label { block, .. } => add_block(count, block),
        ReactiveTerminal::Try { block, handler, .. } => {
            add_block(count, block)?;
            add_block(count, handler)
        }
    }
}

/// Adds the statements in the cases of a switch.
#[cycle(count)]
fn add_cases(count: &mut usize, cases: &[ReactiveSwitchCase]) -> Result<(), AllocError>
    ensures { OnOk result ((id : Order) → count.new ≡ count.old + collected_cases parts id cases.now) }
{
    for case in cases {
        add_if_there(count, &case.block)?;
    }
    Ok(())
}

/// Adds the statements of a block that may be left out.
#[cycle(count)]
fn add_if_there(count: &mut usize, block: &Option<ReactiveBlock>) -> Result<(), AllocError>
    ensures { OnOk result (count.new ≡ count.old + collected_if parts block.now) }
{
    match block {
        Some(block) => add_block(count, block),
        None => Ok(()),
    }
}
