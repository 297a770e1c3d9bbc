//! The scopes of the scope blocks of a tree, in the order in which the blocks end.
//!
//! One pass over the tree puts each scope at the end of one list. Statements that follow each other are a loop, so that
//! the call stack grows with the nesting alone. Rows and values have no scope block in them.
#![tactic(auto, using(crate::proofs::ScopesLemmas::holding))]

ghost use Rattle.std.specs.Prelude.{◌≡◌, ◌++◌, IfOk, OnOk};
ghost use Rattle.rc_names.specs.Numbers.{EvaluationOrder as Order};
ghost use Rattle.rc_tree.specs.Collected.{collected_cases, collected_if, collected_list, collected_statement};
ghost use Rattle.rc_tree.specs.Collected.{collected_terminal};
ghost use Rattle.rc_tree.specs.ScopesIn.{scope_parts as parts, scopes_in};

use crate::statement::{ReactiveBlock, ReactiveStatement};
use crate::terminal::{ReactiveSwitchCase, ReactiveTerminal};
use rc_names::{List, ScopeId};
use std::alloc::{AllocError, Global};

/// The scope of each scope block of the tree. The only error is out of memory.
pub fn scopes_in(alloc: Global, block: &ReactiveBlock) -> Result<List<ScopeId>, AllocError>
    ensures { IfOk result (λ scopes. scopes ≡ scopes_in block.now) }
{
    let mut found = List::new(alloc);
    add_block(&mut found, block)?;
    Ok(found)
}

/// Adds the scopes in a block.
#[cycle(scopes)]
fn add_block(found: &mut List<ScopeId>, block: &ReactiveBlock) -> Result<(), AllocError>
    ensures { OnOk result (found.new ≡ found.old ++ scopes_in block.now) }
{
    add_statements(found, block.statements.as_slice())
}

/// Adds the scopes in statements, one after the other.
#[cycle(scopes)]
fn add_statements(found: &mut List<ScopeId>, all: &[ReactiveStatement]) -> Result<(), AllocError>
    ensures { OnOk result (found.new ≡ found.old ++ collected_list parts all.now) }
{
    for statement in all {
        add_statement(found, statement)?;
    }
    Ok(())
}

/// Adds the scopes in a statement: those in a scope block, and then its own.
#[cycle(scopes)]
fn add_statement(found: &mut List<ScopeId>, statement: &ReactiveStatement) -> Result<(), AllocError>
    ensures { OnOk result (found.new ≡ found.old ++ collected_statement parts statement.now) }
{
    match statement {
        ReactiveStatement::Instruction(_) => Ok(()),
        ReactiveStatement::Terminal(statement) => add_terminal(found, &statement.get().terminal),
        ReactiveStatement::Scope(block) => {
            add_block(found, &block.instructions)?;
            found.push(block.scope)
        }
        ReactiveStatement::PrunedScope(block) => add_block(found, &block.instructions),
    }
}

/// Adds the scopes in the blocks of a terminal.
#[cycle(scopes)]
fn add_terminal(found: &mut List<ScopeId>, terminal: &ReactiveTerminal) -> Result<(), AllocError>
    ensures { OnOk result (found.new ≡ found.old ++ collected_terminal parts terminal.now) }
{
    match terminal {
        ReactiveTerminal::Break { .. }
        | ReactiveTerminal::Continue { .. }
        | ReactiveTerminal::Return { .. }
        | ReactiveTerminal::Throw { .. } => Ok(()),
        ReactiveTerminal::Switch { cases, .. } => add_cases(found, cases.as_slice()),
        ReactiveTerminal::DoWhile { loop_block, .. }
        | ReactiveTerminal::While { loop_block, .. }
        | ReactiveTerminal::For { loop_block, .. }
        | ReactiveTerminal::ForOf { loop_block, .. }
        | ReactiveTerminal::ForIn { loop_block, .. } => add_block(found, loop_block),
        ReactiveTerminal::If {
            consequent,
            alternate,
            ..
        } => {
            add_block(found, consequent)?;
            add_if_there(found, alternate)
        }
        ReactiveTerminal::Label { block, .. } => add_block(found, block),
        ReactiveTerminal::Try { block, handler, .. } => {
            add_block(found, block)?;
            add_block(found, handler)
        }
    }
}

/// Adds the scopes in the cases of a switch.
#[cycle(scopes)]
fn add_cases(found: &mut List<ScopeId>, cases: &[ReactiveSwitchCase]) -> Result<(), AllocError>
    ensures { OnOk result ((id : Order) → found.new ≡ found.old ++ collected_cases parts id cases.now) }
{
    for case in cases {
        add_if_there(found, &case.block)?;
    }
    Ok(())
}

/// Adds the scopes in a block that may be left out.
#[cycle(scopes)]
fn add_if_there(found: &mut List<ScopeId>, block: &Option<ReactiveBlock>) -> Result<(), AllocError>
    ensures { OnOk result (found.new ≡ found.old ++ collected_if parts block.now) }
{
    match block {
        Some(block) => add_block(found, block),
        None => Ok(()),
    }
}
