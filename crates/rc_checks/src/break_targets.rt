//! The check that each jump names a label that is met before it.
//!
//! The terminals of the body's list are met, and those of the scope and pruned scope blocks in it, at every depth of
//! scopes. No terminal is entered, so a jump inside an `If` is not looked at.
#![tactic(auto, using(crate::proofs::BreakTargets::MetLemmas::checking))]

ghost use Rattle.std.specs.Prelude.{◌≡◌, ◌⊎◌, IfErr, OnOk};
ghost use Rattle.rc_checks.specs.BreakTargets as spec;
ghost use Rattle.rc_checks.specs.BreakTargets.{met_in, HasMetTargets, IsFirstUnmet};
ghost use Rattle.rc_checks.specs.inside.MetStatements.{met_at};
ghost use Rattle.rc_checks.specs.inside.TargetSteps.{met_terminal, target_step, terminal_step, with_label};
ghost use Rattle.rc_hir.specs.Model.{HirFunction as Hir};
ghost use Rattle.rc_names.specs.Numbers.{BlockId as Block};
ghost use Rattle.rc_runs.specs.Spelled.{Spells};
ghost use Rattle.rc_tree.specs.Step.{IsStep, each};
ghost use Rattle.rc_tree.specs.declared.terminal.ReactiveTerminal.{out-ReactiveTerminal};

use crate::block_set::BlockSet;
use rc_hir::{Environment, Fault};
use rc_names::BlockId;
use rc_tree::{
    ReactiveBlock, ReactiveFunction, ReactiveLabel, ReactiveStatement, ReactiveTerminal,
    ReactiveTerminalStatement,
};
use std::alloc::{AllocError, Global};

/// Checks that each break and continue that is met in the body names a label that is met by then, its own included.
///
/// `BadTarget` names the target of the first one that doesn't, and never comes for a tree that a graph spells.
/// `NoMemory` means out of memory. No number is looked up, so `BadName` never comes.
pub fn assert_well_formed_break_targets(
    alloc: Global,
    func: &ReactiveFunction,
    env: &Environment,
) -> Result<(), Fault>
    ensures ok { OnOk result (HasMetTargets (met_in func.now.body)) }
    ensures bad_target { (target : Block) → result ≡ Err (Fault.BadTarget target) →
        IsFirstUnmet (met_in func.now.body) target }
    ensures only { IfErr result (λ fault. (fault ≡ Fault.NoMemory)
        ⊎ ((target : Block) × (fault ≡ Fault.BadTarget target))) }
    ensures spelled { (hir : Hir) → Spells hir env.now func.now →
        IfErr result (λ fault. fault ≡ Fault.NoMemory) }
{
    let mut labels = BlockSet::new(alloc);
    check_block(&func.body, &mut labels)
}

/// Checks the terminals of a list, and of the scopes in it.
#[cycle(check_targets)]
fn check_block(block: &ReactiveBlock, labels: &mut BlockSet) -> Result<(), Fault>
    ensures { IsStep (each terminal_step (met_in block.now) labels.old) result labels.new }
{
    for statement in block.statements.as_slice() {
        check_statement(statement, labels)?;
    }
    Ok(())
}

/// Checks a terminal, or those of a scope.
#[cycle(check_targets)]
fn check_statement(statement: &ReactiveStatement, labels: &mut BlockSet) -> Result<(), Fault>
    ensures { IsStep (each terminal_step (met_at statement.now) labels.old) result labels.new }
{
    match statement {
        ReactiveStatement::Instruction(_) => Ok(()),
        ReactiveStatement::Terminal(stmt) => check_terminal(stmt.get(), labels),
        ReactiveStatement::Scope(scope) => check_block(&scope.instructions, labels),
        ReactiveStatement::PrunedScope(scope) => check_block(&scope.instructions, labels),
    }
}

/// Notes a terminal's label, and looks its target up among the labels, where it is a jump.
fn check_terminal(stmt: &ReactiveTerminalStatement, labels: &mut BlockSet) -> Result<(), Fault>
    ensures { IsStep (terminal_step (met_terminal stmt.now) labels.old) result labels.new }
{
    add_label(stmt.label, labels)?;
    check_target(target_of(&stmt.terminal), labels)
}

/// Looks a target up among the labels, where there is one.
fn check_target(target: Option<BlockId>, labels: &BlockSet) -> Result<(), Fault>
    ensures { IsStep (target_step target labels.now) result labels.now }
{
    match target {
        Some(target) => {
            if labels.contains(target) {
                Ok(())
            } else {
                Err(Fault::BadTarget { target })
            }
        }
        None => Ok(()),
    }
}

/// Notes a label, where there is one.
fn add_label(label: Option<ReactiveLabel>, labels: &mut BlockSet) -> Result<(), AllocError>
    ensures { OnOk result (labels.new ≡ with_label label labels.old) }
{
    if let Some(label) = label {
        labels.insert(label.id)?;
    }
    Ok(())
}

/// The block that a break or continue names.
fn target_of(terminal: &ReactiveTerminal) -> Option<BlockId>
    ensures { result ≡ spec.target_of (out-ReactiveTerminal terminal.now) }
{
    match terminal {
        ReactiveTerminal::Break { target, .. } => Some(*target),
        ReactiveTerminal::Continue { target, .. } => Some(*target),
        _ => None,
    }
}
