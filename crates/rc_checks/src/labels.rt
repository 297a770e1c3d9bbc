//! Unused labels: a `Label` that nothing names gives way to its statements, and any other label that nothing names
//! becomes implicit.
//!
//! One pass notes the targets of labeled breaks and continues. A terminal is judged after its inside, so that the
//! jumps to its label are noted by then. The statements of a `Label` are put where the `Label` is before it is
//! judged: one that gives way has nothing left to move, and one that stays takes them back. So no statement is moved
//! once for each level around it. Of other blocks only the statements after the first one that gives way are moved.
//!
//! After oxc's prune_unused_labels.

ghost use Rattle.std.specs.Prelude.{◌≡◌, ◌↔◌, ◌++◌, ◌<◌, [], drop, is_some, length, map, option_map, reverse, take};
ghost use Rattle.std.specs.Prelude.{IfErr, IfOk, IsTrue, OnOk, List as Events};
ghost use Rattle.rc_checks.specs.Labels.{IsWithoutUnusedLabels, flattened, label_rules};
ghost use Rattle.rc_checks.specs.inside.LabelPruning.{IsFrontPruned, IsLastPut, done_before, label_in, opened, put_behind};
ghost use Rattle.rc_checks.specs.inside.LabelPruning.{refilled};
ghost use Rattle.rc_checks.specs.Labels.Steps.{IsAfterLabelWalk};
ghost use Rattle.rc_checks.specs.ScopeBlocks.{scope_blocks};
ghost use Rattle.rc_tree.specs.ScopesIn.{HasScopesOnce, scopes_in};
ghost use Rattle.rc_tree.specs.Visits.{visits_of};
ghost use Rattle.rc_hir.specs.declared.fault.Fault.TheVariants as faults;
ghost use Rattle.rc_runs.specs.BodyRun.{IsBodyRun};
ghost use Rattle.rc_runs.specs.EarlyReturns.{NoEarlyReturnSet};
ghost use Rattle.rc_runs.specs.Event.{End, Event};
ghost use Rattle.rc_tree.specs.Rebuilt.{if_there, in_order, joined, rebuilt_block, rebuilt_case};
ghost use Rattle.rc_tree.specs.Rebuilt.{rebuilt_statement, rebuilt_terminal};
ghost use Rattle.rc_tree.specs.declared.statement.ReactiveStatement.TheVariants as reactive;
ghost use Rattle.rc_tree.specs.TreeNames.{TreeInTables, names_in};
ghost use Rattle.rc_tree.specs.declared.terminal.ReactiveTerminal.{out-ReactiveTerminal};
ghost use Rattle.rc_walk.specs.Statements.{added_if};

mod targets;
mod transform;

use crate::block_set::BlockSet;
use crate::labels::targets::{mark, names_label, note_target};
use rc_hir::{Environment, Fault};
use rc_names::List;
use rc_tree::{
    ReactiveBlock, ReactiveFunction, ReactiveStatement, ReactiveSwitchCase, ReactiveTerminal,
    ReactiveTerminalStatement,
};
use rc_walk::statements::{put_last, replace_at, take_off};
use std::alloc::{AllocError, Global};
pub use transform::UnusedLabels;

/// Takes out the labels that no labeled break or continue names, as the rewriting walk with `UnusedLabels` does. The
/// only fault is `NoMemory`.
///
/// The numbers of the tree, its operands and its scope blocks stay, and so do the runs of its body where no early
/// return is set. Where one is set, a break to its label counts as a return, and a break of the graph could be read as
/// one.
pub fn prune_unused_labels(
    alloc: Global,
    func: &mut ReactiveFunction,
    env: &Environment,
) -> Result<(), Fault>
    ensures ok { OnOk result (IsWithoutUnusedLabels func.old.body func.new.body) }
    ensures walked { OnOk result (IsAfterLabelWalk func.old.body func.new.body) }
    ensures header { func.new ≡ record func.old { body = func.new.body } }
    ensures kept_names { OnOk result (names_in func.new.body ≡ names_in func.old.body) }
    ensures kept_visits { OnOk result
        (visits_of env.now.functions func.new.body ≡ visits_of env.now.functions func.old.body) }
    ensures kept_scope_blocks { OnOk result (scope_blocks func.new.body ≡ scope_blocks func.old.body) }
    ensures kept_scopes { OnOk result (scopes_in func.new.body ≡ scopes_in func.old.body) }
    ensures kept_runs { NoEarlyReturnSet env.now → OnOk result ((events : Events Event) (end : End)
        → IsBodyRun func.old env.now events end ↔ IsBodyRun func.new env.now events end) }
    ensures known { OnOk result (TreeInTables func.old env.now → TreeInTables func.new env.now) }
    ensures scopes_once { OnOk result (HasScopesOnce func.old.body → HasScopesOnce func.new.body) }
    ensures only { IfErr result (λ it. it ≡ faults.NoMemory) }
{
    let mut targets = BlockSet::new(alloc);
    prune_block(&mut func.body, &mut targets)?;
    Ok(())
}

/// Prunes a block in its place. The statements in front of the first one that gives way aren't moved.
#[cycle(prune_labels)]
fn prune_block(block: &mut ReactiveBlock, targets: &mut BlockSet) -> Result<(), AllocError>
    ensures { OnOk result (rebuilt_block label_rules block.old targets.old ≡ Ok (targets.new, block.new)) }
{
    let mut statements = block.statements.take();
    let staying = prune_front(&mut statements, &mut block.statements, targets)?;
    replace_at(&mut statements, staying, &mut block.statements)?;
    prune_reversed(&mut block.statements, &mut statements, targets)?;
    block.statements.take_from(&mut statements)
}

/// Prunes statements in their place up to the first one that gives way, and returns how many stay in front of it. Its
/// own statements are those that are done.
#[cycle(prune_labels)]
fn prune_front(
    statements: &mut List<ReactiveStatement>,
    done: &mut List<ReactiveStatement>,
    targets: &mut BlockSet,
) -> Result<usize, AllocError>
    requires { done.old ≡ [] }
    ensures { IfOk result (λ staying.
        IsFrontPruned statements.old targets.old staying statements.new targets.new done.new) }
{
    for i in 0..statements.len() {
        let Some(statement) = statements.get_mut(i) else {
            return Ok(i);
        };
        let stays = prune_statement(statement, done, targets)?;
        if !stays {
            return Ok(i);
        }
    }
    Ok(statements.len())
}

/// Prunes reversed statements, from the end on, and puts their replacements at the end of those that are done.
#[cycle(prune_labels)]
fn prune_reversed(
    left: &mut List<ReactiveStatement>,
    done: &mut List<ReactiveStatement>,
    targets: &mut BlockSet,
) -> Result<(), AllocError>
    ensures put { OnOk result
        (put_behind done.old (joined (map (rebuilt_statement label_rules) (reverse left.old)) targets.old)
        ≡ Ok (targets.new, done.new)) }
    ensures none_left { OnOk result (left.new ≡ []) }
{
    while !left.is_empty() {
        prune_last(left, done, targets)?;
    }
    Ok(())
}

/// Prunes the last statement that is left and puts its replacement at the end of those that are done. It is pruned in
/// its place, so that no call around another holds a statement.
#[cycle(prune_labels)]
fn prune_last(
    left: &mut List<ReactiveStatement>,
    done: &mut List<ReactiveStatement>,
    targets: &mut BlockSet,
) -> Result<(), AllocError>
    requires { 0 < length left.old }
    ensures { OnOk result (IsLastPut left.old targets.old done.old left.new targets.new done.new) }
{
    let mut stays = false;
    let last = left.len() - 1;
    if let Some(statement) = left.get_mut(last) {
        stays = prune_statement(statement, done, targets)?;
    }
    put_last(left, stays, done)
}

/// Prunes a statement in its place and returns whether it stays. One that doesn't has its statements at the end of
/// those that are done.
#[cycle(prune_labels)]
fn prune_statement(
    statement: &mut ReactiveStatement,
    done: &mut List<ReactiveStatement>,
    targets: &mut BlockSet,
) -> Result<bool, AllocError>
    ensures put { IfOk result (λ stays. put_behind done.old (rebuilt_statement label_rules statement.old targets.old)
        ≡ Ok (targets.new, done.new ++ added_if stays statement.new)) }
    ensures alone { IfOk result (λ stays. IsTrue stays → done.new ≡ done.old) }
{
    match statement {
        ReactiveStatement::Instruction(_) => Ok(true),
        ReactiveStatement::Terminal(stmt) => prune_labeled(stmt.get_mut(), done, targets),
        ReactiveStatement::Scope(scope) => {
            prune_block(&mut scope.instructions, targets)?;
            Ok(true)
        }
        ReactiveStatement::PrunedScope(scope) => {
            prune_block(&mut scope.instructions, targets)?;
            Ok(true)
        }
    }
}

/// Prunes a terminal in its place and returns whether it stays: all do but a `Label` that nothing names.
#[cycle(prune_labels)]
fn prune_labeled(
    stmt: &mut ReactiveTerminalStatement,
    done: &mut List<ReactiveStatement>,
    targets: &mut BlockSet,
) -> Result<bool, AllocError>
    ensures put { IfOk result (λ stays.
        put_behind done.old (rebuilt_statement label_rules (reactive.Terminal stmt.old) targets.old)
        ≡ Ok (targets.new, done.new ++ added_if stays (reactive.Terminal stmt.new))) }
    ensures alone { IfOk result (λ stays. IsTrue stays → done.new ≡ done.old) }
{
    let start = done.len();
    prune_terminal(&mut stmt.terminal, done, targets)?;
    note_target(&stmt.terminal, targets)?;
    if gives_way(stmt, targets) {
        return Ok(false);
    }
    refill(&mut stmt.terminal, done, start)?;
    mark(stmt, targets);
    Ok(true)
}

/// Prunes the inside of a terminal in its place, but for a `Label`, whose statements are put at the end of those that
/// are done.
#[cycle(prune_labels)]
fn prune_terminal(
    terminal: &mut ReactiveTerminal,
    done: &mut List<ReactiveStatement>,
    targets: &mut BlockSet,
) -> Result<(), AllocError>
    ensures { OnOk result (opened done.old (rebuilt_terminal label_rules terminal.old targets.old)
        ≡ Ok (targets.new, (terminal.new, done.new))) }
{
    match terminal {
        ReactiveTerminal::Break { .. } => Ok(()),
        ReactiveTerminal::Continue { .. } => Ok(()),
        ReactiveTerminal::Return { .. } => Ok(()),
        ReactiveTerminal::Throw { .. } => Ok(()),
        ReactiveTerminal::Switch { cases, .. } => prune_cases(cases, targets),
        ReactiveTerminal::DoWhile { loop_block, .. } => prune_block(loop_block, targets),
        ReactiveTerminal::While { loop_block, .. } => prune_block(loop_block, targets),
        ReactiveTerminal::For { loop_block, .. } => prune_block(loop_block, targets),
        ReactiveTerminal::ForOf { loop_block, .. } => prune_block(loop_block, targets),
        ReactiveTerminal::ForIn { loop_block, .. } => prune_block(loop_block, targets),
        ReactiveTerminal::If {
            consequent,
            alternate,
            ..
        } => {
            prune_block(consequent, targets)?;
            prune_block_if(alternate, targets)
        }
        ReactiveTerminal::Label { block, .. } => {
            block.statements.reverse();
            prune_reversed(&mut block.statements, done, targets)
        }
        ReactiveTerminal::Try { block, handler, .. } => {
            prune_block(block, targets)?;
            prune_block(handler, targets)
        }
    }
}

/// Prunes the cases of a switch, each of them moved and none copied.
#[cycle(prune_labels)]
fn prune_cases(
    cases: &mut List<ReactiveSwitchCase>,
    targets: &mut BlockSet,
) -> Result<(), AllocError>
    ensures { OnOk result (in_order (map (rebuilt_case label_rules) cases.old) targets.old
        ≡ Ok (targets.new, cases.new)) }
{
    let mut left = cases.take();
    left.reverse();
    while let Some(mut case) = left.pop() {
        prune_block_if(&mut case.block, targets)?;
        cases.push(case)?;
    }
    Ok(())
}

/// Prunes a block that may be left out.
#[cycle(prune_labels)]
fn prune_block_if(
    block: &mut Option<ReactiveBlock>,
    targets: &mut BlockSet,
) -> Result<(), AllocError>
    ensures { OnOk result (if_there (option_map (rebuilt_block label_rules) block.old) targets.old
        ≡ Ok (targets.new, block.new)) }
{
    match block {
        Some(block) => prune_block(block, targets),
        None => Ok(()),
    }
}

/// Moves the statements that are done, from `start` on, back into a `Label`.
// Not inlined, so that a level of nested statements has no room for what this needs.
#[inline(never)]
fn refill(
    terminal: &mut ReactiveTerminal,
    done: &mut List<ReactiveStatement>,
    start: usize,
) -> Result<(), AllocError>
    ensures whole { OnOk result (terminal.new ≡ refilled done.old start (label_in terminal.old) terminal.old) }
    ensures left { OnOk result (done.new ≡ done_before done.old start (label_in terminal.old)) }
{
    match terminal {
        ReactiveTerminal::Label { block, .. } => take_back(&mut block.statements, done, start),
        _ => Ok(()),
    }
}

/// Moves the statements that are done, from `start` on, to the front of `statements`, whose own are reversed.
fn take_back(
    statements: &mut List<ReactiveStatement>,
    done: &mut List<ReactiveStatement>,
    start: usize,
) -> Result<(), AllocError>
    ensures taken { OnOk result (statements.new ≡ drop start done.old ++ reverse statements.old) }
    ensures left { OnOk result (done.new ≡ take start done.old) }
{
    take_off(statements, done, start)?;
    statements.reverse();
    Ok(())
}

/// Whether the terminal is a `Label` that nothing names.
fn gives_way(stmt: &ReactiveTerminalStatement, targets: &BlockSet) -> bool
    ensures { result ≡ is_some (flattened targets.now stmt.now.label (out-ReactiveTerminal stmt.now.terminal)) }
{
    if names_label(targets, &stmt.label) {
        return false;
    }
    match &stmt.terminal {
        ReactiveTerminal::Label { .. } => true,
        _ => false,
    }
}
