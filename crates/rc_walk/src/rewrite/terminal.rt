//! The rewriting walk of the parts of a terminal.
#![tactic(auto, using(rc_tree::proofs::FuelLemmas::rewriting, rc_tree::proofs::RewriteStatementLemmas::rewriting_statements))]

ghost use Rattle.std.specs.Prelude.{ℕ};
ghost use Rattle.rc_tree.specs.Step.{IsStep};
ghost use Rattle.rc_tree.specs.Fuel.{perhaps_hook, perhaps_part};
ghost use Rattle.rc_tree.specs.inside.EnoughFuel.{IsFueled};
ghost use Rattle.rc_tree.specs.Rewrite.{block_to};
ghost use Rattle.rc_tree.specs.Rewrite.Terminals.{case_at, cases_at, parts_at};
ghost use Rattle.rc_tree.specs.Rewrite.Values.{rewrite_value};

use crate::rewrite::statement::walk_block_to;
use crate::rewrite::value::walk_value;
use crate::rewrite::visits::visit_place_if;
use crate::transform::ReactiveFunctionTransform;
use rc_hir::Fault;
use rc_names::{Boxed, EvaluationOrder, List};
use rc_tree::{ReactiveBlock, ReactiveSwitchCase, ReactiveTerminal, ReactiveValue};
use std::alloc::Global;

/// Walks the parts of a terminal, in the order of the table; the update of a `For` comes before its body.
#[cycle(rewrite_tree)]
pub(super) fn walk_parts<T: ReactiveFunctionTransform>(
    alloc: Global,
    transform: &mut T,
    terminal: &mut ReactiveTerminal,
    state: &mut T::State,
) -> Result<(), Fault>
    ensures { (n : ℕ)
        → IsFueled (parts_at T.steps T.functions (block_to T.steps T.functions n)
        (transform.old, state.old) terminal.old)
        result ((transform.new, state.new), terminal.new) }
{
    match terminal {
        ReactiveTerminal::Break { id, .. } => transform.visit_id(*id, state),
        ReactiveTerminal::Continue { id, .. } => transform.visit_id(*id, state),
        ReactiveTerminal::Return { value, id } => {
            transform.visit_id(*id, state)?;
            transform.visit_place(*id, value, state)
        }
        ReactiveTerminal::Throw { value, id } => {
            transform.visit_id(*id, state)?;
            transform.visit_place(*id, value, state)
        }
        ReactiveTerminal::Switch { test, cases, id } => {
            transform.visit_id(*id, state)?;
            transform.visit_place(*id, test, state)?;
            walk_cases(alloc, transform, *id, cases, state)
        }
        ReactiveTerminal::DoWhile {
            loop_block,
            test,
            id,
        } => {
            transform.visit_id(*id, state)?;
            walk_block_to(alloc, transform, loop_block, state)?;
            walk_loop_value(alloc, transform, *id, test, state)
        }
        ReactiveTerminal::While {
            test,
            loop_block,
            id,
        } => {
            transform.visit_id(*id, state)?;
            walk_loop_value(alloc, transform, *id, test, state)?;
            walk_block_to(alloc, transform, loop_block, state)
        }
        ReactiveTerminal::For {
            init,
            test,
            update,
            loop_block: body,
            id,
        } => {
            transform.visit_id(*id, state)?;
            walk_loop_value(alloc, transform, *id, init, state)?;
            walk_loop_value(alloc, transform, *id, test, state)?;
            walk_value_if(alloc, transform, *id, update, state)?;
            walk_block_to(alloc, transform, body, state)
        }
        ReactiveTerminal::ForOf {
            init,
            test,
            loop_block,
            span: _,
            id,
        } => {
            transform.visit_id(*id, state)?;
            walk_loop_value(alloc, transform, *id, init, state)?;
            walk_loop_value(alloc, transform, *id, test, state)?;
            walk_block_to(alloc, transform, loop_block, state)
        }
        ReactiveTerminal::ForIn {
            init,
            loop_block,
            span: _,
            id,
        } => {
            transform.visit_id(*id, state)?;
            walk_loop_value(alloc, transform, *id, init, state)?;
            walk_block_to(alloc, transform, loop_block, state)
        }
        ReactiveTerminal::If {
            test,
            consequent,
            alternate,
            id,
        } => {
            transform.visit_id(*id, state)?;
            transform.visit_place(*id, test, state)?;
            walk_block_to(alloc, transform, consequent, state)?;
            walk_block_if(alloc, transform, alternate, state)
        }
        ReactiveTerminal::Label { block, id } => {
            transform.visit_id(*id, state)?;
            walk_block_to(alloc, transform, block, state)
        }
        ReactiveTerminal::Try {
            block,
            handler_binding,
            handler,
            id,
        } => {
            transform.visit_id(*id, state)?;
            walk_block_to(alloc, transform, block, state)?;
            visit_place_if(transform, *id, handler_binding, state)?;
            walk_block_to(alloc, transform, handler, state)
        }
    }
}

/// Walks the cases of a switch, each in its place.
#[cycle(rewrite_tree)]
fn walk_cases<T: ReactiveFunctionTransform>(
    alloc: Global,
    transform: &mut T,
    id: EvaluationOrder,
    cases: &mut List<ReactiveSwitchCase>,
    state: &mut T::State,
) -> Result<(), Fault>
    ensures { (n : ℕ)
        → IsFueled (cases_at T.steps T.functions (block_to T.steps T.functions n) id
        (transform.old, state.old) cases.old)
        result ((transform.new, state.new), cases.new) }
{
    for i in 0..cases.len() {
        let Some(case) = cases.get_mut(i) else {
            return Ok(());
        };
        walk_case(alloc, transform, id, case, state)?;
    }
    Ok(())
}

/// Walks a case of a switch: its test and its block.
#[cycle(rewrite_tree)]
fn walk_case<T: ReactiveFunctionTransform>(
    alloc: Global,
    transform: &mut T,
    id: EvaluationOrder,
    case: &mut ReactiveSwitchCase,
    state: &mut T::State,
) -> Result<(), Fault>
    ensures { (n : ℕ)
        → IsFueled (case_at T.steps T.functions (block_to T.steps T.functions n) id (transform.old, state.old) case.old)
        result ((transform.new, state.new), case.new) }
{
    visit_place_if(transform, id, &case.test, state)?;
    walk_block_if(alloc, transform, &mut case.block, state)
}

/// Walks an optional block.
#[cycle(rewrite_tree)]
fn walk_block_if<T: ReactiveFunctionTransform>(
    alloc: Global,
    transform: &mut T,
    block: &mut Option<ReactiveBlock>,
    state: &mut T::State,
) -> Result<(), Fault>
    ensures { (n : ℕ)
        → IsFueled (perhaps_part (block_to T.steps T.functions n) (transform.old, state.old) block.old) result
        ((transform.new, state.new), block.new) }
{
    match block {
        Some(block) => walk_block_to(alloc, transform, block, state),
        None => Ok(()),
    }
}

/// Walks a value of a loop.
fn walk_loop_value<T: ReactiveFunctionTransform>(
    alloc: Global,
    transform: &mut T,
    id: EvaluationOrder,
    value: &mut Boxed<ReactiveValue>,
    state: &mut T::State,
) -> Result<(), Fault>
    ensures { IsStep (rewrite_value T.steps T.functions id (transform.old, state.old) value.old) result
        ((transform.new, state.new), value.new) }
{
    walk_value(alloc, transform, id, value.get_mut(), state)
}

/// Walks an optional value of a loop.
fn walk_value_if<T: ReactiveFunctionTransform>(
    alloc: Global,
    transform: &mut T,
    id: EvaluationOrder,
    value: &mut Option<Boxed<ReactiveValue>>,
    state: &mut T::State,
) -> Result<(), Fault>
    ensures { IsStep (perhaps_hook (rewrite_value T.steps T.functions id) (transform.old, state.old) value.old) result
        ((transform.new, state.new), value.new) }
{
    match value {
        Some(value) => walk_loop_value(alloc, transform, id, value, state),
        None => Ok(()),
    }
}
