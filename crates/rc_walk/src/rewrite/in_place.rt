//! The replacement of a statement: the `transform_` hook gives it, and it is put in the statement's place.
#![tactic(auto, using(rc_tree::proofs::FuelLemmas::rewriting, rc_tree::proofs::RewriteStatementLemmas::rewriting_statements))]

ghost use Rattle.std.specs.Prelude.{◌≡◌, ◌++◌, false, true, IfOk, IsTrue};
ghost use Rattle.rc_tree.specs.Step.{IsStep};
ghost use Rattle.rc_tree.specs.Rewrite.{in_place};
ghost use Rattle.rc_tree.specs.inside.RewriteInPlace.{answer_at, put_at};
ghost use Rattle.rc_walk.specs.Statements.{added_if};
ghost use Rattle.rc_walk.specs.inside.FrontWalk.{with_replacement, without_answer};

use crate::transform::ReactiveFunctionTransform;
use rc_hir::Fault;
use rc_names::List;
use rc_tree::{ReactiveStatement, Transformed};
use std::alloc::AllocError;

/// Asks the `transform_` hook for a statement's replacement, and puts it in the statement's place if it is one
/// statement, and else at the end of those that are done. Returns whether it is one.
///
/// It isn't inlined, so that the answer takes no room in the stack frames of the walk.
#[inline(never)]
#[tactic(auto, using(rc_tree::proofs::FuelLemmas::visiting))]
pub(super) fn settle<T: ReactiveFunctionTransform>(
    transform: &mut T,
    statement: &mut ReactiveStatement,
    done: &mut List<ReactiveStatement>,
    state: &mut T::State,
) -> Result<bool, Fault>
    ensures put { IsStep (put_at T.steps (transform.old, state.old) done.old statement.old) (without_answer result)
        ((transform.new, state.new), with_replacement result done.new statement.new) }
    ensures alone { IfOk result (λ stays. IsTrue stays → done.new ≡ done.old) }
{
    let answer = ask(transform, statement, state)?;
    let stays = put(statement, answer, done)?;
    Ok(stays)
}

/// Asks the `transform_` hook of a statement how it is replaced.
#[tactic(auto, using(rc_tree::proofs::FuelLemmas::visiting))]
pub(super) fn ask<T: ReactiveFunctionTransform>(
    transform: &mut T,
    statement: &mut ReactiveStatement,
    state: &mut T::State,
) -> Result<Transformed<ReactiveStatement>, Fault>
    ensures { IsStep (answer_at T.steps (transform.old, state.old) statement.old) result
        ((transform.new, state.new), statement.new) }
{
    match statement {
        ReactiveStatement::Instruction(row) => transform.transform_instruction(row, state),
        ReactiveStatement::Terminal(stmt) => transform.transform_terminal(stmt.get_mut(), state),
        ReactiveStatement::Scope(scope) => transform.transform_scope(scope, state),
        ReactiveStatement::PrunedScope(scope) => transform.transform_pruned_scope(scope, state),
    }
}

/// Puts the replacement of a statement, and returns whether it is one statement, in the place of the other. Each arm
/// with a part is a helper that takes it: a `match` that drops a large enum in some of its arms can't be checked.
fn put(
    statement: &mut ReactiveStatement,
    answer: Transformed<ReactiveStatement>,
    done: &mut List<ReactiveStatement>,
) -> Result<bool, AllocError>
    ensures put { IfOk result (λ stays.
        done.new ++ added_if stays statement.new ≡ done.old ++ in_place answer statement.old) }
    ensures alone { IfOk result (λ stays. IsTrue stays → done.new ≡ done.old) }
{
    match answer {
        Transformed::Keep => Ok(true),
        Transformed::Remove => Ok(false),
        Transformed::Replace(other) => put_other(statement, other),
        Transformed::ReplaceMany(others) => put_others(done, others),
    }
}

/// Puts another statement in the place of one.
fn put_other(
    statement: &mut ReactiveStatement,
    other: ReactiveStatement,
) -> Result<bool, AllocError>
    ensures put { statement.new ≡ other }
    ensures stays { result ≡ Ok true }
{
    *statement = other;
    Ok(true)
}

/// Appends other statements. Into an empty list their own list is moved as a whole, so that statements which are
/// replaced again and again aren't moved each time.
fn put_others(
    done: &mut List<ReactiveStatement>,
    others: List<ReactiveStatement>,
) -> Result<bool, AllocError>
    ensures { IfOk result (λ stays. (stays ≡ false) × (done.new ≡ done.old ++ others)) }
{
    if done.is_empty() {
        *done = others;
        return Ok(false);
    }
    done.append(others)?;
    Ok(false)
}
