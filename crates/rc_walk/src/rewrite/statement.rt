//! The rewriting walk of blocks, statements and scopes.
#![tactic(auto, using(rc_tree::proofs::FuelLemmas::rewriting, rc_tree::proofs::RewriteStatementLemmas::rewriting_statements))]

ghost use Rattle.std.specs.Prelude.{◌≡◌, ◌+◌, ◌++◌, ◌∷◌, ℕ, [], drop, IfErr, IfOk, IsTrue, List as Entries, OnOk};
ghost use Rattle.rc_tree.specs.Step.{IsStep};
ghost use Rattle.rc_tree.specs.inside.EnoughFuel.{IsFueled};
ghost use Rattle.rc_tree.specs.Rewrite.{block_inside, block_to, inside_block, inside_pruned_scope, inside_scope};
ghost use Rattle.rc_tree.specs.Rewrite.{inside_terminal, into_at, pruned_scope_at, pruned_scope_inside, rewrite_block};
ghost use Rattle.rc_tree.specs.Rewrite.{rewrite_statement, scope_at, scope_inside, statements_at};
ghost use Rattle.rc_tree.specs.Rewrite.Terminals.{terminal_at, terminal_inside};
ghost use Rattle.rc_tree.specs.inside.RewriteInPlace.{held_at};
ghost use Rattle.rc_walk.specs.inside.FrontWalk.{GoesOnBehind, with_replacement, without_answer};

use crate::rewrite::in_place::{ask, settle};
use crate::rewrite::terminal::walk_parts;
use crate::rewrite::value::walk_instruction;
use crate::statements::{put_last, replace_at};
use crate::transform::ReactiveFunctionTransform;
use rc_hir::Fault;
use rc_names::List;
use rc_tree::{
    Enter, PrunedReactiveScopeBlock, ReactiveBlock, ReactiveScopeBlock, ReactiveStatement,
    ReactiveTerminalStatement, Transformed,
};
use std::alloc::Global;

/// Walks the inside of a terminal. Returns the fault of a hook, `BadName` if a nested function is outside its table,
/// and `NoMemory` when out of memory.
pub fn traverse_terminal<T: ReactiveFunctionTransform>(
    alloc: Global,
    transform: &mut T,
    stmt: &mut ReactiveTerminalStatement,
    state: &mut T::State,
) -> Result<(), Fault>
    ensures { IsStep (inside_terminal T.steps T.functions (transform.old, state.old) stmt.old) result
        ((transform.new, state.new), stmt.new) }
{
    walk_inside_terminal(alloc, transform, stmt, state)
}

/// Walks the inside of a scope block. Returns the fault of a hook, `BadName` if a nested function is outside its
/// table, and `NoMemory` when out of memory.
pub fn traverse_scope<T: ReactiveFunctionTransform>(
    alloc: Global,
    transform: &mut T,
    scope: &mut ReactiveScopeBlock,
    state: &mut T::State,
) -> Result<(), Fault>
    ensures { IsStep (inside_scope T.steps T.functions (transform.old, state.old) scope.old) result
        ((transform.new, state.new), scope.new) }
{
    walk_inside_scope(alloc, transform, scope, state)
}

/// Walks the inside of a pruned scope block. Returns the fault of a hook, `BadName` if a nested function is outside
/// its table, and `NoMemory` when out of memory.
pub fn traverse_pruned_scope<T: ReactiveFunctionTransform>(
    alloc: Global,
    transform: &mut T,
    scope: &mut PrunedReactiveScopeBlock,
    state: &mut T::State,
) -> Result<(), Fault>
    ensures { IsStep (inside_pruned_scope T.steps T.functions (transform.old, state.old) scope.old) result
        ((transform.new, state.new), scope.new) }
{
    walk_inside_pruned_scope(alloc, transform, scope, state)
}

/// Walks the statements of a block, and keeps, removes or replaces each by the result of its `transform_` hook. A
/// replacement isn't walked again. Returns the fault of a hook, `BadName` if a nested function is outside its table,
/// and `NoMemory` when out of memory.
pub fn traverse_block<T: ReactiveFunctionTransform>(
    alloc: Global,
    transform: &mut T,
    block: &mut ReactiveBlock,
    state: &mut T::State,
) -> Result<(), Fault>
    ensures { IsStep (inside_block T.steps T.functions (transform.old, state.old) block.old) result
        ((transform.new, state.new), block.new) }
{
    walk_statements(alloc, transform, block, state)
}

/// Walks a statement, and returns the result of its `transform_` hook, which says how it is replaced. Returns the
/// fault of a hook, `BadName` if a nested function is outside its table, and `NoMemory` when out of memory.
pub fn transform_stmt<T: ReactiveFunctionTransform>(
    alloc: Global,
    transform: &mut T,
    stmt: &mut ReactiveStatement,
    state: &mut T::State,
) -> Result<Transformed<ReactiveStatement>, Fault>
    ensures { IsStep (rewrite_statement T.steps T.functions (transform.old, state.old) stmt.old) result
        ((transform.new, state.new), stmt.new) }
{
    walk_held(alloc, transform, stmt, state)?;
    ask(transform, stmt, state)
}

/// Walks a block.
pub(crate) fn walk_block<T: ReactiveFunctionTransform>(
    alloc: Global,
    transform: &mut T,
    block: &mut ReactiveBlock,
    state: &mut T::State,
) -> Result<(), Fault>
    ensures { IsStep (rewrite_block T.steps T.functions (transform.old, state.old) block.old) result
        ((transform.new, state.new), block.new) }
{
    walk_block_to(alloc, transform, block, state)
}

/// Walks a block; the clause holds for any fuel.
#[cycle(rewrite_tree)]
pub(super) fn walk_block_to<T: ReactiveFunctionTransform>(
    alloc: Global,
    transform: &mut T,
    block: &mut ReactiveBlock,
    state: &mut T::State,
) -> Result<(), Fault>
    ensures { (n : ℕ)
        → IsFueled (block_to T.steps T.functions n (transform.old, state.old) block.old) result
        ((transform.new, state.new), block.new) }
{
    match transform.enter_block(block, state)? {
        Enter::Inside => {
            walk_statements(alloc, transform, block, state)?;
            transform.leave_block(block, state)
        }
        Enter::Skip => Ok(()),
    }
}

/// Walks the statements of a block; the clause holds for any fuel.
#[cycle(rewrite_tree)]
fn walk_statements<T: ReactiveFunctionTransform>(
    alloc: Global,
    transform: &mut T,
    block: &mut ReactiveBlock,
    state: &mut T::State,
) -> Result<(), Fault>
    ensures { (n : ℕ)
        → IsFueled (block_inside T.steps T.functions (block_to T.steps T.functions n)
        (transform.old, state.old) block.old)
        result ((transform.new, state.new), block.new) }
{
    walk_list(alloc, transform, &mut block.statements, state)
}

/// Walks statements. None is copied, and replacements aren't walked. Each is walked in its place, up to the first one
/// whose replacement isn't one statement; those after that one are moved.
///
/// A statement stays in its list while it is walked, so that the stack frames of the walk hold only references.
#[cycle(rewrite_tree)]
fn walk_list<T: ReactiveFunctionTransform>(
    alloc: Global,
    transform: &mut T,
    statements: &mut List<ReactiveStatement>,
    state: &mut T::State,
) -> Result<(), Fault>
    ensures { (n : ℕ)
        → IsFueled (statements_at T.steps T.functions (block_to T.steps T.functions n) (transform.old, state.old)
        statements.old) result ((transform.new, state.new), statements.new) }
{
    let mut left = List::new(alloc);
    let staying = walk_front(alloc, transform, statements, &mut left, state)?;
    replace_at(statements, staying, &mut left)?;
    // The label names the loop's invariant in the proof.
    'statement: while !left.is_empty() {
        walk_last_into(alloc, transform, &mut left, statements, state)?;
    }
    Ok(())
}

/// Walks statements in their places, up to the first one whose replacement isn't one statement. Returns how many are in
/// front of it. Its replacement is in `done`.
#[cycle(rewrite_tree)]
fn walk_front<T: ReactiveFunctionTransform>(
    alloc: Global,
    transform: &mut T,
    statements: &mut List<ReactiveStatement>,
    done: &mut List<ReactiveStatement>,
    state: &mut T::State,
) -> Result<usize, Fault>
    requires { done.old ≡ [] }
    ensures front { (n : ℕ) → IfOk result (λ staying.
        GoesOnBehind T.steps T.functions (block_to T.steps T.functions n) (transform.old, state.old) statements.old
        staying (transform.new, state.new) statements.new done.new) }
    ensures behind { IfOk result (λ staying. drop (staying + 1) statements.new ≡ drop (staying + 1) statements.old) }
    ensures fault { (n : ℕ) → IfErr result (λ fault.
        IsFueled (statements_at T.steps T.functions (block_to T.steps T.functions n) (transform.old, state.old)
        statements.old) (Err fault) ((transform.new, state.new), statements.new)) }
{
    for i in 0..statements.len() {
        let Some(statement) = statements.get_mut(i) else {
            return Ok(i);
        };
        let stays = walk_in_place(alloc, transform, statement, done, state)?;
        if !stays {
            return Ok(i);
        }
    }
    Ok(statements.len())
}

/// Walks a statement, and puts its replacement in its place if that is one statement, and else at the end of those that
/// are done. Returns whether it is one.
#[cycle(rewrite_tree)]
fn walk_in_place<T: ReactiveFunctionTransform>(
    alloc: Global,
    transform: &mut T,
    statement: &mut ReactiveStatement,
    done: &mut List<ReactiveStatement>,
    state: &mut T::State,
) -> Result<bool, Fault>
    ensures put { (n : ℕ)
        → IsFueled (into_at T.steps T.functions (block_to T.steps T.functions n) (transform.old, state.old) done.old
        statement.old) (without_answer result)
        ((transform.new, state.new), with_replacement result done.new statement.new) }
    ensures alone { IfOk result (λ stays. IsTrue stays → done.new ≡ done.old) }
{
    walk_held(alloc, transform, statement, state)?;
    settle(transform, statement, done, state)
}

/// Walks the last pending statement, and appends its replacement to `done`.
#[cycle(rewrite_tree)]
fn walk_last_into<T: ReactiveFunctionTransform>(
    alloc: Global,
    transform: &mut T,
    left: &mut List<ReactiveStatement>,
    done: &mut List<ReactiveStatement>,
    state: &mut T::State,
) -> Result<(), Fault>
    ensures left { (rest : Entries ReactiveStatement) → (x : ReactiveStatement) → left.old ≡ rest ++ x ∷ []
        → OnOk result (left.new ≡ rest) }
    ensures done { (n : ℕ) → (rest : Entries ReactiveStatement) → (x : ReactiveStatement) → left.old ≡ rest ++ x ∷ []
        → IsFueled (into_at T.steps T.functions (block_to T.steps T.functions n) (transform.old, state.old) done.old x)
        result ((transform.new, state.new), done.new) }
{
    let Some(last) = left.len().checked_sub(1) else {
        return Ok(());
    };
    let Some(statement) = left.get_mut(last) else {
        return Ok(());
    };
    let stays = walk_in_place(alloc, transform, statement, done, state)?;
    put_last(left, stays, done)?;
    Ok(())
}

/// Walks the part of a statement; the clause holds for any fuel.
#[cycle(rewrite_tree)]
fn walk_held<T: ReactiveFunctionTransform>(
    alloc: Global,
    transform: &mut T,
    statement: &mut ReactiveStatement,
    state: &mut T::State,
) -> Result<(), Fault>
    ensures { (n : ℕ)
        → IsFueled (held_at T.steps T.functions (block_to T.steps T.functions n)
        (transform.old, state.old) statement.old)
        result ((transform.new, state.new), statement.new) }
{
    match statement {
        ReactiveStatement::Instruction(row) => walk_instruction(alloc, transform, row, state),
        ReactiveStatement::Terminal(stmt) => walk_terminal(alloc, transform, stmt.get_mut(), state),
        ReactiveStatement::Scope(scope) => walk_scope(alloc, transform, scope, state),
        ReactiveStatement::PrunedScope(scope) => walk_pruned_scope(alloc, transform, scope, state),
    }
}

/// Walks a scope block; the clause holds for any fuel.
#[cycle(rewrite_tree)]
fn walk_scope<T: ReactiveFunctionTransform>(
    alloc: Global,
    transform: &mut T,
    scope: &mut ReactiveScopeBlock,
    state: &mut T::State,
) -> Result<(), Fault>
    ensures { (n : ℕ)
        → IsFueled (scope_at T.steps T.functions (block_to T.steps T.functions n) (transform.old, state.old) scope.old)
        result ((transform.new, state.new), scope.new) }
{
    match transform.enter_scope(scope, state)? {
        Enter::Inside => {
            walk_inside_scope(alloc, transform, scope, state)?;
            transform.leave_scope(scope, state)
        }
        Enter::Skip => Ok(()),
    }
}

/// Walks the inside of a scope block; the clause holds for any fuel.
#[cycle(rewrite_tree)]
fn walk_inside_scope<T: ReactiveFunctionTransform>(
    alloc: Global,
    transform: &mut T,
    scope: &mut ReactiveScopeBlock,
    state: &mut T::State,
) -> Result<(), Fault>
    ensures { (n : ℕ)
        → IsFueled (scope_inside T.steps T.functions (block_to T.steps T.functions n)
        (transform.old, state.old) scope.old)
        result ((transform.new, state.new), scope.new) }
{
    walk_block_to(alloc, transform, &mut scope.instructions, state)
}

/// Walks a pruned scope block; the clause holds for any fuel.
#[cycle(rewrite_tree)]
fn walk_pruned_scope<T: ReactiveFunctionTransform>(
    alloc: Global,
    transform: &mut T,
    scope: &mut PrunedReactiveScopeBlock,
    state: &mut T::State,
) -> Result<(), Fault>
    ensures { (n : ℕ)
        → IsFueled (pruned_scope_at T.steps T.functions (block_to T.steps T.functions n) (transform.old, state.old)
        scope.old) result ((transform.new, state.new), scope.new) }
{
    match transform.enter_pruned_scope(scope, state)? {
        Enter::Inside => {
            walk_inside_pruned_scope(alloc, transform, scope, state)?;
            transform.leave_pruned_scope(scope, state)
        }
        Enter::Skip => Ok(()),
    }
}

/// Walks the inside of a pruned scope block; the clause holds for any fuel.
#[cycle(rewrite_tree)]
fn walk_inside_pruned_scope<T: ReactiveFunctionTransform>(
    alloc: Global,
    transform: &mut T,
    scope: &mut PrunedReactiveScopeBlock,
    state: &mut T::State,
) -> Result<(), Fault>
    ensures { (n : ℕ)
        → IsFueled (pruned_scope_inside T.steps T.functions (block_to T.steps T.functions n) (transform.old, state.old)
        scope.old) result ((transform.new, state.new), scope.new) }
{
    walk_block_to(alloc, transform, &mut scope.instructions, state)
}

/// Walks a terminal; the clause holds for any fuel.
#[cycle(rewrite_tree)]
fn walk_terminal<T: ReactiveFunctionTransform>(
    alloc: Global,
    transform: &mut T,
    stmt: &mut ReactiveTerminalStatement,
    state: &mut T::State,
) -> Result<(), Fault>
    ensures { (n : ℕ)
        → IsFueled (terminal_at T.steps T.functions (block_to T.steps T.functions n)
        (transform.old, state.old) stmt.old)
        result ((transform.new, state.new), stmt.new) }
{
    match transform.enter_terminal(stmt, state)? {
        Enter::Inside => {
            walk_inside_terminal(alloc, transform, stmt, state)?;
            transform.leave_terminal(stmt, state)
        }
        Enter::Skip => Ok(()),
    }
}

/// Walks the inside of a terminal; the clause holds for any fuel.
#[cycle(rewrite_tree)]
fn walk_inside_terminal<T: ReactiveFunctionTransform>(
    alloc: Global,
    transform: &mut T,
    stmt: &mut ReactiveTerminalStatement,
    state: &mut T::State,
) -> Result<(), Fault>
    ensures { (n : ℕ)
        → IsFueled (terminal_inside T.steps T.functions (block_to T.steps T.functions n) (transform.old, state.old)
        stmt.old) result ((transform.new, state.new), stmt.new) }
{
    walk_parts(alloc, transform, &mut stmt.terminal, state)
}
