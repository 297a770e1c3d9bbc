//! The read walk of blocks, statements and terminals.
#![tactic(auto, using(rc_tree::proofs::ReadStatementLemmas::reading_statements))]

ghost use Rattle.rc_tree.specs.Step.{IsStep, each, perhaps};
ghost use Rattle.rc_tree.specs.Read.{inside_block, inside_pruned_scope, inside_scope, inside_terminal, read_block};
ghost use Rattle.rc_tree.specs.Read.{read_case, read_parts, read_pruned_scope, read_scope, read_statement};
ghost use Rattle.rc_tree.specs.Read.{read_terminal};
ghost use Rattle.rc_tree.specs.Read.Values.{read_value};

use crate::read::value::{walk_instruction, walk_value};
use crate::visitor::ReactiveFunctionVisitor;
use rc_hir::{Fault, Place};
use rc_names::{Boxed, EvaluationOrder, List};
use rc_tree::{
    Enter, PrunedReactiveScopeBlock, ReactiveBlock, ReactiveScopeBlock, ReactiveStatement,
    ReactiveSwitchCase, ReactiveTerminal, ReactiveTerminalStatement, ReactiveValue,
};
use std::alloc::Global;

/// Walks the inside of a terminal. Returns the fault of a hook, `BadName` if a nested function is outside its table,
/// and `NoMemory` when out of memory.
pub fn traverse_terminal<V: ReactiveFunctionVisitor>(
    alloc: Global,
    visitor: &V,
    stmt: &ReactiveTerminalStatement,
    state: &mut V::State,
) -> Result<(), Fault>
    ensures { IsStep (inside_terminal (V.steps visitor.now) (V.functions visitor.now) stmt.now
        (V.view visitor.now state.old)) result (V.view visitor.now state.new) }
{
    walk_parts(alloc, visitor, &stmt.terminal, state)
}

/// Walks the inside of a scope block. Returns the fault of a hook, `BadName` if a nested function is outside its
/// table, and `NoMemory` when out of memory.
pub fn traverse_scope<V: ReactiveFunctionVisitor>(
    alloc: Global,
    visitor: &V,
    scope: &ReactiveScopeBlock,
    state: &mut V::State,
) -> Result<(), Fault>
    ensures { IsStep (inside_scope (V.steps visitor.now) (V.functions visitor.now) scope.now
        (V.view visitor.now state.old)) result (V.view visitor.now state.new) }
{
    walk_block(alloc, visitor, &scope.instructions, state)
}

/// Walks the inside of a pruned scope block. Returns the fault of a hook, `BadName` if a nested function is outside
/// its table, and `NoMemory` when out of memory.
pub fn traverse_pruned_scope<V: ReactiveFunctionVisitor>(
    alloc: Global,
    visitor: &V,
    scope: &PrunedReactiveScopeBlock,
    state: &mut V::State,
) -> Result<(), Fault>
    ensures { IsStep (inside_pruned_scope (V.steps visitor.now) (V.functions visitor.now) scope.now
        (V.view visitor.now state.old)) result (V.view visitor.now state.new) }
{
    walk_block(alloc, visitor, &scope.instructions, state)
}

/// Walks the statements of a block. Returns the fault of a hook, `BadName` if a nested function is outside its table,
/// and `NoMemory` when out of memory.
#[cycle(read_tree)]
pub fn traverse_block<V: ReactiveFunctionVisitor>(
    alloc: Global,
    visitor: &V,
    block: &ReactiveBlock,
    state: &mut V::State,
) -> Result<(), Fault>
    ensures { IsStep (inside_block (V.steps visitor.now) (V.functions visitor.now) block.now
        (V.view visitor.now state.old)) result (V.view visitor.now state.new) }
{
    for statement in block.statements.as_slice() {
        walk_statement(alloc, visitor, statement, state)?;
    }
    Ok(())
}

/// Walks a block.
#[cycle(read_tree)]
pub(crate) fn walk_block<V: ReactiveFunctionVisitor>(
    alloc: Global,
    visitor: &V,
    block: &ReactiveBlock,
    state: &mut V::State,
) -> Result<(), Fault>
    ensures { IsStep (read_block (V.steps visitor.now) (V.functions visitor.now) block.now
        (V.view visitor.now state.old)) result (V.view visitor.now state.new) }
{
    match visitor.enter_block(block, state)? {
        Enter::Inside => {
            traverse_block(alloc, visitor, block, state)?;
            visitor.leave_block(block, state)
        }
        Enter::Skip => Ok(()),
    }
}

/// Walks a statement.
#[cycle(read_tree)]
fn walk_statement<V: ReactiveFunctionVisitor>(
    alloc: Global,
    visitor: &V,
    statement: &ReactiveStatement,
    state: &mut V::State,
) -> Result<(), Fault>
    ensures { IsStep (read_statement (V.steps visitor.now) (V.functions visitor.now) statement.now
        (V.view visitor.now state.old)) result (V.view visitor.now state.new) }
{
    match statement {
        ReactiveStatement::Instruction(row) => walk_instruction(alloc, visitor, row, state),
        ReactiveStatement::Terminal(stmt) => walk_terminal(alloc, visitor, stmt.get(), state),
        ReactiveStatement::Scope(scope) => walk_scope(alloc, visitor, scope, state),
        ReactiveStatement::PrunedScope(scope) => walk_pruned_scope(alloc, visitor, scope, state),
    }
}

/// Walks a scope block.
#[cycle(read_tree)]
fn walk_scope<V: ReactiveFunctionVisitor>(
    alloc: Global,
    visitor: &V,
    scope: &ReactiveScopeBlock,
    state: &mut V::State,
) -> Result<(), Fault>
    ensures { IsStep (read_scope (V.steps visitor.now) (V.functions visitor.now) scope.now
        (V.view visitor.now state.old)) result (V.view visitor.now state.new) }
{
    match visitor.enter_scope(scope, state)? {
        Enter::Inside => {
            walk_block(alloc, visitor, &scope.instructions, state)?;
            visitor.leave_scope(scope, state)
        }
        Enter::Skip => Ok(()),
    }
}

/// Walks a pruned scope block.
#[cycle(read_tree)]
fn walk_pruned_scope<V: ReactiveFunctionVisitor>(
    alloc: Global,
    visitor: &V,
    scope: &PrunedReactiveScopeBlock,
    state: &mut V::State,
) -> Result<(), Fault>
    ensures { IsStep (read_pruned_scope (V.steps visitor.now) (V.functions visitor.now) scope.now
        (V.view visitor.now state.old)) result (V.view visitor.now state.new) }
{
    match visitor.enter_pruned_scope(scope, state)? {
        Enter::Inside => {
            walk_block(alloc, visitor, &scope.instructions, state)?;
            visitor.leave_pruned_scope(scope, state)
        }
        Enter::Skip => Ok(()),
    }
}

/// Walks a terminal.
#[cycle(read_tree)]
fn walk_terminal<V: ReactiveFunctionVisitor>(
    alloc: Global,
    visitor: &V,
    stmt: &ReactiveTerminalStatement,
    state: &mut V::State,
) -> Result<(), Fault>
    ensures { IsStep (read_terminal (V.steps visitor.now) (V.functions visitor.now) stmt.now
        (V.view visitor.now state.old)) result (V.view visitor.now state.new) }
{
    match visitor.enter_terminal(stmt, state)? {
        Enter::Inside => {
            walk_parts(alloc, visitor, &stmt.terminal, state)?;
            visitor.leave_terminal(stmt, state)
        }
        Enter::Skip => Ok(()),
    }
}

/// Walks the parts of a terminal, in the order of the table.
#[cycle(read_tree)]
fn walk_parts<V: ReactiveFunctionVisitor>(
    alloc: Global,
    visitor: &V,
    terminal: &ReactiveTerminal,
    state: &mut V::State,
) -> Result<(), Fault>
    ensures { IsStep (read_parts (V.steps visitor.now) (V.functions visitor.now) terminal.now
        (V.view visitor.now state.old)) result (V.view visitor.now state.new) }
{
    match terminal {
        ReactiveTerminal::Break { id, .. } | ReactiveTerminal::Continue { id, .. } => {
            visitor.visit_id(*id, state)
        }
        ReactiveTerminal::Return { value, id } | ReactiveTerminal::Throw { value, id } => {
            visitor.visit_id(*id, state)?;
            visitor.visit_place(*id, value, state)
        }
        ReactiveTerminal::Switch { test, cases, id } => {
            visitor.visit_id(*id, state)?;
            visitor.visit_place(*id, test, state)?;
            walk_cases(alloc, visitor, *id, cases, state)
        }
        ReactiveTerminal::DoWhile {
            loop_block,
            test,
            id,
        } => {
            visitor.visit_id(*id, state)?;
            walk_block(alloc, visitor, loop_block, state)?;
            walk_loop_value(alloc, visitor, *id, test, state)
        }
        ReactiveTerminal::While {
            test,
            loop_block,
            id,
        } => {
            visitor.visit_id(*id, state)?;
            walk_loop_value(alloc, visitor, *id, test, state)?;
            walk_block(alloc, visitor, loop_block, state)
        }
        ReactiveTerminal::For {
            init,
            test,
            update,
            loop_block,
            id,
        } => {
            visitor.visit_id(*id, state)?;
            walk_loop_value(alloc, visitor, *id, init, state)?;
            walk_loop_value(alloc, visitor, *id, test, state)?;
            walk_block(alloc, visitor, loop_block, state)?;
            walk_value_if(alloc, visitor, *id, update, state)
        }
        ReactiveTerminal::ForOf {
            init,
            test,
            loop_block,
            span: _,
            id,
        } => {
            visitor.visit_id(*id, state)?;
            walk_loop_value(alloc, visitor, *id, init, state)?;
            walk_loop_value(alloc, visitor, *id, test, state)?;
            walk_block(alloc, visitor, loop_block, state)
        }
        ReactiveTerminal::ForIn {
            init,
            loop_block,
            span: _,
            id,
        } => {
            visitor.visit_id(*id, state)?;
            walk_loop_value(alloc, visitor, *id, init, state)?;
            walk_block(alloc, visitor, loop_block, state)
        }
        ReactiveTerminal::If {
            test,
            consequent,
            alternate,
            id,
        } => {
            visitor.visit_id(*id, state)?;
            visitor.visit_place(*id, test, state)?;
            walk_block(alloc, visitor, consequent, state)?;
            walk_block_if(alloc, visitor, alternate, state)
        }
        ReactiveTerminal::Label { block, id } => {
            visitor.visit_id(*id, state)?;
            walk_block(alloc, visitor, block, state)
        }
        ReactiveTerminal::Try {
            block,
            handler_binding,
            handler,
            id,
        } => {
            visitor.visit_id(*id, state)?;
            walk_block(alloc, visitor, block, state)?;
            visit_place_if(visitor, *id, handler_binding, state)?;
            walk_block(alloc, visitor, handler, state)
        }
    }
}

/// Walks the cases of a switch, at the id of the switch.
#[cycle(read_tree)]
fn walk_cases<V: ReactiveFunctionVisitor>(
    alloc: Global,
    visitor: &V,
    id: EvaluationOrder,
    cases: &List<ReactiveSwitchCase>,
    state: &mut V::State,
) -> Result<(), Fault>
    ensures { IsStep (each (λ c. read_case (V.steps visitor.now) (V.functions visitor.now) c id) cases.now
        (V.view visitor.now state.old)) result (V.view visitor.now state.new) }
{
    for case in cases.as_slice() {
        walk_case(alloc, visitor, id, case, state)?;
    }
    Ok(())
}

/// Walks a case of a switch: its test and its block.
#[cycle(read_tree)]
fn walk_case<V: ReactiveFunctionVisitor>(
    alloc: Global,
    visitor: &V,
    id: EvaluationOrder,
    case: &ReactiveSwitchCase,
    state: &mut V::State,
) -> Result<(), Fault>
    ensures { IsStep (read_case (V.steps visitor.now) (V.functions visitor.now) case.now id
        (V.view visitor.now state.old)) result (V.view visitor.now state.new) }
{
    visit_place_if(visitor, id, &case.test, state)?;
    walk_block_if(alloc, visitor, &case.block, state)
}

/// Walks an optional block.
#[cycle(read_tree)]
fn walk_block_if<V: ReactiveFunctionVisitor>(
    alloc: Global,
    visitor: &V,
    block: &Option<ReactiveBlock>,
    state: &mut V::State,
) -> Result<(), Fault>
    ensures { IsStep (perhaps (read_block (V.steps visitor.now) (V.functions visitor.now)) block.now
        (V.view visitor.now state.old)) result (V.view visitor.now state.new) }
{
    match block {
        Some(block) => walk_block(alloc, visitor, block, state),
        None => Ok(()),
    }
}

/// Walks a value of a loop.
fn walk_loop_value<V: ReactiveFunctionVisitor>(
    alloc: Global,
    visitor: &V,
    id: EvaluationOrder,
    value: &Boxed<ReactiveValue>,
    state: &mut V::State,
) -> Result<(), Fault>
    ensures { IsStep (read_value (V.steps visitor.now) (V.functions visitor.now) value.now id
        (V.view visitor.now state.old)) result (V.view visitor.now state.new) }
{
    walk_value(alloc, visitor, id, value.get(), state)
}

/// Walks an optional value of a loop.
fn walk_value_if<V: ReactiveFunctionVisitor>(
    alloc: Global,
    visitor: &V,
    id: EvaluationOrder,
    value: &Option<Boxed<ReactiveValue>>,
    state: &mut V::State,
) -> Result<(), Fault>
    ensures { IsStep (perhaps (λ x. read_value (V.steps visitor.now) (V.functions visitor.now) x id) value.now
        (V.view visitor.now state.old)) result (V.view visitor.now state.new) }
{
    match value {
        Some(value) => walk_loop_value(alloc, visitor, id, value, state),
        None => Ok(()),
    }
}

/// Visits an optional place.
fn visit_place_if<V: ReactiveFunctionVisitor>(
    visitor: &V,
    id: EvaluationOrder,
    place: &Option<Place>,
    state: &mut V::State,
) -> Result<(), Fault>
    ensures { IsStep (perhaps ((V.steps visitor.now).visit_place id) place.now (V.view visitor.now state.old))
        result (V.view visitor.now state.new) }
{
    match place {
        Some(place) => visitor.visit_place(id, place, state),
        None => Ok(()),
    }
}
