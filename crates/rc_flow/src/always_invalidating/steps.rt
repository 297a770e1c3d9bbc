//! The steps of a tree's statements, in their order, from the inside out.
//!
//! Statements that follow each other are a loop, so that the call stack grows with the nesting alone.
#![tactic(auto, using(crate::proofs::AlwaysInvalidating::ValueStepsLemmas::holding))]

ghost use Rattle.std.specs.Prelude.{◌≡◌, ◌++◌, IfOk, OnOk, option_to_list};
ghost use Rattle.rc_flow.specs.ValueSteps as spec;
ghost use Rattle.rc_flow.specs.ValueSteps.{value_step_parts as parts};
ghost use Rattle.rc_names.specs.Numbers.{EvaluationOrder as Order};
ghost use Rattle.rc_tree.specs.Collected.{collected, collected_cases, collected_if, collected_list};
ghost use Rattle.rc_tree.specs.Collected.{collected_statement, collected_terminal};

use crate::value_step::ValueStep;
use rc_hir::{InstructionValue as Kind, Place};
use rc_names::List;
use rc_tree::{
    ReactiveBlock, ReactiveInstruction, ReactiveStatement, ReactiveSwitchCase, ReactiveTerminal,
    ReactiveValue,
};
use std::alloc::{AllocError, Global};

/// The steps of a tree. The only error is out of memory.
pub fn value_steps_in(alloc: Global, block: &ReactiveBlock) -> Result<List<ValueStep>, AllocError>
    ensures { IfOk result (λ steps. steps ≡ spec.value_steps_in block.now) }
{
    let mut steps = List::new(alloc);
    add_block(&mut steps, false, block)?;
    Ok(steps)
}

/// Adds the steps in a block.
#[cycle(value_steps)]
fn add_block(
    steps: &mut List<ValueStep>,
    in_scope: bool,
    block: &ReactiveBlock,
) -> Result<(), AllocError>
    ensures { OnOk result (steps.new ≡ steps.old ++ collected parts block.now in_scope) }
{
    add_statements(steps, in_scope, block.statements.as_slice())
}

/// Adds the steps in statements, one after the other.
#[cycle(value_steps)]
fn add_statements(
    steps: &mut List<ValueStep>,
    in_scope: bool,
    all: &[ReactiveStatement],
) -> Result<(), AllocError>
    ensures { OnOk result (steps.new ≡ steps.old ++ collected_list parts all.now in_scope) }
{
    for statement in all {
        add_statement(steps, in_scope, statement)?;
    }
    Ok(())
}

/// Adds the steps in a statement; a scope block ends after its inside.
#[cycle(value_steps)]
fn add_statement(
    steps: &mut List<ValueStep>,
    in_scope: bool,
    statement: &ReactiveStatement,
) -> Result<(), AllocError>
    ensures { OnOk result (steps.new ≡ steps.old ++ collected_statement parts statement.now in_scope) }
{
    match statement {
        ReactiveStatement::Instruction(row) => add_row(steps, in_scope, row),
        ReactiveStatement::Terminal(statement) => {
            add_terminal(steps, in_scope, &statement.get().terminal)
        }
        ReactiveStatement::Scope(block) => {
            add_block(steps, true, &block.instructions)?;
            steps.push(ValueStep::Ends(block.scope))
        }
        ReactiveStatement::PrunedScope(block) => add_block(steps, in_scope, &block.instructions),
    }
}

/// Adds the steps in the blocks of a terminal.
#[cycle(value_steps)]
fn add_terminal(
    steps: &mut List<ValueStep>,
    in_scope: bool,
    terminal: &ReactiveTerminal,
) -> Result<(), AllocError>
    ensures { OnOk result (steps.new ≡ steps.old ++ collected_terminal parts terminal.now in_scope) }
{
    match terminal {
        ReactiveTerminal::Break { .. }
        | ReactiveTerminal::Continue { .. }
        | ReactiveTerminal::Return { .. }
        | ReactiveTerminal::Throw { .. } => Ok(()),
        ReactiveTerminal::Switch { cases, .. } => add_cases(steps, in_scope, cases.as_slice()),
        ReactiveTerminal::DoWhile { loop_block, .. } => add_block(steps, in_scope, loop_block),
        ReactiveTerminal::For { loop_block, .. } => add_block(steps, in_scope, loop_block),
        ReactiveTerminal::While { loop_block, .. } => add_block(steps, in_scope, loop_block),
        ReactiveTerminal::ForOf { loop_block, .. } => add_block(steps, in_scope, loop_block),
        ReactiveTerminal::ForIn { loop_block, .. } => add_block(steps, in_scope, loop_block),
        ReactiveTerminal::If {
            consequent,
            alternate,
            ..
        } => {
            add_block(steps, in_scope, consequent)?;
            add_if_there(steps, in_scope, alternate)
        }
        ReactiveTerminal::Label { block, .. } => add_block(steps, in_scope, block),
        ReactiveTerminal::Try { block, handler, .. } => {
            add_block(steps, in_scope, block)?;
            add_block(steps, in_scope, handler)
        }
    }
}

/// Adds the steps in the cases of a switch.
#[cycle(value_steps)]
fn add_cases(
    steps: &mut List<ValueStep>,
    in_scope: bool,
    cases: &[ReactiveSwitchCase],
) -> Result<(), AllocError>
    ensures { OnOk result ((id : Order) → steps.new ≡ steps.old ++ collected_cases parts id cases.now in_scope) }
{
    for case in cases {
        add_if_there(steps, in_scope, &case.block)?;
    }
    Ok(())
}

/// Adds the steps in a block that may be left out.
#[cycle(value_steps)]
fn add_if_there(
    steps: &mut List<ValueStep>,
    in_scope: bool,
    block: &Option<ReactiveBlock>,
) -> Result<(), AllocError>
    ensures { OnOk result (steps.new ≡ steps.old ++ collected_if parts block.now in_scope) }
{
    match block {
        Some(block) => add_block(steps, in_scope, block),
        None => Ok(()),
    }
}

/// Adds the step of a row, if it makes or copies such a value.
fn add_row(
    steps: &mut List<ValueStep>,
    in_scope: bool,
    row: &ReactiveInstruction,
) -> Result<(), AllocError>
    ensures { OnOk result (steps.new ≡ steps.old ++ spec.steps_of_row row.now in_scope) }
{
    if let Some(step) = step_of(in_scope, row) {
        steps.push(step)?;
    }
    Ok(())
}

/// The step of a row, if it makes or copies such a value.
fn step_of(in_scope: bool, row: &ReactiveInstruction) -> Option<ValueStep>
    ensures { option_to_list result ≡ spec.steps_of_row row.now in_scope }
{
    match &row.value {
        ReactiveValue::Instruction(value) => step_of_instruction(in_scope, row.lvalue, value),
        ReactiveValue::LogicalExpression { .. }
        | ReactiveValue::ConditionalExpression { .. }
        | ReactiveValue::SequenceExpression { .. }
        | ReactiveValue::OptionalExpression { .. } => None,
    }
}

/// The same of an instruction.
fn step_of_instruction(in_scope: bool, target: Option<Place>, value: &Kind) -> Option<ValueStep>
    ensures { option_to_list result ≡ spec.steps_of_instruction in_scope target value.now }
{
    match value {
        Kind::ArrayExpression { .. } => made(in_scope, target),
        Kind::ObjectExpression { .. } => made(in_scope, target),
        Kind::JsxExpression { .. } => made(in_scope, target),
        Kind::JsxFragment { .. } => made(in_scope, target),
        Kind::NewExpression { .. } => made(in_scope, target),
        Kind::StoreLocal { lvalue, value, .. } => Some(ValueStep::Copies {
            from: value.identifier,
            to: lvalue.place.identifier,
        }),
        Kind::LoadLocal { place, .. } => copied(*place, target),
        _ => None,
    }
}

/// The target gets a new value, if there is one.
fn made(in_scope: bool, target: Option<Place>) -> Option<ValueStep>
    ensures { option_to_list result ≡ spec.made in_scope target }
{
    match target {
        Some(place) => Some(ValueStep::Makes {
            name: place.identifier,
            in_scope,
        }),
        None => None,
    }
}

/// The target gets the value of a place, if there is one.
fn copied(from: Place, target: Option<Place>) -> Option<ValueStep>
    ensures { option_to_list result ≡ spec.copied from target }
{
    match target {
        Some(place) => Some(ValueStep::Copies {
            from: from.identifier,
            to: place.identifier,
        }),
        None => None,
    }
}
