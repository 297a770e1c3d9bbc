//! The positions of the values of a body. Each part is told where the run goes on after it.

ghost use Rattle.std.specs.Prelude.{◌≡◌, IfOk};
ghost use Rattle.std.specs.Option.{option_map};
ghost use Rattle.rc_replay.specs.inside.Layout as spec;
ghost use Rattle.rc_replay.specs.inside.RowOfTest as rows;
ghost use Rattle.rc_runs.specs.AnsweredTest as answered;
ghost use Rattle.rc_runs.specs.PlainTree.{Base};
ghost use Rattle.rc_runs.specs.Silent as silent;
ghost use Rattle.rc_tree.specs.declared.value.ReactiveValue.{out-ReactiveValue};

use crate::layout::{After, Layout};
use crate::positions::Position;
use crate::silent::is_silent_value;
use rc_hir::{Environment, InstructionValue, Place};
use rc_names::EvaluationOrder;
use rc_tree::{ReactiveInstruction, ReactiveValue};
use std::alloc::AllocError;

/// The test of an optional, as the row of a sequence, the sequence's id, and its value.
#[derive(Clone, Copy)]
struct Chain<'t> {
    row: &'t ReactiveInstruction,
    id: EvaluationOrder,
    rest: &'t ReactiveValue,
}

/// Returns the test and the rest, if the value is a sequence of one row.
fn chain_of<'t>(value: &'t ReactiveValue) -> Option<Chain<'t>>
    ensures { spec.chain_of (out-ReactiveValue value.now)
        ≡ option_map (λ chain. (chain.row.now, chain.id, chain.rest.now)) result }
{
    let ReactiveValue::SequenceExpression {
        instructions,
        id,
        value,
    } = value
    else {
        return None;
    };
    if instructions.len() != 1 {
        return None;
    }
    match instructions.get(0) {
        Some(row) => Some(Chain {
            row,
            id: *id,
            rest: value.get(),
        }),
        None => None,
    }
}

/// Returns whether the identifiers of two places have one declaration.
fn same_declaration(env: &Environment, a: Place, b: Place) -> bool
    ensures { result ≡ answered.same_declaration env.now a b }
{
    match (
        env.identifiers.get(a.identifier),
        env.identifiers.get(b.identifier),
    ) {
        (Some(a), Some(b)) => a.declaration_id == b.declaration_id,
        _ => false,
    }
}

/// Returns whether the value only loads the row's target.
fn answers(env: &Environment, target: Option<Place>, value: &ReactiveValue) -> bool
    ensures { result ≡ rows.answers_target env.now target (out-ReactiveValue value.now) }
{
    match (target, value) {
        (Some(place), ReactiveValue::Instruction(value)) => loads(env, place, value),
        _ => false,
    }
}

/// Returns whether the value loads a place of that declaration.
fn loads(env: &Environment, place: Place, value: &InstructionValue) -> bool
    ensures { result ≡ answered.answers_test env.now place (Base value.now) }
{
    match value {
        InstructionValue::LoadLocal { place: loaded, .. } => same_declaration(env, place, *loaded),
        _ => false,
    }
}

/// Returns whether the value is an optional.
fn is_optional(value: &ReactiveValue) -> bool
    ensures { result ≡ rows.is_optional (out-ReactiveValue value.now) }
{
    matches!(value, ReactiveValue::OptionalExpression { .. })
}

/// Returns whether the row ends an optional's test with this value after it, if it is the last one of such a test.
fn ends_test(
    env: &Environment,
    is_test: bool,
    last: bool,
    row: &ReactiveInstruction,
    value: &ReactiveValue,
) -> bool
    ensures { result ≡ rows.ends_test env.now is_test last row.now value.now }
{
    is_test && last && is_optional(&row.value) && answers(env, row.lvalue, value)
}

/// Returns whether the id is outside the order of evaluation.
fn is_unset(id: EvaluationOrder) -> bool
    ensures { result ≡ silent.is_unset id }
{
    id.0 == 0
}

impl<'t> Layout<'t> {
    /// Lays out a value, which is the test of an optional or not, and returns the number of its first position. Fails
    /// only when out of memory.
    #[cycle(lay_value)]
    pub fn value(
        &mut self,
        env: &Environment,
        is_test: bool,
        value: &'t ReactiveValue,
        after: After,
    ) -> Result<usize, AllocError>
        ensures { IfOk result (spec.LaysValue env.now is_test value.now after self.old self.new) }
    {
        match value {
            ReactiveValue::Instruction(value) => self.instruction(env, is_test, value, after),
            ReactiveValue::LogicalExpression { left, right, .. } => {
                let fails = self.value(env, false, right.get(), After::at(after.done))?;
                let branch = self.add(Position::Tests {
                    holds: after.done,
                    fails,
                })?;
                self.value(env, false, left.get(), After::at(branch))
            }
            ReactiveValue::ConditionalExpression {
                test,
                consequent,
                alternate,
            } => {
                let holds = self.value(env, false, consequent.get(), After::at(after.done))?;
                let fails = self.value(env, false, alternate.get(), After::at(after.done))?;
                let branch = self.add(Position::Tests { holds, fails })?;
                self.value(env, false, test.get(), After::at(branch))
            }
            ReactiveValue::SequenceExpression {
                instructions,
                value: last,
                ..
            } => {
                let next = self.value(env, is_test, last.get(), after)?;
                self.rows(
                    env,
                    is_test,
                    instructions.as_slice(),
                    last.get(),
                    after,
                    next,
                )
            }
            ReactiveValue::OptionalExpression { value, .. } => {
                self.optional(env, is_test, value.get(), after)
            }
        }
    }

    /// Lays out a value of one instruction.
    fn instruction(
        &mut self,
        env: &Environment,
        is_test: bool,
        value: &'t InstructionValue,
        after: After,
    ) -> Result<usize, AllocError>
        ensures { IfOk result (spec.LaysInstruction env.now is_test value.now after self.old self.new) }
    {
        if is_silent_value(env, value) {
            return Ok(after.done);
        }
        self.add(Position::Computes(value, after.done))
    }

    /// Lays out an optional with this value.
    #[cycle(lay_value)]
    fn optional(
        &mut self,
        env: &Environment,
        is_test: bool,
        value: &'t ReactiveValue,
        after: After,
    ) -> Result<usize, AllocError>
        ensures { IfOk result (spec.LaysOptional env.now is_test value.now after self.old self.new) }
    {
        match chain_of(value) {
            Some(chain) => {
                let holds = self.value(env, false, chain.rest, After::at(after.done))?;
                let branch = self.add(Position::Tests {
                    holds,
                    fails: after.short,
                })?;
                let at_test = After {
                    done: branch,
                    short: after.short,
                };
                self.row(env, true, chain.row, at_test)
            }
            None => self.value(env, false, value, After::at(after.done)),
        }
    }

    /// Lays out the rows of a sequence, whose value begins at that position.
    #[cycle(lay_value)]
    fn rows(
        &mut self,
        env: &Environment,
        is_test: bool,
        rows: &'t [ReactiveInstruction],
        value: &ReactiveValue,
        after: After,
        next: usize,
    ) -> Result<usize, AllocError>
        ensures { spec.LaysRowsBefore env.now is_test rows.now value.now after next self.old self.new result }
    {
        let mut start = next;
        let mut last = true;
        for i in (0..rows.len()).rev() {
            let row = &rows[i];
            let of_test = ends_test(env, is_test, last, row, value);
            start = self.row(env, false, row, after.row(start, of_test))?;
            last = false;
        }
        Ok(start)
    }

    /// Lays out a row. One whose id is unset has no event.
    #[cycle(lay_value)]
    pub fn row(
        &mut self,
        env: &Environment,
        is_test: bool,
        row: &'t ReactiveInstruction,
        after: After,
    ) -> Result<usize, AllocError>
        ensures { IfOk result (spec.LaysRow env.now is_test row.now after self.old self.new) }
    {
        if is_unset(row.id) {
            return Ok(after.done);
        }
        self.value(env, is_test, &row.value, after)
    }
}
