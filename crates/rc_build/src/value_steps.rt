//! The steps of a value: how it goes on after one of its blocks, and the rows of that block.
//!
//! After the value blocks of oxc's build_reactive_function.

ghost use Rattle.std.specs.Prelude.{◌≡◌, ◌++◌, ◌∷◌, [], Bool, IfOk, OnOk};
ghost use Rattle.rc_runs.specs.ListContext.{ValueContext};
ghost use Rattle.rc_build.specs.declared.builder.Site.{Site};
ghost use Rattle.rc_build.specs.declared.values.Around.{Around};
ghost use Rattle.rc_build.specs.inside.Built.{Builds};
ghost use Rattle.rc_build.specs.inside.Task.{progress_of};
ghost use Rattle.rc_build.specs.inside.StepRows.{CanBuildRow, CanBuildStep, CanBuildThrowing};
ghost use Rattle.rc_build.specs.inside.StepRows.{IsRow, IsStep, IsThrowing, RowBegun, RowBuilt};
ghost use Rattle.rc_build.specs.inside.ValueLoops as loops;
ghost use Rattle.rc_build.specs.inside.ValueSteps as steps;
ghost use Rattle.rc_build.specs.inside.Values as spec;

use crate::blocks::{block_with_id, find_block};
use crate::builder::{Builder, let_go, malformed};
use crate::handlers::{MayThrow, is_current, is_empty_goto, may_throw};
use crate::nesting::{VALUE_LEVEL, left_inside};
use crate::places::block_from;
use crate::short_arms::ShortArm;
use crate::value_rows::sequence_rows;
use crate::value_terminals::{NestedValue, ValueTerminal, value_terminal};
use crate::values::Around;
use rc_hir::{Fault, HirFunction, Place, Rule, Terminal};
use rc_names::{BlockId, Boxed, EvaluationOrder, List, Span};
use rc_tree::{ReactiveInstruction, ReactiveValue};
use std::alloc::{AllocError, Global};
/// How a value goes on after one of its blocks.
#[derive(Clone, Copy)]
pub enum Step {
    /// At the fallthrough of a value terminal.
    Nested { terminal: ValueTerminal },
    /// At the continuation of a block that may throw.
    Throws { throw: MayThrow },
}

/// The rows of a block of a value, and where the value goes on after it.
#[derive(Drop)]
pub struct ValueRow {
    /// The rows of the block, and of its value terminal, if it ends in one.
    pub rows: List<ReactiveInstruction>,
    pub next: BlockId,
    /// The place with which its value terminal answers.
    pub answer: Option<Place>,
    pub short: Option<ShortArm>,
}

impl<'g> Builder<'g> {
    /// How a value goes on after the block under a key, if there is such a block and it isn't the value's last one.
    // Not inlined, so that the frames of nested values have no room for what it looks up.
    #[inline(never)]
    pub fn step_at(&self, key: BlockId) -> Option<Step>
        ensures { result ≡ steps.step_at self.now.hir.now key }
    {
        let place = self.next_place();
        match block_from(&self.hir.body.blocks, key, place) {
            Some(block) => step_behind(self.hir, &block.terminal, place.saturating_add(1)),
            None => None,
        }
    }

    /// Builds the rows of a block after which the value goes on.
    ///
    /// `Malformed`, `Todo`, `BadName`: as for a value terminal's row, or for a block that may throw.
    #[cycle(values)]
    pub fn build_step(
        &mut self,
        key: BlockId,
        step: Step,
        around: Around,
    ) -> Result<Boxed<ValueRow>, Fault>
        requires { CanBuildStep self.old.hir.now self.old.marks key step }
        ensures { (site : Site) (is_test : Bool) → Builds self.old self.new site
            (λ row. RowBuilt self.old.hir.now (IsStep self.old.hir.now self.old.env.now around key) key row
            (progress_of self.old) (progress_of self.new))
            (spec.HasNoValue self.old.hir.now self.old.env.now key (steps.value_at around is_test) spec.any_end
            self.old.marks.used) result }
    {
        match step {
            Step::Nested { terminal } => self.build_row(key, terminal, around),
            Step::Throws { throw } => self.build_throwing(key, throw, around.handler),
        }
    }

    /// Builds the value terminal of a block as a row, after the rows of the block.
    ///
    /// - `Malformed`, `BadName`: as for the rows of the block.
    /// - `Malformed`, `Todo`, `BadName`: as for the value terminal.
    #[cycle(values)]
    fn build_row(
        &mut self,
        key: BlockId,
        terminal: ValueTerminal,
        around: Around,
    ) -> Result<Boxed<ValueRow>, Fault>
        requires { CanBuildRow self.old.hir.now self.old.marks key terminal }
        ensures { (site : Site) (is_test : Bool) → Builds self.old self.new site
            (λ row. RowBuilt self.old.hir.now (IsRow self.old.hir.now self.old.env.now around key) key row
            (progress_of self.old) (progress_of self.new))
            (spec.HasNoValue self.old.hir.now self.old.env.now key (steps.value_at around is_test) spec.any_end
            self.old.marks.used) result }
    {
        let stack = self.stack;
        self.stack = left_inside(stack, VALUE_LEVEL)?;
        let rows = self.begin_row(key, &terminal)?;
        match self.build_nested(terminal, around.handler) {
            Ok(nested) => {
                self.stack = stack;
                Ok(end_row(self.alloc, rows, &terminal, around.span, nested)?)
            }
            Err(fault) => {
                let_go(rows);
                Err(fault)
            }
        }
    }

    /// Makes the rows of a block that ends in a value terminal, and marks the block.
    ///
    /// - `Malformed` with `UnsetId`: a row or the terminal has no id.
    /// - `Malformed` with another rule, `BadName`: as for a block of a list.
    // Not inlined, so that the frames of nested values have no room for what it looks up.
    #[inline(never)]
    fn begin_row(
        &mut self,
        key: BlockId,
        terminal: &ValueTerminal,
    ) -> Result<List<ReactiveInstruction>, Fault>
        requires { CanBuildRow self.old.hir.now self.old.marks key terminal.now }
        ensures { (site : Site) (around : Around) (is_test : Bool) → Builds self.old self.new site
            (λ rows. RowBegun self.old.hir.now key terminal.now rows (progress_of self.old) (progress_of self.new))
            (spec.HasNoValue self.old.hir.now self.old.env.now key (steps.value_at around is_test) spec.any_end
            self.old.marks.used) result }
    {
        let hir = self.hir;
        let found = find_block(hir, key, self.next_place())?;
        let rows = sequence_rows(self.alloc, hir, key, found.block.instructions.as_slice())?;
        if terminal.id.0 == 0 {
            return Err(malformed(key, Rule::UnsetId));
        }
        self.mark_block(key, found)?;
        Ok(rows)
    }

    /// Builds the rows of a block that may throw, after which the value goes on.
    ///
    /// - `Malformed` with `Handler`: it names a handler that isn't the current one.
    /// - `Malformed`, `BadName`: as for a block of a value.
    // Not inlined, as `begin_row` isn't.
    #[inline(never)]
    fn build_throwing(
        &mut self,
        key: BlockId,
        throw: MayThrow,
        handler: Option<BlockId>,
    ) -> Result<Boxed<ValueRow>, Fault>
        requires { CanBuildThrowing self.old.hir.now self.old.marks key throw }
        ensures { (site : Site) (context : ValueContext) → context.handler ≡ handler → Builds self.old self.new site
            (λ row. RowBuilt self.old.hir.now (IsThrowing self.old.hir.now handler key) key row
            (progress_of self.old) (progress_of self.new))
            (spec.HasNoValue self.old.hir.now self.old.env.now key context spec.any_end self.old.marks.used) result }
    {
        let hir = self.hir;
        let found = block_with_id(hir, key, self.next_place())?;
        let rows = sequence_rows(self.alloc, hir, key, found.block.instructions.as_slice())?;
        if !is_current(throw.handler, handler) {
            return Err(malformed(key, Rule::Handler));
        }
        self.mark_block(key, found)?;
        let row = ValueRow {
            rows,
            next: throw.continuation,
            answer: None,
            short: None,
        };
        Ok(Boxed::new(self.alloc, row)?)
    }
}

/// The row of a value terminal, after the rows of its block. The only error is out of memory.
// Not inlined, so that the frames of nested values have no room for its parts.
#[inline(never)]
fn end_row(
    alloc: Global,
    rows: List<ReactiveInstruction>,
    terminal: &ValueTerminal,
    span: Option<Span>,
    nested: Boxed<NestedValue>,
) -> Result<Boxed<ValueRow>, AllocError>
    ensures { IfOk result (λ row. row ≡ loops.row_behind rows terminal.now span nested) }
{
    let NestedValue {
        value,
        answer,
        short,
    } = nested.into_inner();
    let mut rows = rows;
    put_row(&mut rows, terminal.id, &answer, value, span)?;
    let row = ValueRow {
        rows,
        next: terminal.fallthrough,
        answer: Some(answer),
        short,
    };
    Boxed::new(alloc, row)
}

/// Appends a row with that value. The only error is out of memory.
#[inline(never)]
fn put_row(
    rows: &mut List<ReactiveInstruction>,
    id: EvaluationOrder,
    answer: &Place,
    value: Boxed<ReactiveValue>,
    span: Option<Span>,
) -> Result<(), AllocError>
    ensures { OnOk result (rows.new ≡ rows.old ++ loops.row_with id answer.now value span ∷ []) }
{
    rows.push(ReactiveInstruction {
        id,
        lvalue: Some(*answer),
        value: value.into_inner(),
        span,
    })
}

/// How a value goes on after a block with the terminal, if that isn't the value's last one. A block that may throw
/// counts as the last one if only a `Goto` comes after it, which may be in a block at that place.
fn step_behind(hir: &HirFunction, terminal: &Terminal, place: usize) -> Option<Step>
    ensures { result ≡ steps.step_behind hir.now terminal.now }
{
    if let Some(terminal) = value_terminal(terminal) {
        return Some(Step::Nested { terminal });
    }
    match may_throw(terminal) {
        Some(throw) => if is_empty_goto(hir, throw.continuation, place) {
            None
        } else {
            Some(Step::Throws { throw })
        },
        None => None,
    }
}
