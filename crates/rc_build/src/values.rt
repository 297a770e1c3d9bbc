//! Values: value terminals as rows, and the block after them, whose last row is the value.
//!
//! Where a value goes on from block to block, one loop follows it forward and another one comes back; only the
//! parts of a value terminal are built by a nested call.
//!
//! After the value blocks of oxc's build_reactive_function.

ghost use Rattle.std.specs.Prelude.{◌≡◌, ◌++◌, ◌∷◌, [], ◌&&◌, Bool, false, IfOk};
ghost use Rattle.rc_names.specs.Numbers.{BlockId, same_id};
ghost use Rattle.rc_hir.specs.Model.{HirFunction};
ghost use Rattle.rc_hir.specs.declared.fault.Fault.TheVariants as faults;
ghost use Rattle.rc_runs.specs.ListContext.{ValueContext, value_context};
ghost use Rattle.rc_runs.specs.PlainTree.{Value};
ghost use Rattle.rc_runs.specs.TreeOf.{value_of};
ghost use Rattle.rc_runs.specs.ValueEnd.{GoesTo, ValueEnd};
ghost use Rattle.rc_runs.specs.LoopValues.{SpellsGoing, SpellsTest};
ghost use Rattle.rc_runs.specs.LoopValues as loop_values;
ghost use Rattle.rc_build.specs.declared.builder.Builder.{Builder};
ghost use Rattle.rc_build.specs.declared.builder.Site.{Site};
ghost use Rattle.rc_build.specs.declared.values.Around.{Around};
ghost use Rattle.rc_build.specs.inside.Built.{Builds};
ghost use Rattle.rc_build.specs.inside.Setting.{setting_of};
ghost use Rattle.rc_build.specs.inside.ValueSteps as steps;
ghost use Rattle.rc_build.specs.inside.ShortArms.{CanBuildShort};
ghost use Rattle.rc_build.specs.inside.ValueLoops as loops;
ghost use Rattle.rc_build.specs.inside.ValueRows.{behind_rows};
ghost use Rattle.rc_build.specs.inside.Values as spec;

use crate::answered_test::{answers_test, same_declaration};
use crate::builder::{Builder, Site, let_go, malformed};
use crate::flatten::flattened;
use crate::nesting::{ROW_LEVEL, left_inside};
use crate::short_arms::ShortArm;
use crate::value_rows::after_rows;
use crate::value_steps::ValueRow;
use rc_hir::{Environment, Fault, HirFunction, Place, Rule, Terminal};
use rc_names::{BlockId, Boxed, EvaluationOrder, List, Span};
use rc_tree::{ReactiveInstruction, ReactiveValue};
use std::alloc::{AllocError, Global};

/// A value that is built, and its end.
#[derive(Drop)]
pub struct BuiltValue<'g> {
    pub value: Boxed<ReactiveValue>,
    /// The place with which it answers.
    pub answer: Place,
    pub id: EvaluationOrder,
    /// Its last block.
    pub block: BlockId,
    /// The terminal of that block.
    pub last: &'g Terminal,
    /// The arm that it leaves to the optional whose test it answers, if there is one.
    pub left_open: Option<ShortArm>,
}

/// A value that chooses between two blocks by its answer.
#[derive(Drop)]
pub struct Condition<'g> {
    pub tested: Boxed<BuiltValue<'g>>,
    pub arms: TestArms,
}

/// What the `Branch` at the end of a condition tests, and the blocks to which it leads.
#[derive(Clone, Copy)]
pub struct TestArms {
    pub test: Place,
    pub consequent: BlockId,
    pub alternate: BlockId,
    pub span: Option<Span>,
}

/// What is around a value.
#[derive(Clone, Copy)]
pub struct Around {
    /// The span of the terminal in whose value it is.
    pub span: Option<Span>,
    /// The current handler.
    pub handler: Option<BlockId>,
}

/// How a loop shows a value: flattened or not, and its own span.
#[derive(Clone, Copy)]
pub struct Showing {
    pub flat: bool,
    pub span: Option<Span>,
}

impl<'g> Builder<'g> {
    /// Builds the value from a block on, after which the graph goes on at the next block, as a loop shows it.
    ///
    /// `Malformed`, `Todo`, `BadName`: as for an arm.
    pub fn build_going(
        &mut self,
        site: Site,
        key: BlockId,
        next: BlockId,
        showing: Showing,
    ) -> Result<Boxed<ReactiveValue>, Fault>
        requires { spec.CanBuildValue self.old.hir.now self.old.marks key }
        ensures { let Spelled = SpellsGoing self.old.hir.now self.old.env.now showing.flat key
            (value_context showing.span (setting_of self.old site).context) next in
            spec.BuildsShown self.old self.new site key Spelled result }
    {
        let built = self.build_arm(key, next, showing.around(site))?;
        Ok(built.into_inner().shown(self.alloc, showing)?)
    }

    /// Builds the value from a block on, which chooses between these two blocks by its answer, as a loop shows it.
    ///
    /// - `Malformed` with `ValueEnd`: it chooses between other blocks.
    /// - `Malformed`, `Todo`, `BadName`: as for a condition.
    // Not inlined, so that the frames of nested loops have no room for the value.
    #[inline(never)]
    pub fn build_test(
        &mut self,
        site: Site,
        key: BlockId,
        consequent: BlockId,
        alternate: BlockId,
        showing: Showing,
    ) -> Result<Boxed<ReactiveValue>, Fault>
        requires { spec.CanBuildValue self.old.hir.now self.old.marks key }
        ensures { let Spelled = SpellsTest self.old.hir.now self.old.env.now showing.flat key
            (value_context showing.span (setting_of self.old site).context) consequent alternate in
            spec.BuildsShown self.old self.new site key Spelled result }
    {
        let condition = self.build_condition(key, showing.around(site), false)?;
        let Condition { tested, arms } = condition.into_inner();
        if !arms.are(consequent, alternate) {
            return Err(refuse(tested, Rule::ValueEnd));
        }
        Ok(tested.into_inner().shown(self.alloc, showing)?)
    }

    /// Builds the value from a block on, after which the graph goes on at the next block.
    ///
    /// - `Malformed` with `ValueEnd`: it goes on elsewhere.
    /// - `Malformed`, `Todo`, `BadName`: as for a value.
    // Inlined, so that a level of nested values has a frame less.
    #[inline(always)]
    #[cycle(values)]
    pub fn build_arm(
        &mut self,
        key: BlockId,
        next: BlockId,
        around: Around,
    ) -> Result<Boxed<BuiltValue<'g>>, Fault>
        requires { spec.CanBuildValue self.old.hir.now self.old.marks key }
        ensures { (site : Site) →
            spec.BuildsValue self.old self.new site key (steps.value_at around false) (GoesTo next) result }
    {
        let built = self.build_value(key, around, false)?;
        if !built.get().leads_to(next) {
            return Err(refuse(built, Rule::ValueEnd));
        }
        Ok(built)
    }

    /// Builds the value from a block on, which chooses between two blocks by its answer; `is_test`: the test of an
    /// optional.
    ///
    /// - `Malformed` with `ValueEnd` or `Tested`: it doesn't choose by its answer.
    /// - `Malformed`, `Todo`, `BadName`: as for a value.
    // Inlined, so that a level of nested values has a frame less.
    #[inline(always)]
    #[cycle(values)]
    pub fn build_condition(
        &mut self,
        key: BlockId,
        around: Around,
        is_test: bool,
    ) -> Result<Boxed<Condition<'g>>, Fault>
        requires { spec.CanBuildValue self.old.hir.now self.old.marks key }
        ensures { (site : Site) →
            spec.BuildsCondition self.old self.new site key (steps.value_at around is_test) result }
    {
        let tested = self.build_value(key, around, is_test)?;
        self.choosing(tested)
    }

    /// The condition that a built value is.
    ///
    /// - `Malformed` with `ValueEnd`: the value doesn't end in a `Branch`.
    /// - `Malformed` with `Tested`: the `Branch` tests another declaration than that of the answer.
    // Not inlined, so that the frames of nested values have no room for the arms.
    #[inline(never)]
    fn choosing(&self, tested: Boxed<BuiltValue<'g>>) -> Result<Boxed<Condition<'g>>, Fault>
        ensures { (old : Builder) (site : Site) (key : BlockId) (context : ValueContext) →
            spec.IsBuiltSince old self.now site key context tested.entry →
            spec.BuildsCondition old self.now site key context result }
    {
        let Some(arms) = arms_of(tested.get().last) else {
            return Err(refuse(tested, Rule::ValueEnd));
        };
        if !same_declaration(self.env, arms.test, tested.get().answer) {
            return Err(refuse(tested, Rule::Tested));
        }
        Ok(Boxed::new(self.alloc, Condition { tested, arms })?)
    }

    /// Builds the value from a block on, in the value of a terminal with that span; `is_test`: the test of an optional.
    ///
    /// `Malformed`, `Todo`, `BadName`: as for its blocks, its value terminals and their short arms.
    #[cycle(values)]
    fn build_value(
        &mut self,
        key: BlockId,
        around: Around,
        is_test: bool,
    ) -> Result<Boxed<BuiltValue<'g>>, Fault>
        requires { spec.CanBuildValue self.old.hir.now self.old.marks key }
        ensures { (site : Site) →
            spec.BuildsValue self.old self.new site key (steps.value_at around is_test) spec.any_end result }
    {
        let stack = self.stack;
        let mut pending = List::new(self.alloc);
        match self.build_rows(key, around, &mut pending) {
            Ok(at) => {
                self.stack = stack;
                self.build_back(pending, at, around, is_test)
            }
            Err(fault) => {
                let_go(pending);
                Err(fault)
            }
        }
    }

    /// Builds the rows of the blocks of a value from one on, but for its last block, which it returns. The rows are put
    /// into an empty list.
    ///
    /// `Malformed`, `Todo`, `BadName`: as for a block after which the value goes on.
    // Inlined, so that a level of nested values has a frame less; the list is the caller's, so that it isn't let go here.
    #[inline(always)]
    #[cycle(values)]
    fn build_rows(
        &mut self,
        key: BlockId,
        around: Around,
        pending: &mut List<Boxed<ValueRow>>,
    ) -> Result<BlockId, Fault>
        requires { spec.CanBuildValue self.old.hir.now self.old.marks key × (pending.old ≡ []) }
        ensures { (site : Site) (is_test : Bool) → Builds self.old self.new site
            (loops.IsAtEnd self.old self.new key around pending.new)
            (spec.HasNoValue self.old.hir.now self.old.env.now key (steps.value_at around is_test) spec.any_end
            self.old.marks.used) result }
    {
        let mut at = key;
        'rows: while let Some(step) = self.step_at(at) {
            let row = self.build_step(at, step, around)?;
            at = put_waiting(pending, row)?;
            self.stack = left_inside(self.stack, ROW_LEVEL)?;
        }
        Ok(at)
    }

    /// Builds the last block of a value, and puts the rows that wait before it, from the last to the first.
    ///
    /// `Malformed`, `Todo`, `BadName`: as for the last block and the short arms of the rows.
    // Not inlined, so that the frames of nested values have no room for it.
    #[inline(never)]
    fn build_back(
        &mut self,
        rows: List<Boxed<ValueRow>>,
        at: BlockId,
        around: Around,
        is_test: bool,
    ) -> Result<Boxed<BuiltValue<'g>>, Fault>
        requires { loops.CanBuildBack self.old rows at around }
        ensures { loops.BuildsBack self.old self.new rows at around is_test result }
    {
        let mut pending = rows;
        let mut built = self.build_last(at, around.handler)?;
        'back: while let Some(row) = pending.pop() {
            built = self.put_behind(row.into_inner(), built, is_test, around.handler)?;
        }
        Ok(Boxed::new(self.alloc, built)?)
    }

    /// The value of a row and of the built value after it, with the short arm of the row.
    ///
    /// `Malformed`, `BadName`: as for a short arm.
    fn put_behind(
        &mut self,
        row: ValueRow,
        built: BuiltValue<'g>,
        is_test: bool,
        handler: Option<BlockId>,
    ) -> Result<BuiltValue<'g>, Fault>
        requires { CanBuildShort self.old.hir.now self.old.marks row.short }
        ensures { (site : Site) (value : Value) (end : ValueEnd) →
            spec.IsBuilt self.old.hir.now value end built.entry →
            loops.PutsBehind self.old self.new site handler row is_test value end result }
    {
        let answers = row_answers(self.env, is_test, row.answer, built.value.get());
        let left_open = self.build_short_arm(
            row.next,
            handler,
            answers,
            row.short,
            built.left_open,
        )?;
        Ok(built.behind(self.alloc, row.rows, left_open)?)
    }
}

impl Showing {
    /// What is around the value in a loop at the site.
    fn around(self, site: Site) -> Around
        ensures { result ≡ steps.around_at self.span site }
    {
        Around {
            span: self.span,
            handler: site.handler,
        }
    }
}

impl TestArms {
    /// Whether the arms are these two blocks.
    fn are(self, consequent: BlockId, alternate: BlockId) -> bool
        ensures { result ≡ (same_id self.consequent consequent && same_id self.alternate alternate) }
    {
        self.consequent == consequent && self.alternate == alternate
    }
}

impl<'g> BuiltValue<'g> {
    /// Whether the graph goes on at the block after the value.
    // Not inlined, so that the frames of nested values have no room for what it reads.
    #[inline(never)]
    fn leads_to(&self, next: BlockId) -> bool
        ensures { result ≡ spec.goes_to self.now.last.now next }
    {
        goes_to(self.last, next)
    }

    /// The value after these rows, if there are any, with the arm that both leave open. The only error is out of
    /// memory.
    fn behind(
        self,
        alloc: Global,
        rows: List<ReactiveInstruction>,
        left_open: Option<ShortArm>,
    ) -> Result<BuiltValue<'g>, AllocError>
        ensures value { IfOk result (λ whole. whole.value ≡ behind_rows rows self.entry.id self.entry.value) }
        ensures end { IfOk result (spec.EndsAlike self.entry left_open) }
    {
        let BuiltValue {
            value,
            answer,
            id,
            block,
            last,
            ..
        } = self;
        Ok(BuiltValue {
            value: after_rows(alloc, rows, id, value)?,
            answer,
            id,
            block,
            last,
            left_open,
        })
    }

    /// The value as it is in a loop. The only error is out of memory.
    fn shown(self, alloc: Global, showing: Showing) -> Result<Boxed<ReactiveValue>, AllocError>
        ensures { (hir : HirFunction) (value : Value) (end : ValueEnd) → spec.IsBuilt hir value end self.entry →
            IfOk result (λ whole. whole ≡ value_of (loop_values.shown showing.flat showing.span end value)) }
    {
        let BuiltValue {
            value,
            answer,
            id,
            ..
        } = self;
        if showing.flat {
            flattened(alloc, value, answer, id, showing.span)
        } else {
            Ok(value)
        }
    }
}

/// The fault of a value whose last block breaks a rule; the value is let go.
// Not inlined, so that the frames of nested values have no room for what letting go takes.
#[inline(never)]
fn refuse(built: Boxed<BuiltValue<'_>>, rule: Rule) -> Fault
    ensures { result ≡ faults.Malformed built.entry.block rule }
{
    malformed(built.get().block, rule)
}

/// Appends a row to those that wait; returns where the value goes on after it. The only error is out of memory.
// Not inlined, so that the frames of nested values have no room for what letting the row go takes.
#[inline(never)]
fn put_waiting(
    pending: &mut List<Boxed<ValueRow>>,
    row: Boxed<ValueRow>,
) -> Result<BlockId, AllocError>
    ensures next { IfOk result (λ next. next ≡ row.next) }
    ensures put { IfOk result (λ _. pending.new ≡ pending.old ++ row ∷ []) }
{
    let next = row.get().next;
    pending.push(row)?;
    Ok(next)
}

/// Whether a row that answers with a place, before this value, answers the test that the whole is, if it is one.
fn row_answers(
    env: &Environment,
    is_test: bool,
    answer: Option<Place>,
    value: &ReactiveValue,
) -> bool
    ensures { (plain : Value) → value.now ≡ value_of plain → result ≡ loops.row_answers env.now is_test answer plain }
{
    match answer {
        Some(place) => is_test && answers_test(env, place, value),
        None => false,
    }
}

/// Whether the terminal goes to the block, by a `Goto` of any variant.
pub fn goes_to(terminal: &Terminal, next: BlockId) -> bool
    ensures { result ≡ spec.goes_to terminal.now next }
{
    match terminal {
        Terminal::Goto { block, .. } => *block == next,
        _ => false,
    }
}

/// The arms of the terminal, if it is a `Branch`.
fn arms_of(terminal: &Terminal) -> Option<TestArms>
    ensures { result ≡ spec.arms_of terminal.now }
{
    match terminal {
        Terminal::Branch {
            test,
            consequent,
            alternate,
            span,
            ..
        } => Some(TestArms {
            test: *test,
            consequent: *consequent,
            alternate: *alternate,
            span: *span,
        }),
        _ => None,
    }
}
