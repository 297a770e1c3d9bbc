//! The last block of a value: its rows compute it, and its terminal says where the graph goes on.
//!
//! After the value blocks of oxc's build_reactive_function.

ghost use Rattle.std.specs.Prelude.{◌≡◌, ◌∷◌, ◌++◌, [], List as Items, None, IfOk, IfErr, OnOk};
ghost use Rattle.rc_tree.specs.Model.{ReactiveInstruction as Made};
ghost use Rattle.rc_runs.specs.ListContext.{ValueContext};
ghost use Rattle.rc_build.specs.RuleFacts.{FaultFact};
ghost use Rattle.rc_build.specs.declared.builder.Site.{Site};
ghost use Rattle.rc_build.specs.inside.Built.{IfRefused};
ghost use Rattle.rc_build.specs.inside.Throws.{may_throw, throw_at};
ghost use Rattle.rc_build.specs.inside.ValueKinds.{value_terminal};
ghost use Rattle.rc_build.specs.inside.ValueRows.{AreListed, HasRows};
ghost use Rattle.rc_build.specs.inside.Values.{BuildsValue, any_end};
ghost use Rattle.rc_build.specs.inside.ValueEnds as spec;

use crate::blocks::{block_with_id, find_block};
use crate::builder::{Builder, malformed};
use crate::handlers::{MayThrow, is_current, may_throw};
use crate::places::block_from;
use crate::value_rows::{after_rows, last_answer, last_value, load, row_with_id, sequence_rows};
use crate::values::BuiltValue;
use rc_hir::{BasicBlock, Fault, Place, Rule, Terminal};
use rc_names::{BlockId, EvaluationOrder, InstructionId, List};

impl<'g> Builder<'g> {
    /// Builds the last block of a value, or the last two, where one that may throw is before the other.
    ///
    /// `Malformed`, `Todo`, `BadName`: as for a last block, or for one that may throw.
    pub fn build_last(
        &mut self,
        key: BlockId,
        handler: Option<BlockId>,
    ) -> Result<BuiltValue<'g>, Fault>
        requires { spec.CanBuildLast self.old.hir.now self.old.marks key }
        ensures { (site : Site) (context : ValueContext) → context.handler ≡ handler →
            BuildsValue self.old self.new site key context any_end result }
    {
        match self.throw_at(key) {
            Some(throw) => self.build_last_throw(key, throw, handler),
            None => self.build_end(key),
        }
    }

    /// Builds a block that may throw, before an empty last block to which it leads, and marks both.
    ///
    /// - `Malformed` with `Handler`: it names a handler that isn't the current one.
    /// - `Malformed` with `EmptyValue`: it has no rows.
    /// - `Malformed` with another rule, `BadName`: as for blocks of a list.
    fn build_last_throw(
        &mut self,
        key: BlockId,
        throw: MayThrow,
        handler: Option<BlockId>,
    ) -> Result<BuiltValue<'g>, Fault>
        requires { spec.CanBuildLastThrow self.old.hir.now self.old.marks key throw }
        ensures { (site : Site) (context : ValueContext) → context.handler ≡ handler →
            BuildsValue self.old self.new site key context any_end result }
    {
        let hir = self.hir;
        let place = self.next_place();
        let found = block_with_id(hir, key, place)?;
        if !is_current(throw.handler, handler) {
            return Err(malformed(key, Rule::Handler));
        }
        let behind = block_with_id(hir, throw.continuation, place.saturating_add(1))?;
        let Some((last, front)) = found.block.instructions.as_slice().split_last() else {
            return Err(malformed(key, Rule::EmptyValue));
        };
        let built = self.value_of_rows(
            key,
            front,
            *last,
            throw.continuation,
            &behind.block.terminal,
        )?;
        self.mark_block(key, found)?;
        self.mark_block(throw.continuation, behind)?;
        Ok(built)
    }

    /// What the block under a key says of throwing, if there is such a block and it may throw.
    fn throw_at(&self, key: BlockId) -> Option<MayThrow>
        ensures { result ≡ throw_at self.now.hir.now key }
    {
        match block_from(&self.hir.body.blocks, key, self.next_place()) {
            Some(block) => may_throw(&block.terminal),
            None => None,
        }
    }

    /// Builds the last block of a value, and marks it.
    ///
    /// - `Malformed` with `NotValue`: the block ends in a terminal that ends no value.
    /// - `Malformed` with `EmptyValue`: it has no rows, and ends in a `Goto`.
    /// - `Malformed` with another rule, `BadName`: as for a block of a list.
    /// - `Todo`: it ends in a `Label`.
    fn build_end(&mut self, key: BlockId) -> Result<BuiltValue<'g>, Fault>
        requires { spec.CanBuildEnd self.old.hir.now self.old.marks key }
        ensures { (site : Site) (context : ValueContext) →
            BuildsValue self.old self.new site key context any_end result }
    {
        let hir = self.hir;
        let found = find_block(hir, key, self.next_place())?;
        check_end(key, &found.block.terminal)?;
        let built = self.end_value(key, found.block)?;
        self.mark_block(key, found)?;
        Ok(built)
    }

    /// The value of a block that ends one.
    fn end_value(&self, key: BlockId, block: &'g BasicBlock) -> Result<BuiltValue<'g>, Fault>
        requires { spec.IsRead self.now.hir.now key block.now.terminal block.now.instructions }
        ensures ok { IfOk result (spec.IsValueOf self.now.hir.now self.now.env.now key block.now.terminal) }
        ensures refused { IfRefused result (spec.SpellsNoValue self.now.hir.now self.now.env.now key) }
        ensures facts { IfErr result (FaultFact self.now.hir.now) }
    {
        match block.instructions.as_slice().split_last() {
            Some((last, front)) => self.value_of_rows(key, front, *last, key, &block.terminal),
            None => self.named_test(key, &block.terminal),
        }
    }

    /// The value of these rows, which the block under the key lists; it ends with that block and terminal.
    fn value_of_rows(
        &self,
        key: BlockId,
        front: &[InstructionId],
        last: InstructionId,
        block: BlockId,
        terminal: &'g Terminal,
    ) -> Result<BuiltValue<'g>, Fault>
        requires { AreListed self.now.hir.now key (front.now ++ last ∷ []) }
        ensures ok { IfOk result (spec.IsValueOfRows self.now.hir.now self.now.env.now (front.now ++ last ∷ []) block
            terminal.now) }
        ensures refused { IfRefused result
            ((rows : Items Made) → HasRows self.now.hir.now (front.now ++ last ∷ []) rows → ⊥) }
        ensures facts { IfErr result (FaultFact self.now.hir.now) }
    {
        let row = row_with_id(self.hir, key, last)?;
        let rows = sequence_rows(self.alloc, self.hir, key, front)?;
        let value = last_value(self.alloc, self.env, row)?;
        Ok(BuiltValue {
            value: after_rows(self.alloc, rows, row.id, value)?,
            answer: last_answer(self.env, row),
            id: row.id,
            block,
            last: terminal,
            left_open: None,
        })
    }

    /// The value of a block without rows, which only names the place that its `Branch` tests.
    /// `Malformed` with `EmptyValue`: it ends in a `Goto`.
    fn named_test(&self, key: BlockId, terminal: &'g Terminal) -> Result<BuiltValue<'g>, Fault>
        requires { spec.IsRead self.now.hir.now key terminal.now [] }
        ensures ok { IfOk result (spec.IsValueOf self.now.hir.now self.now.env.now key terminal.now) }
        ensures refused { IfRefused result (spec.SpellsNoValue self.now.hir.now self.now.env.now key) }
        ensures facts { IfErr result (FaultFact self.now.hir.now) }
    {
        let Some(named) = place_named(terminal) else {
            return Err(malformed(key, Rule::EmptyValue));
        };
        Ok(BuiltValue {
            value: load(self.alloc, named.place)?,
            answer: named.place,
            id: named.id,
            block: key,
            last: terminal,
            left_open: None,
        })
    }
}

/// The place that a `Branch` tests, and the id of the `Branch`.
#[derive(Clone, Copy)]
struct NamedPlace {
    place: Place,
    id: EvaluationOrder,
}

/// The place that the terminal tests, if it is a `Branch`.
fn place_named(terminal: &Terminal) -> Option<NamedPlace>
    ensures { result ≡ spec.place_named terminal.now }
{
    match terminal {
        Terminal::Branch { test, id, .. } => Some(NamedPlace {
            place: *test,
            id: *id,
        }),
        _ => None,
    }
}

/// What a terminal is at the end of a value's block.
#[derive(Clone, Copy)]
enum ValueForm {
    /// It ends the value.
    Ends,
    /// It is a `Label`.
    Labels,
    /// No value has it at its end.
    NoValue,
}

/// Refuses a terminal that doesn't end a value, or has no id.
///
/// - `Malformed` with `UnsetId`: it has no id.
/// - `Malformed` with `NotValue`: no value has it.
/// - `Todo`: it is a `Label`.
fn check_end(key: BlockId, terminal: &Terminal) -> Result<(), Fault>
    requires { (value_terminal terminal.now ≡ None) × (may_throw terminal.now ≡ None) }
    ensures ok { OnOk result (spec.EndsValue terminal.now) }
    ensures refused { IfRefused result (spec.EndsValue terminal.now → ⊥) }
    ensures facts { IfErr result (spec.EndFault key terminal.now) }
{
    if terminal.evaluation_order().0 == 0 {
        return Err(malformed(key, Rule::UnsetId));
    }
    match value_form(terminal) {
        ValueForm::Ends => Ok(()),
        ValueForm::Labels => Err(Fault::Todo { block: key }),
        ValueForm::NoValue => Err(malformed(key, Rule::NotValue)),
    }
}

/// What the terminal is at the end of a value's block.
fn value_form(terminal: &Terminal) -> ValueForm
    ensures { result ≡ spec.value_form terminal.now }
{
    match terminal {
        Terminal::Branch { .. } | Terminal::Goto { .. } => ValueForm::Ends,
        Terminal::Label { .. } => ValueForm::Labels,
        Terminal::Logical { .. }
        | Terminal::Ternary { .. }
        | Terminal::Optional { .. }
        | Terminal::Sequence { .. }
        | Terminal::If { .. }
        | Terminal::Throw { .. }
        | Terminal::Return { .. }
        | Terminal::Switch { .. }
        | Terminal::DoWhile { .. }
        | Terminal::While { .. }
        | Terminal::For { .. }
        | Terminal::ForOf { .. }
        | Terminal::ForIn { .. }
        | Terminal::Unreachable { .. }
        | Terminal::MaybeThrow { .. }
        | Terminal::Scope { .. }
        | Terminal::PrunedScope { .. }
        | Terminal::Try { .. } => ValueForm::NoValue,
    }
}
