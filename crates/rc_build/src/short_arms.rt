//! Silent arms: chains of blocks without events, which only lead past what a value leaves out.

ghost use Rattle.std.specs.Prelude.{◌≡◌, IfErr, OnOk, drop};
ghost use Rattle.rc_runs.specs.Silent as silent;
ghost use Rattle.rc_runs.specs.ShortArms.{SpellsShortArm};
ghost use Rattle.rc_build.specs.RuleFacts.{FaultFact};
ghost use Rattle.rc_build.specs.declared.builder.Site.{Site};
ghost use Rattle.rc_build.specs.inside.Built.{Builds, IfRefused, Refused};
ghost use Rattle.rc_build.specs.inside.SilentArms.{AreArmBlocks, AreArmRows, ArmBlockBuilt, ArmBuilt, CanBuildArm};
ghost use Rattle.rc_build.specs.inside.SilentArms.{CanCheckBlock, CanCheckSilent, HasNoArm, HasSilentRows, IsArmBlock};
ghost use Rattle.rc_build.specs.inside.Task.{progress_of};
ghost use Rattle.rc_build.specs.inside.ShortArms.{CanBuildShort, ShortBuilt, alternate_of};

use crate::blocks::block_with_id;
use crate::builder::{Builder, malformed};
use crate::handlers::{is_current, may_throw};
use crate::value_rows::{is_unnamed, row_with_id};
use crate::value_terminals::value_terminal;
use crate::values::goes_to;
use rc_hir::{Environment, Fault, InstructionValue, PrimitiveValue, Rule};
use rc_names::{BlockId, InstructionId};

/// The arm of an optional's short end, and the block of the `Branch` of which it is the alternate.
#[derive(Clone, Copy)]
pub struct ShortArm {
    pub alternate: BlockId,
    pub branch: BlockId,
}

impl<'g> Builder<'g> {
    /// Builds the short arm of a value terminal, if it has one and the value doesn't answer a test; returns the arm
    /// that is left to the test, where the value after the terminal leaves one open or this one does.
    ///
    /// `Malformed`, `BadName`: as for a silent arm.
    pub fn build_short_arm(
        &mut self,
        next: BlockId,
        handler: Option<BlockId>,
        answers: bool,
        short: Option<ShortArm>,
        behind: Option<ShortArm>,
    ) -> Result<Option<ShortArm>, Fault>
        requires { CanBuildShort self.old.hir.now self.old.marks short }
        ensures { (site : Site) → Builds self.old self.new site
            (λ left. ShortBuilt self.old.hir.now self.old.env.now handler next answers short behind left
            (progress_of self.old) (progress_of self.new))
            (Refused self.old.hir.now (SpellsShortArm self.old.hir.now self.old.env.now handler next answers
            (alternate_of short) (alternate_of behind)) self.old.marks.used) result }
    {
        let Some(arm) = short else {
            return Ok(behind);
        };
        if answers {
            return Ok(short);
        }
        self.build_silent_arm(arm.alternate, next, handler)?;
        Ok(behind)
    }

    /// Marks the blocks of a silent arm, after which the graph goes on at the next block.
    ///
    /// - `Malformed` with `LoudArm`: a row of them isn't silent, or they go on elsewhere.
    /// - `Malformed` with `Handler`: one of them names a handler that isn't the current one.
    /// - `Malformed` with another rule, `BadName`: as for blocks of a value.
    fn build_silent_arm(
        &mut self,
        arm: BlockId,
        next: BlockId,
        handler: Option<BlockId>,
    ) -> Result<(), Fault>
        requires { CanBuildArm self.old.hir.now self.old.marks arm arm }
        ensures { (site : Site) → Builds self.old self.new site
            (λ _. ArmBuilt self.old.hir.now self.old.env.now handler next arm (progress_of self.old) (progress_of self.new))
            (HasNoArm self.old.hir.now self.old.env.now handler next arm self.old.marks.used) result }
    {
        let mut at = Some(arm);
        'chain: while let Some(key) = at {
            at = self.build_arm_block(arm, key, next, handler)?;
        }
        Ok(())
    }

    /// Marks a block of a silent arm; returns where the arm goes on, if this isn't its last block.
    ///
    /// - `Malformed` with `LoudArm`: a row of it isn't silent, or it goes on elsewhere.
    /// - `Malformed` with `Handler`: it names a handler that isn't the current one.
    /// - `Malformed` with another rule, `BadName`: as for a block of a value.
    fn build_arm_block(
        &mut self,
        arm: BlockId,
        key: BlockId,
        next: BlockId,
        handler: Option<BlockId>,
    ) -> Result<Option<BlockId>, Fault>
        requires { CanBuildArm self.old.hir.now self.old.marks arm key }
        ensures { (site : Site) → Builds self.old self.new site
            (λ rest. ArmBlockBuilt self.old.hir.now self.old.env.now handler next key rest (progress_of self.old)
            (progress_of self.new))
            (HasNoArm self.old.hir.now self.old.env.now handler next key self.old.marks.used) result }
    {
        let hir = self.hir;
        let found = block_with_id(hir, key, self.next_place())?;
        self.check_silent_rows(arm, key, found.block.instructions.as_slice())?;
        if let Some(throw) = may_throw(&found.block.terminal) {
            if !is_current(throw.handler, handler) {
                return Err(malformed(key, Rule::Handler));
            }
            self.mark_block(key, found)?;
            return Ok(Some(throw.continuation));
        }
        if !goes_to(&found.block.terminal, next) {
            return Err(malformed(arm, Rule::LoudArm));
        }
        self.mark_block(key, found)?;
        Ok(None)
    }

    /// Refuses a value at the arm if its blocks, which were marked after the first `before` ones, are no silent arm.
    /// `Malformed` with `LoudArm`: a row of them isn't silent, or one ends in a value terminal.
    // Not inlined, so that the frames of nested values have no room for what it reads.
    #[inline(never)]
    pub fn check_silent_since(&self, before: usize, arm: BlockId) -> Result<(), Fault>
        requires { CanCheckSilent self.now.hir.now self.now.marks arm }
        ensures ok { OnOk result (AreArmBlocks self.now.hir.now self.now.env.now (drop before self.now.marks.used)) }
        ensures refused { IfRefused result
            (AreArmBlocks self.now.hir.now self.now.env.now (drop before self.now.marks.used) → ⊥) }
        ensures facts { IfErr result (FaultFact self.now.hir.now) }
    {
        for place in before..self.marks.used.len() {
            if let Some(key) = self.marks.used.get(place).copied() {
                self.check_arm_block(arm, key, place)?;
            }
        }
        Ok(())
    }

    /// Refuses a value's block at the arm, which may be at that place, if a silent arm can't have it. `Malformed` with
    /// `LoudArm`: a row of it isn't silent, or it ends in a value terminal.
    fn check_arm_block(&self, arm: BlockId, key: BlockId, place: usize) -> Result<(), Fault>
        requires { CanCheckBlock self.now.hir.now arm key }
        ensures ok { OnOk result (IsArmBlock self.now.hir.now self.now.env.now key) }
        ensures refused { IfRefused result (IsArmBlock self.now.hir.now self.now.env.now key → ⊥) }
        ensures facts { IfErr result (FaultFact self.now.hir.now) }
    {
        let found = block_with_id(self.hir, key, place)?;
        self.check_silent_rows(arm, key, found.block.instructions.as_slice())?;
        if value_terminal(&found.block.terminal).is_some() {
            return Err(malformed(arm, Rule::LoudArm));
        }
        Ok(())
    }

    /// Refuses rows of the block under the key that aren't silent, in an arm that must be. `Malformed` with `LoudArm`:
    /// one isn't; otherwise as for a row.
    fn check_silent_rows(
        &self,
        arm: BlockId,
        key: BlockId,
        numbers: &[InstructionId],
    ) -> Result<(), Fault>
        requires { AreArmRows self.now.hir.now arm key numbers.now }
        ensures ok { OnOk result (HasSilentRows self.now.hir.now self.now.env.now numbers.now) }
        ensures refused { IfRefused result (HasSilentRows self.now.hir.now self.now.env.now numbers.now → ⊥) }
        ensures facts { IfErr result (FaultFact self.now.hir.now) }
    {
        for number in numbers {
            let row = row_with_id(self.hir, key, *number)?;
            if !is_silent(self.env, &row.value) {
                return Err(malformed(arm, Rule::LoudArm));
            }
        }
        Ok(())
    }
}

/// Whether a value has no event.
#[tactic(auto, unfolding(rc_runs::specs::Silent::is_silent_value))]
fn is_silent(env: &Environment, value: &InstructionValue) -> bool
    ensures { result ≡ silent.is_silent_value env.now value.now }
{
    match value {
        InstructionValue::LoadLocal { .. }
        | InstructionValue::StartMemoize { .. }
        | InstructionValue::FinishMemoize { .. } => true,
        InstructionValue::StoreLocal { lvalue, .. } => is_unnamed(env, lvalue.place),
        InstructionValue::Primitive { value, .. } => matches!(value, PrimitiveValue::Undefined),
        _ => false,
    }
}
