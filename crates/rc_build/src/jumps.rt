//! Statements that end a list: returns, throws, breaks and continues.

ghost use Rattle.std.specs.Prelude.{◌≡◌, true, false, Option, None, IfOk, IfErr};
ghost use Rattle.rc_hir.specs.declared.fault.Fault.TheVariants as faults;
ghost use Rattle.rc_hir.specs.declared.fault.Rule.TheVariants as rules;
ghost use Rattle.rc_names.specs.declared.span.Span.{Span};
ghost use Rattle.rc_hir.specs.Model.{Terminal};
ghost use Rattle.rc_hir.specs.declared.terminal.GotoVariant.TheVariants as variants;
ghost use Rattle.rc_hir.specs.declared.terminal.Terminal.TheVariants as terminals;
ghost use Rattle.rc_runs.specs.Frames.{resolve_break};
ghost use Rattle.rc_runs.specs.Fallthrough.{is_next};
ghost use Rattle.rc_runs.specs.SimpleStatements.{break_statements};
ghost use Rattle.rc_build.specs.inside.CanBuild.{CanBreak, CanBuildTerminal};
ghost use Rattle.rc_build.specs.inside.Task.{FromTerminal, left};
ghost use Rattle.rc_build.specs.inside.Built.{Builds, BuildsTask, PutsBreak};

use crate::builder::{Builder, Site, is_next, malformed, put_terminal};
use rc_hir::{Fault, GotoVariant, Place, Rule};
use rc_names::{BlockId, EvaluationOrder};
use rc_runs::{BreakResult, ContinueResult};
use rc_tree::ReactiveTerminal;

impl<'g> Builder<'g> {
    /// Builds a return, which ends the list. The only error is out of memory.
    // Not inlined, so that the frames of other statements have no room for it, as with throws and jumps.
    #[inline(never)]
    pub fn build_return(
        &mut self,
        site: Site,
        value: &Place,
        id: EvaluationOrder,
    ) -> Result<Option<BlockId>, Fault>
        requires { (span : Option Span) × CanBuildTerminal self.old.hir.now self.old.marks site.handler self.old.frames
            site.block (terminals.Return value.now id span) }
        ensures { (span : Option Span) → BuildsTask self.old self.new site
            (FromTerminal (terminals.Return value.now id span)) left result }
    {
        let terminal = ReactiveTerminal::Return { value: *value, id };
        put_terminal(self.alloc, &mut self.out, terminal, None)?;
        Ok(None)
    }

    /// Builds a throw, which ends the list. `Malformed` with `ThrowInTry`: a handler protects the list.
    #[inline(never)]
    pub fn build_throw(
        &mut self,
        site: Site,
        value: &Place,
        id: EvaluationOrder,
    ) -> Result<Option<BlockId>, Fault>
        requires { (span : Option Span) × CanBuildTerminal self.old.hir.now self.old.marks site.handler self.old.frames
            site.block (terminals.Throw value.now id span) }
        ensures { (span : Option Span) → BuildsTask self.old self.new site
            (FromTerminal (terminals.Throw value.now id span)) left result }
    {
        if site.handler.is_some() {
            return Err(malformed(site.block, Rule::ThrowInTry));
        }
        let terminal = ReactiveTerminal::Throw { value: *value, id };
        put_terminal(self.alloc, &mut self.out, terminal, None)?;
        Ok(None)
    }

    /// Builds the statement of a jump, if it has one, and ends the list.
    ///
    /// `Malformed`: as for a break, a continue, or the jump out of a try.
    #[inline(never)]
    pub fn build_goto(
        &mut self,
        site: Site,
        target: BlockId,
        variant: GotoVariant,
        id: EvaluationOrder,
    ) -> Result<Option<BlockId>, Fault>
        requires { (span : Option Span) × CanBuildTerminal self.old.hir.now self.old.marks site.handler self.old.frames
            site.block (terminals.Goto target variant id span) }
        ensures { (span : Option Span) → BuildsTask self.old self.new site
            (FromTerminal (terminals.Goto target variant id span)) left result }
    {
        match variant {
            GotoVariant::Break => self.build_break(site, target, id),
            GotoVariant::Continue => self.build_continue(site, target, id),
            GotoVariant::Try => leave_try(site, target),
        }
    }

    /// Builds the statement of a break, if it has one, and ends the list. `Malformed`: as for `put_break`.
    fn build_break(
        &mut self,
        site: Site,
        target: BlockId,
        id: EvaluationOrder,
    ) -> Result<Option<BlockId>, Fault>
        requires { (span : Option Span) × CanBuildTerminal self.old.hir.now self.old.marks site.handler self.old.frames
            site.block (terminals.Goto target variants.Break id span) }
        ensures { (span : Option Span) → BuildsTask self.old self.new site
            (FromTerminal (terminals.Goto target variants.Break id span)) left result }
    {
        self.put_break(site, target, id)?;
        Ok(None)
    }

    /// Puts the statement of a break out of the site's block, if it has one.
    ///
    /// - `Malformed` with `BreakTarget`: the target is no frame's block.
    /// - `Malformed` with `ScopeBreak` or `CaseLabel`: it would leave a scope, or name a later case, from further
    ///   inside.
    pub fn put_break(
        &mut self,
        site: Site,
        target: BlockId,
        id: EvaluationOrder,
    ) -> Result<(), Fault>
        requires { (terminal : Terminal) × CanBreak self.old.hir.now self.old.marks self.old.frames site.block terminal
            target }
        ensures { Builds self.old self.new site (λ _. PutsBreak self.old self.new target id)
            (break_statements (resolve_break self.old.frames target) target id ≡ None) result }
    {
        match self.frames.resolve_break(target) {
            BreakResult::NoFrame => Err(malformed(site.block, Rule::BreakTarget)),
            BreakResult::LeavesScope => Err(malformed(site.block, Rule::ScopeBreak)),
            BreakResult::LeavesCase => Err(malformed(site.block, Rule::CaseLabel)),
            BreakResult::FallsOff => Ok(()),
            BreakResult::Breaks(target_kind) => {
                let terminal = ReactiveTerminal::Break {
                    target,
                    target_kind,
                    id,
                };
                put_terminal(self.alloc, &mut self.out, terminal, None)?;
                Ok(())
            }
        }
    }

    /// Builds a continue, which ends the list. `Malformed` with `ContinueTarget`: no loop around it has the target as
    /// its continue block.
    fn build_continue(
        &mut self,
        site: Site,
        target: BlockId,
        id: EvaluationOrder,
    ) -> Result<Option<BlockId>, Fault>
        requires { (span : Option Span) × CanBuildTerminal self.old.hir.now self.old.marks site.handler self.old.frames
            site.block (terminals.Goto target variants.Continue id span) }
        ensures { (span : Option Span) → BuildsTask self.old self.new site
            (FromTerminal (terminals.Goto target variants.Continue id span)) left result }
    {
        match self.frames.resolve_continue(target) {
            ContinueResult::NoLoop => Err(malformed(site.block, Rule::ContinueTarget)),
            ContinueResult::Continues { target, kind } => {
                let terminal = ReactiveTerminal::Continue {
                    target,
                    target_kind: kind,
                    id,
                };
                put_terminal(self.alloc, &mut self.out, terminal, None)?;
                Ok(None)
            }
        }
    }
}

/// Ends a list by the jump out of a try, which has no statement. `Malformed` with `GotoTry`: it leads elsewhere than
/// falling off does.
fn leave_try(site: Site, target: BlockId) -> Result<Option<BlockId>, Fault>
    ensures left { IfOk result (λ goes_on. (goes_on ≡ None) × (is_next site.next target ≡ true)) }
    ensures refused { IfErr result (λ fault. (fault ≡ faults.Malformed site.block rules.GotoTry)
        × (is_next site.next target ≡ false)) }
{
    if !is_next(site.next, target) {
        return Err(malformed(site.block, Rule::GotoTry));
    }
    Ok(None)
}
