//! Statements that choose between arms: `If`, and `Branch` in a list.

ghost use Rattle.std.specs.Prelude.{◌≡◌, ◌&&◌, ◌++◌, ◌∷◌, [], Option, OnOk, is_some, not};
ghost use Rattle.rc_names.specs.Numbers.{BlockId, same_id};
ghost use Rattle.rc_names.specs.declared.span.Span.{Span};
ghost use Rattle.rc_hir.specs.declared.terminal.Terminal.TheVariants as terminals;
ghost use Rattle.rc_tree.specs.declared.terminal.ReactiveTerminal.TheVariants as tree;
ghost use Rattle.rc_runs.specs.Fallthrough.{falls_to};
ghost use Rattle.rc_runs.specs.declared.frames.Frame.TheVariants as frame_kinds;
ghost use Rattle.rc_build.specs.inside.Depths.{frames_inside};
ghost use Rattle.rc_build.specs.inside.CanBuild.{CanBuildList, CanBuildTerminal};
ghost use Rattle.rc_build.specs.inside.Setting.{part_setting, setting_of};
ghost use Rattle.rc_build.specs.inside.Task.{FromTerminal, SpellsAlternate, SpellsConsequent, left, progress_of};
ghost use Rattle.rc_build.specs.inside.Built.{Builds, BuildsTask, BuiltAlternate, BuiltConsequent, Refused};
ghost use Rattle.rc_build.specs.inside.Setting as settings;

use crate::builder::{Builder, Site, falls_to, label_at, let_go, malformed, put_terminal};
use rc_hir::{Fault, Place, Rule};
use rc_names::{BlockId, EvaluationOrder, List};
use rc_runs::Frame;
use rc_tree::{ReactiveBlock, ReactiveLabel, ReactiveStatement, ReactiveTerminal};
use std::alloc::{AllocError, Global};
use std::mem;

impl<'g> Builder<'g> {
    /// Builds an if, where an alternate that is the fallthrough gives none; returns where the list goes on.
    /// `Malformed` with `FallsElsewhere`: there is no alternate, and leaving the if leads elsewhere.
    // Not inlined, so that the frames of other statements have no room for its parts.
    #[inline(never)]
    #[cycle(builder)]
    pub fn build_if(
        &mut self,
        site: Site,
        test: &Place,
        consequent: BlockId,
        alternate: BlockId,
        fallthrough: BlockId,
        id: EvaluationOrder,
    ) -> Result<Option<BlockId>, Fault>
        requires { (span : Option Span) × CanBuildTerminal self.old.hir.now self.old.marks site.handler self.old.frames
            site.block (terminals.If test.now consequent alternate fallthrough id span) }
        ensures { (span : Option Span) → BuildsTask self.old self.new site
            (FromTerminal (terminals.If test.now consequent alternate fallthrough id span)) left result }
    {
        let opened = self.open_reachable(fallthrough);
        if falls_elsewhere(alternate, fallthrough, opened, site.next) {
            return Err(malformed(site.block, Rule::FallsElsewhere));
        }
        let frame = Frame::Statement { block: fallthrough };
        let part = self.build_part(site, consequent, frame, opened)?;
        match self.build_alternate(site, alternate, fallthrough, opened) {
            Ok(other) => {
                let label = label_at(opened);
                put_if(self.alloc, &mut self.out, test, part, other, id, label)?;
                Ok(opened)
            }
            Err(fault) => {
                let_go(part);
                Err(fault)
            }
        }
    }

    /// Builds a branch in a list: an if without a label, whose arms are in the context of the list; it ends the list.
    ///
    /// - `Malformed` with `BreakTarget`: a jump can name the alternate.
    /// - `Malformed`, as for a break: a jump can name the consequent.
    // Not inlined, so that the frames of other statements have no room for its parts.
    #[inline(never)]
    #[cycle(builder)]
    pub fn build_branch(
        &mut self,
        site: Site,
        test: &Place,
        consequent: BlockId,
        alternate: BlockId,
        id: EvaluationOrder,
    ) -> Result<Option<BlockId>, Fault>
        requires { (span : Option Span) × CanBuildTerminal self.old.hir.now self.old.marks site.handler self.old.frames
            site.block (terminals.Branch test.now consequent alternate id span) }
        ensures { (span : Option Span) → BuildsTask self.old self.new site
            (FromTerminal (terminals.Branch test.now consequent alternate id span)) left result }
    {
        if self.frames.is_jump_target(alternate) {
            return Err(malformed(site.block, Rule::BreakTarget));
        }
        let part = self.build_consequent(site, consequent, id)?;
        let statements = self.build_apart(site.at(alternate))?;
        let other = Some(ReactiveBlock { statements });
        put_if(self.alloc, &mut self.out, test, part, other, id, None)?;
        Ok(None)
    }

    /// Builds the list of a branch's consequent: a break to it where a jump can name it.
    #[cycle(builder)]
    fn build_consequent(
        &mut self,
        site: Site,
        consequent: BlockId,
        id: EvaluationOrder,
    ) -> Result<List<ReactiveStatement>, Fault>
        requires { (test : Place) × (alternate : BlockId) × (span : Option Span) ×
            CanBuildTerminal self.old.hir.now self.old.marks site.handler self.old.frames
            site.block (terminals.Branch test consequent alternate id span) }
        ensures { Builds self.old self.new site
            (λ list. BuiltConsequent (setting_of self.old site) consequent id list (progress_of self.old)
            (progress_of self.new))
            (Refused self.old.hir.now (SpellsConsequent (setting_of self.old site) consequent id) self.old.marks.used)
            result }
    {
        if self.frames.is_jump_target(consequent) {
            let outer = self.out.take();
            self.put_break(site, consequent, id)?;
            return Ok(mem::replace(&mut self.out, outer));
        }
        self.build_apart(site.at(consequent))
    }

    /// Builds the list of an alternate; none where it is the fallthrough.
    // Not inlined, so that the frame of a consequent has no room for it.
    #[inline(never)]
    #[cycle(builder)]
    fn build_alternate(
        &mut self,
        site: Site,
        alternate: BlockId,
        fallthrough: BlockId,
        opened: Option<BlockId>,
    ) -> Result<Option<ReactiveBlock>, Fault>
        requires { CanBuildList self.old.hir.now self.old.marks site.handler
            (frames_inside opened (frame_kinds.Statement fallthrough) self.old.frames) alternate }
        ensures { let inside = part_setting opened (frame_kinds.Statement fallthrough) (setting_of self.old site) in
            Builds self.old self.new site
            (λ other. BuiltAlternate inside alternate fallthrough other (progress_of self.old) (progress_of self.new))
            (Refused self.old.hir.now (SpellsAlternate inside alternate fallthrough) self.old.marks.used) result }
    {
        if alternate == fallthrough {
            return Ok(None);
        }
        let frame = Frame::Statement { block: fallthrough };
        let statements = self.build_part(site, alternate, frame, opened)?;
        Ok(Some(ReactiveBlock { statements }))
    }
}

/// Whether an if has no alternate, and leaving it leads elsewhere than to its fallthrough.
fn falls_elsewhere(
    alternate: BlockId,
    fallthrough: BlockId,
    opened: Option<BlockId>,
    next: Option<BlockId>,
) -> bool
    ensures { result ≡ (same_id alternate fallthrough && not (falls_to (is_some opened) fallthrough next)) }
{
    alternate == fallthrough && !falls_to(opened, fallthrough, next)
}

/// Appends the statement of an if. The only error is out of memory.
#[inline(never)]
fn put_if(
    alloc: Global,
    out: &mut List<ReactiveStatement>,
    test: &Place,
    consequent: List<ReactiveStatement>,
    alternate: Option<ReactiveBlock>,
    id: EvaluationOrder,
    label: Option<ReactiveLabel>,
) -> Result<(), AllocError>
    ensures { OnOk result (out.new ≡ out.old ++ settings.terminal_statement
        (tree.If test.now (record { statements = consequent }) alternate id) label ∷ []) }
{
    let terminal = ReactiveTerminal::If {
        test: *test,
        consequent: ReactiveBlock {
            statements: consequent,
        },
        alternate,
        id,
    };
    put_terminal(alloc, out, terminal, label)
}
