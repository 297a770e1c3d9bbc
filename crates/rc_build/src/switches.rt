//! Switches: their cases are built from the last to the first, each inside the frames of those after it.

ghost use Rattle.std.specs.Prelude.{◌≡◌, ◌↔◌, ◌&&◌, ◌||◌, ◌++◌, ◌∷◌, [], Option, is_some, not};
ghost use Rattle.std.specs.Prelude.{List as Entries, IfOk, IfSome, IsNone, OnOk};
ghost use Rattle.std.specs.List.{list_any};
ghost use Rattle.rc_names.specs.declared.span.Span.{Span};
ghost use Rattle.rc_hir.specs.Model.{Case};
ghost use Rattle.rc_hir.specs.Successors as successors;
ghost use Rattle.rc_hir.specs.declared.terminal.Terminal.TheVariants as terminals;
ghost use Rattle.rc_tree.specs.declared.terminal.ReactiveTerminal.TheVariants as tree;
ghost use Rattle.rc_runs.specs.SwitchCases as spec;
ghost use Rattle.rc_runs.specs.Frames.{is_jump_target};
ghost use Rattle.rc_runs.specs.declared.frames.Frame.TheVariants.{Mark};
ghost use Rattle.rc_runs.specs.Fallthrough as fallthroughs;
ghost use Rattle.rc_build.specs.inside.CanBuild.{CanBuildTerminal};
ghost use Rattle.rc_build.specs.inside.Depths.{frames_inside};
ghost use Rattle.rc_build.specs.inside.Setting.{marked_setting, part_setting, setting_of};
ghost use Rattle.rc_build.specs.inside.Setting as settings;
ghost use Rattle.rc_build.specs.inside.Switches.{BuildsCases, CanBuildCases};
ghost use Rattle.rc_build.specs.inside.Switches as switches;
ghost use Rattle.rc_build.specs.inside.Task.{FromTerminal, left};
ghost use Rattle.rc_build.specs.inside.Built.{BuildsTask};

use crate::builder::{Builder, Site, falls_to, label_at, let_go, malformed, put_terminal};
use rc_hir::{Case, Fault, Place, Rule};
use rc_names::{BlockId, EvaluationOrder, List};
use rc_runs::Frame;
use rc_tree::{
    ReactiveBlock, ReactiveLabel, ReactiveStatement, ReactiveSwitchCase, ReactiveTerminal,
};
use std::alloc::{AllocError, Global};

impl<'g> Builder<'g> {
    /// Builds a switch, where a default that leads straight to a fallthrough which a jump can name gives no case;
    /// returns where the list goes on.
    ///
    /// - `Malformed` with `SwitchCase`: two cases are defaults, or a case with a test leads straight to the
    ///   fallthrough.
    /// - `Malformed` with `FallsElsewhere`: no default is left, and leaving the switch leads elsewhere.
    // Not inlined, so that the frames of other statements have no room for its parts.
    #[inline(never)]
    #[cycle(builder)]
    pub fn build_switch(
        &mut self,
        site: Site,
        test: &Place,
        cases: &List<Case>,
        fallthrough: BlockId,
        id: EvaluationOrder,
    ) -> Result<Option<BlockId>, Fault>
        requires { (span : Option Span) × CanBuildTerminal self.old.hir.now self.old.marks site.handler self.old.frames
            site.block (terminals.Switch test.now cases.now fallthrough id span) }
        ensures { (span : Option Span) → BuildsTask self.old self.new site
            (FromTerminal (terminals.Switch test.now cases.now fallthrough id span)) left result }
    {
        if has_odd_cases(cases, fallthrough) {
            return Err(malformed(site.block, Rule::SwitchCase));
        }
        let opened = self.open_reachable(fallthrough);
        let is_target = self.is_target_inside(fallthrough, opened);
        let mut kept = kept_cases(self.alloc, cases, fallthrough, is_target)?;
        if leaves_elsewhere(&kept, fallthrough, opened, site.next) {
            return Err(malformed(site.block, Rule::FallsElsewhere));
        }
        let frame = Frame::Switch { block: fallthrough };
        let mut parts = List::new(self.alloc);
        match self.build_cases_inside(site, &mut kept, frame, opened, &mut parts) {
            Ok(()) => {
                put_switch(self.alloc, &mut self.out, test, parts, id, label_at(opened))?;
                Ok(opened)
            }
            Err(fault) => {
                let_go(parts);
                Err(fault)
            }
        }
    }

    /// Whether a jump in the cases of a switch can name its fallthrough.
    fn is_target_inside(&self, fallthrough: BlockId, opened: Option<BlockId>) -> bool
        ensures { result ≡ (is_some opened || is_jump_target self.now.frames fallthrough) }
    {
        opened.is_some() || self.frames.is_jump_target(fallthrough)
    }

    /// Builds the cases of a switch inside its frame, where its fallthrough is opened, as `build_cases` does.
    #[cycle(builder)]
    fn build_cases_inside(
        &mut self,
        site: Site,
        kept: &mut List<Case>,
        frame: Frame,
        opened: Option<BlockId>,
        parts: &mut List<ReactiveSwitchCase>,
    ) -> Result<(), Fault>
        requires { CanBuildCases self.old.hir.now self.old.marks site.handler
            (Mark ∷ frames_inside opened frame self.old.frames) kept.old × (parts.old ≡ []) }
        ensures { let inside = marked_setting (part_setting opened frame (setting_of self.old site)) in
            BuildsCases self.old self.new site inside kept.old parts.new result }
    {
        self.frames.enter(frame, opened)?;
        self.frames.push(Frame::Mark)?;
        self.build_cases(site.inside(site.block, frame, opened), kept, parts)?;
        self.frames.pop();
        self.frames.leave(opened);
        Ok(())
    }

    /// Builds cases from the last to the first: takes each out of one list, and puts the case of the tree into another.
    /// Each falls into the one after it, whose frame is around it.
    // Both lists are the caller's, so that there is room for them once a level.
    #[cycle(builder)]
    fn build_cases(
        &mut self,
        site: Site,
        kept: &mut List<Case>,
        parts: &mut List<ReactiveSwitchCase>,
    ) -> Result<(), Fault>
        requires { CanBuildCases self.old.hir.now self.old.marks site.handler self.old.frames kept.old
            × (parts.old ≡ []) }
        ensures { BuildsCases self.old self.new site (setting_of self.old site) kept.old parts.new result }
    {
        let mut next = site.next;
        'cases: while let Some(block) = last_block(kept) {
            let here = Site {
                block,
                next,
                handler: site.handler,
            };
            let statements = self.build_apart(here)?;
            // Before the frame is pushed, so that no statement is dropped here when memory runs out.
            put_case(parts, kept, statements)?;
            self.frames.push(Frame::Case { block })?;
            next = Some(block);
        }
        self.frames.pop_many(parts.len());
        parts.reverse();
        Ok(())
    }
}

/// Whether no switch may have the cases: two are defaults, or one with a test leads straight to the fallthrough.
// It isn't inlined, nor are the other functions that go over all cases: the frames of nested switches have no room for
// what they read.
#[inline(never)]
fn has_odd_cases(cases: &List<Case>, fallthrough: BlockId) -> bool
    ensures { result ≡ (not (spec.has_one_default cases.now) || spec.tests_past fallthrough cases.now) }
{
    !has_one_default(cases) || tests_past(cases, fallthrough)
}

/// Whether a switch has no default among the kept cases, and leaving it leads elsewhere than to its fallthrough.
#[inline(never)]
fn leaves_elsewhere(
    kept: &List<Case>,
    fallthrough: BlockId,
    opened: Option<BlockId>,
    next: Option<BlockId>,
) -> bool
    ensures { result ≡ not (list_any successors.is_default kept.now
        || fallthroughs.falls_to (is_some opened) fallthrough next) }
{
    !(has_default(kept) || falls_to(opened, fallthrough, next))
}

/// Whether at most one case is a default.
fn has_one_default(cases: &List<Case>) -> bool
    ensures { result ≡ spec.has_one_default cases.now }
{
    let mut found = false;
    for case in cases.as_slice() {
        if repeats_default(*case, found) {
            return false;
        }
        found = finds_default(*case, found);
    }
    true
}

/// Whether the case is a default, and one is found already.
fn repeats_default(case: Case, found: bool) -> bool
    ensures { result ≡ (successors.is_default case && found) }
{
    case.test.is_none() && found
}

/// Whether the case is a default, or one is found already.
fn finds_default(case: Case, found: bool) -> bool
    ensures { result ≡ (found || successors.is_default case) }
{
    found || case.test.is_none()
}

/// Whether a case with a test leads straight to the fallthrough.
fn tests_past(cases: &List<Case>, fallthrough: BlockId) -> bool
    ensures { result ≡ spec.tests_past fallthrough cases.now }
{
    cases
        .as_slice()
        .iter()
        .any(|case| case.test.is_some() && case.block == fallthrough)
}

/// Whether one of the cases is a default.
fn has_default(cases: &List<Case>) -> bool
    ensures { result ≡ list_any successors.is_default cases.now }
{
    cases.as_slice().iter().any(|case| case.test.is_none())
}

/// The cases that are kept. The only error is out of memory.
#[inline(never)]
fn kept_cases(
    alloc: Global,
    cases: &List<Case>,
    fallthrough: BlockId,
    is_target: bool,
) -> Result<List<Case>, AllocError>
    ensures { IfOk result (λ kept. kept ≡ spec.kept_cases is_target fallthrough cases.now) }
{
    let mut kept = List::new(alloc);
    for case in cases.as_slice() {
        if is_kept(*case, fallthrough, is_target) {
            kept.push(*case)?;
        }
    }
    Ok(kept)
}

/// Whether a case is kept: it isn't a default that leads straight to a fallthrough which a jump can name.
fn is_kept(case: Case, fallthrough: BlockId, is_target: bool) -> bool
    ensures { result ≡ spec.is_kept is_target fallthrough case }
{
    !(case.test.is_none() && case.block == fallthrough && is_target)
}

/// The block of the last case, if there is one.
fn last_block(cases: &List<Case>) -> Option<BlockId>
    ensures none { IsNone result ↔ (cases.now ≡ []) }
    ensures last { IfSome result (switches.EndsAt cases.now) }
{
    let last = cases.as_slice().last()?;
    Some(last.block)
}

/// Takes the last case out of a list, and appends the case of the tree with its test. The only error is out of memory.
// Not inlined, so that the frames of nested switches have no room for a case.
#[inline(never)]
fn put_case(
    parts: &mut List<ReactiveSwitchCase>,
    cases: &mut List<Case>,
    statements: List<ReactiveStatement>,
) -> Result<(), AllocError>
    ensures { (front : Entries Case) (last : Case) → cases.old ≡ front ++ last ∷ []
        → OnOk result (switches.TakesCase front last statements parts.old parts.new cases.new) }
{
    let Some(case) = cases.pop() else {
        return Ok(());
    };
    parts.push(ReactiveSwitchCase {
        test: case.test,
        block: Some(ReactiveBlock { statements }),
    })
}

/// Appends the statement of a switch. The only error is out of memory.
#[inline(never)]
fn put_switch(
    alloc: Global,
    out: &mut List<ReactiveStatement>,
    test: &Place,
    cases: List<ReactiveSwitchCase>,
    id: EvaluationOrder,
    label: Option<ReactiveLabel>,
) -> Result<(), AllocError>
    ensures { OnOk result (out.new ≡ out.old
        ++ settings.terminal_statement (tree.Switch test.now cases id) label ∷ []) }
{
    let terminal = ReactiveTerminal::Switch {
        test: *test,
        cases,
        id,
    };
    put_terminal(alloc, out, terminal, label)
}
