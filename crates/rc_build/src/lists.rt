//! Lists: blocks that follow each other, by a loop, and the parts of statements, by a nested call.

ghost use Rattle.std.specs.Prelude.{◌≡◌, ◌<◌, IfOk, length};
ghost use Rattle.rc_build.specs.inside.Depths.{frames_inside};
ghost use Rattle.rc_build.specs.inside.CanBuild.{CanBuildList, CanBuildTerminal};
ghost use Rattle.rc_build.specs.inside.Setting.{part_setting, setting_of};
ghost use Rattle.rc_build.specs.inside.Task.{FromBlock, FromTerminal, Nothing, Spells, left, progress_of};
ghost use Rattle.rc_build.specs.inside.Built.{Builds, BuildsList, BuildsTask, BuiltList, Refused};

use crate::builder::{Builder, Site, let_go};
use crate::enclosures::Enclosure;
use crate::nesting::{STATEMENT_LEVEL, left_inside};
use rc_hir::{Fault, Terminal};
use rc_names::{BlockId, List};
use rc_runs::Frame;
use rc_tree::ReactiveStatement;
use std::mem;

impl<'g> Builder<'g> {
    /// Builds the list from the site's block on.
    #[cycle(builder)]
    pub fn build_list(&mut self, site: Site) -> Result<(), Fault>
        requires { CanBuildList self.old.hir.now self.old.marks site.handler self.old.frames site.block }
        ensures { BuildsTask self.old self.new site (FromBlock site.block) (λ _. Nothing) result }
    {
        let mut at = Some(site.block);
        'list: while let Some(block) = at {
            at = self.build_block(site.at(block))?;
        }
        Ok(())
    }

    /// Builds the statements of the site's block; returns where the list goes on.
    #[cycle(builder)]
    fn build_block(&mut self, site: Site) -> Result<Option<BlockId>, Fault>
        requires { CanBuildList self.old.hir.now self.old.marks site.handler self.old.frames site.block }
        ensures builds { BuildsTask self.old self.new site (FromBlock site.block) left result }
        ensures more { IfOk result (λ _. length self.old.marks.used < length self.new.marks.used) }
    {
        let terminal = self.take_block(site)?;
        self.build_terminal(site, terminal)
    }

    /// Builds the statement of a block's terminal, if it has one; returns where the list goes on.
    #[cycle(builder)]
    fn build_terminal(&mut self, site: Site, terminal: &Terminal) -> Result<Option<BlockId>, Fault>
        requires { CanBuildTerminal self.old.hir.now self.old.marks site.handler self.old.frames site.block
            terminal.now }
        ensures { BuildsTask self.old self.new site (FromTerminal terminal.now) left result }
    {
        match terminal {
            Terminal::Return { value, id, .. } => self.build_return(site, value, *id),
            Terminal::Throw { value, id, .. } => self.build_throw(site, value, *id),
            Terminal::Unreachable { .. } => Ok(None),
            Terminal::Goto {
                block,
                variant,
                id,
                ..
            } => self.build_goto(site, *block, *variant, *id),
            Terminal::If {
                test,
                consequent,
                alternate,
                fallthrough,
                id,
                ..
            } => self.build_if(site, test, *consequent, *alternate, *fallthrough, *id),
            Terminal::Branch {
                test,
                consequent,
                alternate,
                id,
                ..
            } => self.build_branch(site, test, *consequent, *alternate, *id),
            Terminal::Switch {
                test,
                cases,
                fallthrough,
                id,
                ..
            } => self.build_switch(site, test, cases, *fallthrough, *id),
            Terminal::Label {
                block,
                fallthrough,
                id,
                ..
            } => self.build_enclosure(site, Enclosure::Label, *block, *fallthrough, *id),
            Terminal::Scope {
                fallthrough,
                block,
                scope,
                id,
                ..
            } => {
                self.build_enclosure(
                    site,
                    Enclosure::Scope { scope: *scope },
                    *block,
                    *fallthrough,
                    *id,
                )
            }
            Terminal::PrunedScope {
                fallthrough,
                block,
                scope,
                id,
                ..
            } => {
                let enclosure = Enclosure::PrunedScope { scope: *scope };
                self.build_enclosure(site, enclosure, *block, *fallthrough, *id)
            }
            Terminal::Try {
                block,
                handler_binding,
                handler,
                fallthrough,
                id,
                ..
            } => self.build_try(site, *block, handler_binding, *handler, *fallthrough, *id),
            Terminal::MaybeThrow {
                continuation,
                handler,
                ..
            } => self.build_maybe_throw(site, *continuation, *handler),
            Terminal::DoWhile { .. }
            | Terminal::While { .. }
            | Terminal::For { .. }
            | Terminal::ForOf { .. }
            | Terminal::ForIn { .. } => self.build_loop(site, terminal),
            Terminal::Logical { .. }
            | Terminal::Ternary { .. }
            | Terminal::Optional { .. }
            | Terminal::Sequence { .. } => self.build_row_of(site, terminal),
        }
    }

    /// Builds the list of a part of a statement, inside one more frame where the statement's fallthrough is opened.
    // Inlined, so that a level of nested statements has a frame less.
    #[inline(always)]
    #[cycle(builder)]
    pub fn build_part(
        &mut self,
        site: Site,
        part: BlockId,
        frame: Frame,
        opened: Option<BlockId>,
    ) -> Result<List<ReactiveStatement>, Fault>
        requires { CanBuildList self.old.hir.now self.old.marks site.handler
            (frames_inside opened frame self.old.frames) part }
        ensures { Builds self.old self.new site
            (λ list. BuiltList (part_setting opened frame (setting_of self.old site)) part list
            (progress_of self.old) (progress_of self.new))
            (Refused self.old.hir.now (Spells (part_setting opened frame (setting_of self.old site)) (FromBlock part))
            self.old.marks.used) result }
    {
        self.frames.enter(frame, opened)?;
        let list = self.build_apart(site.inside(part, frame, opened))?;
        self.frames.leave(opened);
        Ok(list)
    }

    /// Builds the list from the site's block on, apart from the statements in front of it, a level deeper.
    // Inlined, so that a level of nested statements has a frame less.
    #[inline(always)]
    #[cycle(builder)]
    pub fn build_apart(&mut self, site: Site) -> Result<List<ReactiveStatement>, Fault>
        requires { CanBuildList self.old.hir.now self.old.marks site.handler self.old.frames site.block }
        ensures { BuildsList self.old self.new site site.block result }
    {
        let stack = self.stack;
        self.stack = left_inside(stack, STATEMENT_LEVEL)?;
        let outer = self.out.take();
        match self.build_list(site) {
            Ok(()) => {
                self.stack = stack;
                Ok(mem::replace(&mut self.out, outer))
            }
            Err(fault) => {
                let_go(outer);
                Err(fault)
            }
        }
    }
}
