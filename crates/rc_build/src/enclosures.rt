//! Statements with one part: labels, and the blocks of scopes, kept or pruned.

ghost use Rattle.std.specs.Prelude.{◌≡◌, ◌++◌, ◌∷◌, [], Option, OnOk};
ghost use Rattle.rc_names.specs.declared.span.Span.{Span};
ghost use Rattle.rc_build.specs.inside.CanBuild.{CanBuildTerminal};
ghost use Rattle.rc_build.specs.inside.Setting.{open_block};
ghost use Rattle.rc_build.specs.inside.Task.{FromTerminal, left};
ghost use Rattle.rc_build.specs.inside.Built.{BuildsTask};
ghost use Rattle.rc_build.specs.inside.Enclosures as spec;

use crate::builder::{Builder, Site, label_at, put_terminal};
use rc_hir::Fault;
use rc_names::{BlockId, EvaluationOrder, List, ScopeId};
use rc_runs::Frame;
use rc_tree::{
    PrunedReactiveScopeBlock, ReactiveBlock, ReactiveLabel, ReactiveScopeBlock, ReactiveStatement,
    ReactiveTerminal,
};
use std::alloc::{AllocError, Global};

/// A statement with one part.
#[derive(Clone, Copy)]
pub enum Enclosure {
    Label,
    Scope { scope: ScopeId },
    /// A scope that the graph has pruned already.
    PrunedScope { scope: ScopeId },
}

impl Enclosure {
    /// The frame of the part.
    fn frame(self, fallthrough: BlockId) -> Frame
        ensures { result ≡ spec.frame_of self fallthrough }
    {
        match self {
            Enclosure::Label => Frame::Statement { block: fallthrough },
            Enclosure::Scope { .. } | Enclosure::PrunedScope { .. } => Frame::Scope {
                block: fallthrough,
            },
        }
    }

    /// Appends the statement around a part; scopes have no label. The only error is out of memory.
    #[inline(never)]
    fn put(
        self,
        alloc: Global,
        out: &mut List<ReactiveStatement>,
        part: List<ReactiveStatement>,
        id: EvaluationOrder,
        label: Option<ReactiveLabel>,
    ) -> Result<(), AllocError>
        ensures { OnOk result (out.new ≡ out.old ++ spec.statement_around self part id label ∷ []) }
    {
        let block = ReactiveBlock { statements: part };
        match self {
            Enclosure::Label => put_terminal(
                alloc,
                out,
                ReactiveTerminal::Label { block, id },
                label,
            ),
            Enclosure::Scope { scope } => out.push(ReactiveStatement::Scope(ReactiveScopeBlock {
                scope,
                instructions: block,
            })),
            Enclosure::PrunedScope { scope } => out.push(ReactiveStatement::PrunedScope(
                PrunedReactiveScopeBlock {
                    scope,
                    instructions: block,
                },
            )),
        }
    }
}

impl<'g> Builder<'g> {
    /// Builds a statement with one part; returns where the list goes on.
    // Not inlined, so that the frames of other statements have no room for its parts.
    #[inline(never)]
    #[cycle(builder)]
    pub fn build_enclosure(
        &mut self,
        site: Site,
        enclosure: Enclosure,
        part: BlockId,
        fallthrough: BlockId,
        id: EvaluationOrder,
    ) -> Result<Option<BlockId>, Fault>
        requires { (span : Option Span) × CanBuildTerminal self.old.hir.now self.old.marks site.handler
            self.old.frames site.block (spec.terminal_around enclosure part fallthrough id span) }
        ensures { (span : Option Span) → BuildsTask self.old self.new site
            (FromTerminal (spec.terminal_around enclosure part fallthrough id span)) left result }
    {
        let opened = self.open_around(enclosure, fallthrough);
        let body = self.build_part(site, part, enclosure.frame(fallthrough), opened)?;
        enclosure.put(self.alloc, &mut self.out, body, id, label_at(opened))?;
        Ok(opened)
    }

    /// The fallthrough, where it is opened.
    fn open_around(&self, enclosure: Enclosure, fallthrough: BlockId) -> Option<BlockId>
        ensures { result ≡
            open_block (spec.is_opened enclosure self.now.hir.now self.now.frames fallthrough) fallthrough }
    {
        match enclosure {
            Enclosure::Label => self.open_reachable(fallthrough),
            Enclosure::Scope { .. } | Enclosure::PrunedScope { .. } => self.open(fallthrough),
        }
    }
}
