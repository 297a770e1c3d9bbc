//! Tries, whose block the handler protects, and blocks in a list that may throw.

ghost use Rattle.std.specs.Prelude.{◌≡◌, ◌++◌, ◌∷◌, [], Option, OnOk};
ghost use Rattle.rc_names.specs.Numbers.{EvaluationOrder};
ghost use Rattle.rc_names.specs.declared.span.Span.{Span};
ghost use Rattle.rc_hir.specs.declared.terminal.Terminal.TheVariants as terminals;
ghost use Rattle.rc_tree.specs.declared.terminal.ReactiveTerminal.TheVariants as tree;
ghost use Rattle.rc_build.specs.inside.CanBuild.{CanBuildTerminal};
ghost use Rattle.rc_build.specs.inside.Setting as settings;
ghost use Rattle.rc_build.specs.inside.Task.{FromTerminal, left};
ghost use Rattle.rc_build.specs.inside.Built.{BuildsTask};

use crate::builder::{Builder, Site, is_next, label_at, let_go, malformed, put_terminal};
use crate::handlers::is_current;
use rc_hir::{Fault, Place, Rule};
use rc_names::{BlockId, EvaluationOrder, List};
use rc_runs::Frame;
use rc_tree::{ReactiveBlock, ReactiveLabel, ReactiveStatement, ReactiveTerminal};
use std::alloc::{AllocError, Global};

impl<'g> Builder<'g> {
    /// Builds a try, whose handler protects its block and not itself; returns where the list goes on.
    // Not inlined, so that the frames of other statements have no room for its parts.
    #[inline(never)]
    #[cycle(builder)]
    pub fn build_try(
        &mut self,
        site: Site,
        part: BlockId,
        binding: &Option<Place>,
        handler: BlockId,
        fallthrough: BlockId,
        id: EvaluationOrder,
    ) -> Result<Option<BlockId>, Fault>
        requires { (span : Option Span) × CanBuildTerminal self.old.hir.now self.old.marks site.handler self.old.frames
            site.block (terminals.Try part binding.now handler fallthrough id span) }
        ensures { (span : Option Span) → BuildsTask self.old self.new site
            (FromTerminal (terminals.Try part binding.now handler fallthrough id span)) left result }
    {
        let opened = self.open_reachable(fallthrough);
        let frame = Frame::Statement { block: fallthrough };
        let block = self.build_part(site.protected_by(handler), part, frame, opened)?;
        match self.build_part(site, handler, frame, opened) {
            Ok(other) => {
                let label = label_at(opened);
                put_try(self.alloc, &mut self.out, block, binding, other, id, label)?;
                Ok(opened)
            }
            Err(fault) => {
                let_go(block);
                Err(fault)
            }
        }
    }

    /// Builds nothing of a block that may throw; returns where the list goes on, unless falling off reaches that.
    /// `Malformed` with `Handler`: the block names a handler that isn't the current one.
    pub fn build_maybe_throw(
        &self,
        site: Site,
        continuation: BlockId,
        named: Option<BlockId>,
    ) -> Result<Option<BlockId>, Fault>
        requires { (id : EvaluationOrder) × (span : Option Span) × CanBuildTerminal self.now.hir.now self.now.marks
            site.handler self.now.frames site.block (terminals.MaybeThrow continuation named id span) }
        ensures { (id : EvaluationOrder) (span : Option Span) → BuildsTask self.now self.now site
            (FromTerminal (terminals.MaybeThrow continuation named id span)) left result }
    {
        if !is_current(named, site.handler) {
            return Err(malformed(site.block, Rule::Handler));
        }
        if is_next(site.next, continuation) {
            Ok(None)
        } else {
            Ok(Some(continuation))
        }
    }
}

/// Appends the statement of a try. The only error is out of memory.
#[inline(never)]
fn put_try(
    alloc: Global,
    out: &mut List<ReactiveStatement>,
    block: List<ReactiveStatement>,
    handler_binding: &Option<Place>,
    handler: List<ReactiveStatement>,
    id: EvaluationOrder,
    label: Option<ReactiveLabel>,
) -> Result<(), AllocError>
    ensures { OnOk result (out.new ≡ out.old ++ settings.terminal_statement
        (tree.Try (record { statements = block }) handler_binding.now (record { statements = handler }) id) label
        ∷ []) }
{
    let terminal = ReactiveTerminal::Try {
        block: ReactiveBlock { statements: block },
        handler_binding: *handler_binding,
        handler: ReactiveBlock {
            statements: handler,
        },
        id,
    };
    put_terminal(alloc, out, terminal, label)
}
