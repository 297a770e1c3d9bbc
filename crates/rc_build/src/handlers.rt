//! Blocks that may throw, and the handler that they name.

ghost use Rattle.std.specs.Prelude.{◌≡◌};
ghost use Rattle.rc_runs.specs.Graph as graph;
ghost use Rattle.rc_runs.specs.ListContext as contexts;
ghost use Rattle.rc_build.specs.TerminalForms as forms;
ghost use Rattle.rc_build.specs.inside.Throws as spec;

use crate::places::block_from;
use rc_hir::{HirFunction, Terminal};
use rc_names::BlockId;

/// How a block that may throw goes on, and the handler that it names, if it names one.
#[derive(Clone, Copy)]
pub struct MayThrow {
    pub continuation: BlockId,
    pub handler: Option<BlockId>,
}

/// What the terminal says of throwing, if it is a `MaybeThrow`.
pub fn may_throw(terminal: &Terminal) -> Option<MayThrow>
    ensures { result ≡ spec.may_throw terminal.now }
{
    match terminal {
        Terminal::MaybeThrow {
            continuation,
            handler,
            ..
        } => Some(MayThrow {
            continuation: *continuation,
            handler: *handler,
        }),
        _ => None,
    }
}

/// Whether the handler that a terminal names, if it names one, is the current one.
pub fn is_current(named: Option<BlockId>, current: Option<BlockId>) -> bool
    ensures { result ≡ contexts.is_current named current }
{
    match named {
        Some(handler) => current == Some(handler),
        None => true,
    }
}

/// Whether the block under a key, which may be at that place, is there, has no rows, and ends in a `Goto`.
pub fn is_empty_goto(hir: &HirFunction, key: BlockId, place: usize) -> bool
    ensures { result ≡ graph.is_empty_goto (graph.block_at hir.now key) }
{
    match block_from(&hir.body.blocks, key, place) {
        Some(block) => block.instructions.is_empty() && is_goto(&block.terminal),
        None => false,
    }
}

/// Whether the terminal is a `Goto`, of any variant.
fn is_goto(terminal: &Terminal) -> bool
    ensures { result ≡ forms.is_goto terminal.now }
{
    matches!(terminal, Terminal::Goto { .. })
}
