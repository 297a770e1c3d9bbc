//! Blocks that end in `Unreachable`, and terminals that lead to one.

ghost use Rattle.std.specs.Prelude.{◌≡◌, ◌++◌, true, false};
ghost use Rattle.std.specs.List.{list_any};
ghost use Rattle.std.specs.Option.{option_to_list};
ghost use Rattle.rc_hir.specs.Successors.{case_blocks};
ghost use Rattle.rc_runs.specs.Graph as graph;
ghost use Rattle.rc_runs.specs.GraphRun.{HasNoUnreachableSuccessor};
ghost use Rattle.rc_build.specs.RuleFacts.{HasUnreachableSuccessor};

use crate::places::block_from;
use rc_hir::{Case, HirFunction, Successors, Terminal};
use rc_names::BlockId;

/// Whether the block under a key, which may be at that place, ends in `Unreachable`.
pub fn ends_unreachable(hir: &HirFunction, key: BlockId, place: usize) -> bool
    ensures { result ≡ graph.ends_unreachable hir.now key }
{
    match block_from(&hir.body.blocks, key, place) {
        None => false,
        Some(block) => matches!(block.terminal, Terminal::Unreachable { .. }),
    }
}

/// Whether a successor of the terminal, which may be at that place, ends in `Unreachable`.
pub fn has_unreachable_successor(hir: &HirFunction, terminal: &Terminal, place: usize) -> bool
    ensures yes { result ≡ true → HasUnreachableSuccessor hir.now terminal.now }
    ensures no { result ≡ false → HasNoUnreachableSuccessor hir.now terminal.now }
{
    any_ends(hir, terminal.successors(), place)
}

/// Whether one of these blocks, which may be at that place, ends in `Unreachable`.
fn any_ends(hir: &HirFunction, blocks: Successors<'_>, place: usize) -> bool
    ensures { result ≡ list_any (graph.ends_unreachable hir.now)
        (case_blocks blocks.entry.cases.now ++ option_to_list blocks.entry.first
        ++ option_to_list blocks.entry.second) }
{
    case_ends(hir, blocks.cases, place) || options_end(hir, blocks.first, blocks.second, place)
}

/// Whether the block of a case, which may be at that place, ends in `Unreachable`.
fn case_ends(hir: &HirFunction, cases: &[Case], place: usize) -> bool
    ensures { result ≡ list_any (λ case. graph.ends_unreachable hir.now case.block) cases.now }
{
    cases
        .iter()
        .any(|case| ends_unreachable(hir, case.block, place))
}

/// Whether one of two blocks that may be left out, and may be at that place, ends in `Unreachable`.
fn options_end(
    hir: &HirFunction,
    first: Option<BlockId>,
    second: Option<BlockId>,
    place: usize,
) -> bool
    ensures { result ≡ list_any (graph.ends_unreachable hir.now) (option_to_list first ++ option_to_list second) }
{
    option_ends(hir, first, place) || option_ends(hir, second, place)
}

/// Whether there is a block, which may be at that place, and it ends in `Unreachable`.
fn option_ends(hir: &HirFunction, block: Option<BlockId>, place: usize) -> bool
    ensures { result ≡ list_any (graph.ends_unreachable hir.now) (option_to_list block) }
{
    match block {
        None => false,
        Some(block) => ends_unreachable(hir, block, place),
    }
}
