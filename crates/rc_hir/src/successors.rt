//! The successors of a terminal: the blocks to which it leads.

ghost use Rattle.std.specs.Prelude.{◌≡◌, ◌++◌, [], IsNone, Some};
ghost use Rattle.std.specs.List.{list_any};
ghost use Rattle.std.specs.Option.{option_to_list};
ghost use Rattle.rc_hir.specs.Successors as blocks;

use crate::terminal::{Case, Terminal};
use rc_names::BlockId;

/// The blocks to which a terminal leads: those of its cases, and up to two others. It is a view of the terminal, so
/// that nobody needs memory to ask.
#[derive(Clone, Copy)]
pub struct Successors<'t> {
    pub cases: &'t [Case],
    pub first: Option<BlockId>,
    pub second: Option<BlockId>,
}

impl Terminal {
    /// The blocks to which the terminal leads: those of a switch's cases, then `first`, then `second`. There is no
    /// second without a first.
    pub fn successors(&self) -> Successors<'_>
        ensures blocks { blocks.case_blocks result.cases.now ++ option_to_list result.first
            ++ option_to_list result.second ≡ blocks.successors self.now }
        ensures cases { result.cases.now ≡ blocks.cases_of self.now }
        ensures first { IsNone result.first → IsNone result.second }
    {
        match self {
            Terminal::If {
                consequent,
                alternate,
                ..
            }
            | Terminal::Branch {
                consequent,
                alternate,
                ..
            } => both(*consequent, Some(*alternate)),
            Terminal::MaybeThrow {
                continuation,
                handler,
                ..
            } => both(*continuation, *handler),
            Terminal::Switch {
                cases,
                fallthrough,
                ..
            } => of_cases(cases.as_slice(), *fallthrough),
            Terminal::Logical { test: block, .. }
            | Terminal::Ternary { test: block, .. }
            | Terminal::Optional { test: block, .. }
            | Terminal::Sequence { block, .. }
            | Terminal::Goto { block, .. }
            | Terminal::DoWhile {
                loop_block: block,
                ..
            }
            | Terminal::While { test: block, .. }
            | Terminal::For { init: block, .. }
            | Terminal::ForOf { init: block, .. }
            | Terminal::ForIn { init: block, .. }
            | Terminal::Label { block, .. }
            | Terminal::Scope { block, .. }
            | Terminal::PrunedScope { block, .. }
            | Terminal::Try { block, .. } => both(*block, None),
            Terminal::Throw { .. } | Terminal::Return { .. } | Terminal::Unreachable { .. } => {
                Successors {
                    cases: &[],
                    first: None,
                    second: None,
                }
            }
        }
    }
}

/// One block, and perhaps another.
fn both<'t>(first: BlockId, second: Option<BlockId>) -> Successors<'t>
    ensures blocks { blocks.case_blocks result.cases.now ++ option_to_list result.first
        ++ option_to_list result.second ≡ option_to_list (Some first) ++ option_to_list second }
    ensures cases { result.cases.now ≡ [] }
    ensures first { result.first ≡ Some first }
{
    Successors {
        cases: &[],
        first: Some(first),
        second,
    }
}

/// The blocks of a switch's cases, and its fallthrough where no case is the default.
fn of_cases(cases: &[Case], fallthrough: BlockId) -> Successors<'_>
    ensures blocks { blocks.case_blocks result.cases.now ++ option_to_list result.first
        ++ option_to_list result.second
        ≡ blocks.case_blocks cases.now ++ option_to_list (blocks.block_past cases.now fallthrough) }
    ensures cases { result.cases.now ≡ cases.now }
    ensures first { IsNone result.second }
{
    let first = if has_default(cases) {
        None
    } else {
        Some(fallthrough)
    };
    Successors {
        cases,
        first,
        second: None,
    }
}

/// Whether one of the cases is the default, which has no test.
fn has_default(cases: &[Case]) -> bool
    ensures { result ≡ list_any blocks.is_default cases.now }
{
    cases.iter().any(|case| case.test.is_none())
}
