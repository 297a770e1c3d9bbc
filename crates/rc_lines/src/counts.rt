//! The counts of a graph and of its result, one a line.

ghost use Rattle.std.specs.Prelude.{◌≡◌, ◌++◌, IfOk, OnOk, count_by};
ghost use Rattle.rc_lines.specs.Counts.{count_line, count_lines, fate_count, first_fate_lines, is_of_kind};
ghost use Rattle.rc_lines.specs.Counts.{last_fate_lines, size_lines};

use crate::page::Page;
use crate::statement_count::statement_count;
use rc_hir::HirFunction;
use rc_names::List;
use rc_tree::{Fate, ReactiveFunction, ScopeFate};
use std::alloc::{AllocError, Global};

/// A fate without the scope that another one went into.
#[derive(Clone, Copy, Debug, PartialEq, Eq)]
pub enum FateKind {
    Kept,
    NotEscaping,
    Unused,
    Merged,
    Dissolved,
    AlwaysInvalidating,
}

/// The counts of a graph's blocks, of the statements of its answer, and of the scopes with each kind of fate. Fails
/// only when out of memory.
pub fn count_lines(
    alloc: Global,
    hir: &HirFunction,
    func: &ReactiveFunction,
    fates: &List<ScopeFate>,
) -> Result<Page, AllocError>
    ensures { IfOk result (λ page. page ≡ count_lines hir.now func.now fates.now) }
{
    let mut page = Page::new(alloc);
    write_sizes(&mut page, hir, func)?;
    write_first_fates(&mut page, fates.as_slice())?;
    write_last_fates(&mut page, fates.as_slice())?;
    Ok(page)
}

fn write_sizes(
    page: &mut Page,
    hir: &HirFunction,
    func: &ReactiveFunction,
) -> Result<(), AllocError>
    ensures { OnOk result (page.new ≡ page.old ++ size_lines hir.now func.now) }
{
    write_count(page, "blocks", hir.body.blocks.len())?;
    write_count(page, "statements", statement_count(func)?)
}

fn write_first_fates(page: &mut Page, fates: &[ScopeFate]) -> Result<(), AllocError>
    ensures { OnOk result (page.new ≡ page.old ++ first_fate_lines fates.now) }
{
    write_count(page, "kept", fate_count(fates, FateKind::Kept))?;
    write_count(
        page,
        "not-escaping",
        fate_count(fates, FateKind::NotEscaping),
    )?;
    write_count(page, "unused", fate_count(fates, FateKind::Unused))
}

fn write_last_fates(page: &mut Page, fates: &[ScopeFate]) -> Result<(), AllocError>
    ensures { OnOk result (page.new ≡ page.old ++ last_fate_lines fates.now) }
{
    write_count(page, "merged", fate_count(fates, FateKind::Merged))?;
    write_count(page, "dissolved", fate_count(fates, FateKind::Dissolved))?;
    write_count(
        page,
        "always-invalidating",
        fate_count(fates, FateKind::AlwaysInvalidating),
    )
}

/// A number after its name. Fails only when out of memory: nothing that is counted fills 2^32 places.
fn write_count(page: &mut Page, name: &str, count: usize) -> Result<(), AllocError>
    ensures { OnOk result (page.new ≡ page.old ++ count_line name.now count) }
{
    let Ok(count) = u32::try_from(count) else {
        return Err(AllocError);
    };
    page.push(name)?;
    page.push(" ")?;
    page.number(count)?;
    page.push("\n")
}

/// The number of scopes with a fate of that kind.
fn fate_count(fates: &[ScopeFate], kind: FateKind) -> usize
    ensures { result ≡ fate_count kind fates.now }
{
    fates
        .iter()
        .filter(|entry| is_of_kind(kind, entry.fate))
        .count()
}

fn is_of_kind(kind: FateKind, fate: Fate) -> bool
    ensures { result ≡ is_of_kind kind fate }
{
    match fate {
        Fate::Kept => matches!(kind, FateKind::Kept),
        Fate::NotEscaping => matches!(kind, FateKind::NotEscaping),
        Fate::Unused => matches!(kind, FateKind::Unused),
        Fate::MergedInto(_) => matches!(kind, FateKind::Merged),
        Fate::DissolvedInto(_) => matches!(kind, FateKind::Dissolved),
        Fate::AlwaysInvalidating => matches!(kind, FateKind::AlwaysInvalidating),
    }
}
