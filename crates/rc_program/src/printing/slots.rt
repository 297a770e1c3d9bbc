//! The slots of the scope blocks in a memo cache, a line each.

ghost use Rattle.std.specs.Prelude.{◌≡◌, ◌++◌, IfOk, OnOk, flat_map};
ghost use Rattle.rc_program.specs.SlotLines.{scope_slots_line, slot_lines};

use rc_lines::{Page, write_number};
use rc_slots::{ScopeSlots, SlotPlan};
use std::alloc::{AllocError, Global};

/// The lines of a plan. Fails only when out of memory.
pub fn slot_lines(alloc: Global, plan: &SlotPlan) -> Result<Page, AllocError>
    ensures { IfOk result (λ page. page ≡ slot_lines plan.now) }
{
    let mut page = Page::new(alloc);
    write_scopes(&mut page, plan.scopes.as_slice())?;
    write_number(&mut page, "total ", plan.total)?;
    page.push("\n")?;
    Ok(page)
}

/// A line for each scope block.
fn write_scopes(page: &mut Page, scopes: &[ScopeSlots]) -> Result<(), AllocError>
    ensures { OnOk result (page.new ≡ page.old ++ flat_map scope_slots_line scopes.now) }
{
    for entry in scopes {
        write_scope(page, *entry)?;
    }
    Ok(())
}

/// The line of a scope block.
#[tactic(auto, unfolding(crate::specs::SlotLines::scope_slots_line))]
fn write_scope(page: &mut Page, entry: ScopeSlots) -> Result<(), AllocError>
    ensures { OnOk result (page.new ≡ page.old ++ scope_slots_line entry) }
{
    write_number(page, "scope ", entry.scope.0)?;
    write_number(page, " first ", entry.first)?;
    write_number(page, " dependencies ", entry.dependencies)?;
    write_number(page, " declarations ", entry.declarations)?;
    write_number(page, " reassignments ", entry.reassignments)?;
    page.push("\n")
}
