//! The fate of each scope, a line each.

ghost use Rattle.std.specs.Prelude.{◌≡◌, ◌++◌, IfOk, OnOk, decimal};
ghost use Rattle.rc_lines.specs.FunctionLines.{fate_text, scope_fate_text, fate_lines};

use crate::page::Page;
use rc_names::{List, ScopeId};
use rc_tree::{Fate, ScopeFate};
use std::alloc::{AllocError, Global};

/// The lines of the fates alone. Fails only when out of memory.
pub fn fates_alone(alloc: Global, fates: &List<ScopeFate>) -> Result<Page, AllocError>
    ensures { IfOk result (λ page. page ≡ fate_lines fates.now 0) }
{
    let mut page = Page::new(alloc);
    write_fates(&mut page, fates.as_slice(), 0)?;
    Ok(page)
}

/// A line for each scope, indented by that many spaces.
pub fn write_fates(page: &mut Page, fates: &[ScopeFate], indent: usize) -> Result<(), AllocError>
    ensures { OnOk result (page.new ≡ page.old ++ fate_lines fates.now indent) }
{
    for scope in fates {
        page.indent(indent)?;
        write_scope_fate(page, *scope)?;
        page.push("\n")?;
    }
    Ok(())
}

/// A scope and its fate.
pub fn write_scope_fate(page: &mut Page, scope: ScopeFate) -> Result<(), AllocError>
    ensures { OnOk result (page.new ≡ page.old ++ scope_fate_text scope) }
{
    page.push("scope ")?;
    page.number(scope.scope.0)?;
    page.push(" ")?;
    write_fate(page, scope.fate)
}

fn write_fate(page: &mut Page, fate: Fate) -> Result<(), AllocError>
    ensures { OnOk result (page.new ≡ page.old ++ fate_text fate) }
{
    match fate {
        Fate::Kept => page.push("kept"),
        Fate::NotEscaping => page.push("not-escaping"),
        Fate::Unused => page.push("unused"),
        Fate::MergedInto(scope) => write_into(page, "merged into ", scope),
        Fate::DissolvedInto(scope) => write_into(page, "dissolved into ", scope),
        Fate::AlwaysInvalidating => page.push("always-invalidating"),
    }
}

/// A name with the scope that another one went into.
fn write_into(page: &mut Page, name: &str, scope: ScopeId) -> Result<(), AllocError>
    ensures { OnOk result (page.new ≡ page.old ++ (name.now ++ decimal scope.0)) }
{
    page.push(name)?;
    page.number(scope.0)
}
