//! A whole function: its header, its body, and the fates of its scopes.

ghost use Rattle.std.specs.Prelude.{◌≡◌, ◌++◌, IfOk, OnOk};
ghost use Rattle.rc_lines.specs.FunctionLines.{marks_text, name_text, param_text, param_lines, directive_lines};
ghost use Rattle.rc_lines.specs.FunctionLines.{header_lines, lines_of};

use crate::fates::write_fates;
use crate::page::Page;
use crate::statement::write_block;
use crate::text::{write_bool, write_json, write_span};
use rc_hir::ParamPattern;
use rc_names::{List, Text};
use rc_tree::{ReactiveFunction, ScopeFate};
use std::alloc::{AllocError, Global};

/// The printed lines of a function and of the fates of its scopes. Fails only when out of memory.
pub fn lines(
    alloc: Global,
    func: &ReactiveFunction,
    fates: &List<ScopeFate>,
) -> Result<Text, AllocError>
    ensures { IfOk result (λ text. text ≡ lines_of func.now fates.now) }
{
    tree_page(alloc, func, fates)?.finish()
}

/// The page of these lines. Fails only when out of memory.
pub fn tree_page(
    alloc: Global,
    func: &ReactiveFunction,
    fates: &List<ScopeFate>,
) -> Result<Page, AllocError>
    ensures { IfOk result (λ page. page ≡ lines_of func.now fates.now) }
{
    let mut page = Page::new(alloc);
    write_header(&mut page, func)?;
    page.push("body\n")?;
    write_block(&mut page, &func.body, 2)?;
    page.push("fates\n")?;
    write_fates(&mut page, fates.as_slice(), 2)?;
    Ok(page)
}

fn write_header(page: &mut Page, func: &ReactiveFunction) -> Result<(), AllocError>
    ensures { OnOk result (page.new ≡ page.old ++ header_lines func.now) }
{
    write_name(page, func)?;
    page.push("\n")?;
    write_params(page, func.params.as_slice())?;
    write_directives(page, func.directives.as_slice())
}

fn write_name(page: &mut Page, func: &ReactiveFunction) -> Result<(), AllocError>
    ensures { OnOk result (page.new ≡ page.old ++ name_text func.now) }
{
    page.push("function ")?;
    write_json(page, &func.id)?;
    page.push(" hint ")?;
    write_json(page, &func.name_hint)?;
    write_marks(page, func)
}

/// A function's two marks, and its place in the source.
fn write_marks(page: &mut Page, func: &ReactiveFunction) -> Result<(), AllocError>
    ensures { OnOk result (page.new ≡ page.old ++ marks_text func.now) }
{
    page.push(" generator ")?;
    write_bool(page, func.generator)?;
    page.push(" async ")?;
    write_bool(page, func.is_async)?;
    write_span(page, func.span)
}

fn write_params(page: &mut Page, params: &[ParamPattern]) -> Result<(), AllocError>
    ensures { OnOk result (page.new ≡ page.old ++ param_lines params.now) }
{
    for param in params {
        write_param(page, *param)?;
        page.push("\n")?;
    }
    Ok(())
}

fn write_param(page: &mut Page, param: ParamPattern) -> Result<(), AllocError>
    ensures { OnOk result (page.new ≡ page.old ++ param_text param) }
{
    match param {
        ParamPattern::Place(place) => {
            page.push("param ")?;
            page.place(&place)
        }
        ParamPattern::Spread(spread) => {
            page.push("param ...")?;
            page.place(&spread.place)
        }
    }
}

fn write_directives(page: &mut Page, directives: &[Text]) -> Result<(), AllocError>
    ensures { OnOk result (page.new ≡ page.old ++ directive_lines directives.now) }
{
    for text in directives {
        page.push("directive ")?;
        page.quoted(text.as_str())?;
        page.push("\n")?;
    }
    Ok(())
}
