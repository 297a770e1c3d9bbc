//! The first lines of terminals and of their parts, and the values below them.

ghost use Rattle.std.specs.Prelude.{◌≡◌, ◌++◌, OnOk, codes, decimal};
ghost use Rattle.rc_tree.specs.Kind.{kind_word};
ghost use Rattle.rc_lines.specs.LineText.{place_text, id_text};
ghost use Rattle.rc_lines.specs.Lines.{catch_text, case_text, value_line, optional_value_line, terminal_lines};

use crate::page::Page;
use crate::text::{write_id, write_span};
use crate::value::write_value;
use rc_hir::Place;
use rc_names::{BlockId, Boxed, EvaluationOrder, ScopeId};
use rc_tree::{ReactiveLabel, ReactiveTerminal, ReactiveTerminalTargetKind, ReactiveValue};
use std::alloc::AllocError;

/// The text of a terminal's first line.
pub fn write_head(
    page: &mut Page,
    terminal: &ReactiveTerminal,
    label: Option<ReactiveLabel>,
) -> Result<(), AllocError>
    ensures { OnOk result (page.new ≡ page.old ++ (terminal_lines terminal.now).head label) }
{
    match terminal {
        ReactiveTerminal::Break {
            target,
            target_kind,
            id,
        } => {
            write_jump(page, "break bb", *target, *target_kind)?;
            write_id(page, *id, label)
        }
        ReactiveTerminal::Continue {
            target,
            target_kind,
            id,
        } => {
            write_jump(page, "continue bb", *target, *target_kind)?;
            write_id(page, *id, label)
        }
        ReactiveTerminal::Return { value, id } => write_of(page, "return ", value, *id, label),
        ReactiveTerminal::Throw { value, id } => write_of(page, "throw ", value, *id, label),
        ReactiveTerminal::If { test, id, .. } => write_of(page, "if ", test, *id, label),
        ReactiveTerminal::Switch { test, id, .. } => write_of(page, "switch ", test, *id, label),
        ReactiveTerminal::DoWhile { id, .. } => write_named(page, "do", *id, label),
        ReactiveTerminal::While { id, .. } => write_named(page, "while", *id, label),
        ReactiveTerminal::For { id, .. } => write_named(page, "for", *id, label),
        ReactiveTerminal::ForOf { span, id, .. } => {
            write_named(page, "forof", *id, label)?;
            write_span(page, *span)
        }
        ReactiveTerminal::ForIn { span, id, .. } => {
            write_named(page, "forin", *id, label)?;
            write_span(page, *span)
        }
        ReactiveTerminal::Label { id, .. } => write_named(page, "label", *id, label),
        ReactiveTerminal::Try { id, .. } => write_named(page, "try", *id, label),
    }
}

/// A name with an id and a label.
fn write_named(
    page: &mut Page,
    name: &str,
    id: EvaluationOrder,
    label: Option<ReactiveLabel>,
) -> Result<(), AllocError>
    ensures { OnOk result (page.new ≡ page.old ++ (name.now ++ id_text id label)) }
{
    page.push(name)?;
    write_id(page, id, label)
}

/// A name of a place, with an id and a label.
fn write_of(
    page: &mut Page,
    name: &str,
    place: &Place,
    id: EvaluationOrder,
    label: Option<ReactiveLabel>,
) -> Result<(), AllocError>
    ensures { OnOk result (page.new ≡ page.old ++ (name.now ++ (place_text place.now ++ id_text id label))) }
{
    page.push(name)?;
    page.place(place)?;
    write_id(page, id, label)
}

/// A jump as far as its kind.
fn write_jump(
    page: &mut Page,
    name: &str,
    target: BlockId,
    kind: ReactiveTerminalTargetKind,
) -> Result<(), AllocError>
    ensures { OnOk result (page.new ≡ page.old ++ (name.now ++ (decimal target.0 ++ (codes " " ++ kind_word kind)))) }
{
    page.push(name)?;
    page.number(target.0)?;
    page.push(" ")?;
    page.push(kind.as_str())
}

/// The values of a loop that are printed above its body.
pub fn write_values(
    page: &mut Page,
    terminal: &ReactiveTerminal,
    indent: usize,
) -> Result<(), AllocError>
    ensures { OnOk result (page.new ≡ page.old ++ (terminal_lines terminal.now).values indent) }
{
    match terminal {
        ReactiveTerminal::While { test, .. } => write_value_line(page, "test ", test, indent),
        ReactiveTerminal::For {
            init,
            test,
            update,
            ..
        } => {
            write_value_line(page, "init ", init, indent)?;
            write_value_line(page, "test ", test, indent)?;
            write_optional_value_line(page, "update ", update, indent)
        }
        ReactiveTerminal::ForOf { init, test, .. } => {
            write_value_line(page, "init ", init, indent)?;
            write_value_line(page, "test ", test, indent)
        }
        ReactiveTerminal::ForIn { init, .. } => write_value_line(page, "init ", init, indent),
        ReactiveTerminal::Break { .. }
        | ReactiveTerminal::Continue { .. }
        | ReactiveTerminal::Return { .. }
        | ReactiveTerminal::Throw { .. }
        | ReactiveTerminal::If { .. }
        | ReactiveTerminal::Switch { .. }
        | ReactiveTerminal::DoWhile { .. }
        | ReactiveTerminal::Label { .. }
        | ReactiveTerminal::Try { .. } => Ok(()),
    }
}

/// A named value, on a line of its own.
pub fn write_value_line(
    page: &mut Page,
    name: &str,
    value: &Boxed<ReactiveValue>,
    indent: usize,
) -> Result<(), AllocError>
    ensures { OnOk result (page.new ≡ page.old ++ value_line name.now value.now indent) }
{
    page.indent(indent)?;
    page.push(name)?;
    write_value(page, value.get())?;
    page.push("\n")
}

/// A named value, where there is one.
fn write_optional_value_line(
    page: &mut Page,
    name: &str,
    value: &Option<Boxed<ReactiveValue>>,
    indent: usize,
) -> Result<(), AllocError>
    ensures { OnOk result (page.new ≡ page.old ++ optional_value_line name.now value.now indent) }
{
    match value {
        Some(value) => write_value_line(page, name, value, indent),
        None => Ok(()),
    }
}

/// The first line of a scope block.
pub fn write_scope_name(page: &mut Page, name: &str, scope: ScopeId) -> Result<(), AllocError>
    ensures { OnOk result (page.new ≡ page.old ++ (name.now ++ (decimal scope.0 ++ codes "\n"))) }
{
    page.push(name)?;
    page.number(scope.0)?;
    page.push("\n")
}

/// The name of a handler's part.
pub fn write_catch_name(page: &mut Page, binding: Option<Place>) -> Result<(), AllocError>
    ensures { OnOk result (page.new ≡ page.old ++ catch_text binding) }
{
    match binding {
        None => page.push("catch"),
        Some(place) => {
            page.push("catch ")?;
            page.place(&place)
        }
    }
}

/// The name of a case's part.
pub fn write_case_name(page: &mut Page, test: Option<Place>) -> Result<(), AllocError>
    ensures { OnOk result (page.new ≡ page.old ++ case_text test) }
{
    match test {
        None => page.push("default"),
        Some(test) => {
            page.push("case ")?;
            page.place(&test)
        }
    }
}
