//! The words that lines are made of.

ghost use Rattle.std.specs.Prelude.{◌≡◌, ◌++◌, OnOk, decimal};
ghost use Rattle.rc_lines.specs.LineText.{bool_text, json_text, span_text, label_text, id_text};

use crate::page::Page;
use rc_names::{EvaluationOrder, Span, Text};
use rc_tree::ReactiveLabel;
use std::alloc::AllocError;

/// A number after its name.
pub fn write_number(page: &mut Page, name: &str, number: u32) -> Result<(), AllocError>
    ensures { OnOk result (page.new ≡ page.old ++ (name.now ++ decimal number)) }
{
    page.push(name)?;
    page.number(number)
}

/// A truth value.
pub fn write_bool(page: &mut Page, b: bool) -> Result<(), AllocError>
    ensures { OnOk result (page.new ≡ page.old ++ bool_text b) }
{
    page.push(if b { "true" } else { "false" })
}

/// A text in JSON's quotes, or `null`.
pub fn write_json(page: &mut Page, text: &Option<Text>) -> Result<(), AllocError>
    ensures { OnOk result (page.new ≡ page.old ++ json_text text.now) }
{
    match text {
        None => page.push("null"),
        Some(text) => page.quoted(text.as_str()),
    }
}

/// A part of the source, where it is known.
pub fn write_span(page: &mut Page, span: Option<Span>) -> Result<(), AllocError>
    ensures { OnOk result (page.new ≡ page.old ++ span_text span) }
{
    match span {
        None => Ok(()),
        Some(span) => {
            page.push(" @")?;
            page.number(span.start)?;
            page.push("..")?;
            page.number(span.end)
        }
    }
}

/// A statement's label, where it has one.
fn write_label(page: &mut Page, label: Option<ReactiveLabel>) -> Result<(), AllocError>
    ensures { OnOk result (page.new ≡ page.old ++ label_text label) }
{
    match label {
        None => Ok(()),
        Some(label) => {
            page.push(" as bb")?;
            page.number(label.id.0)?;
            page.push(if label.implicit { " implicit" } else { "" })
        }
    }
}

/// A statement's number in the order of evaluation, and its label.
pub fn write_id(
    page: &mut Page,
    id: EvaluationOrder,
    label: Option<ReactiveLabel>,
) -> Result<(), AllocError>
    ensures { OnOk result (page.new ≡ page.old ++ id_text id label) }
{
    page.push(" id ")?;
    page.number(id.0)?;
    write_label(page, label)
}
