//! A value and a row, each on one line.

ghost use Rattle.std.specs.Prelude.{◌≡◌, ◌++◌, OnOk, false, map};
ghost use Rattle.rc_lines.specs.ValueLines.{operator_text, next_text, joined, rows_text, target_text, value_text};
ghost use Rattle.rc_lines.specs.ValueLines.{row_text};

use crate::page::Page;
use crate::text::{write_bool, write_span};
use rc_hir::{LogicalOperator, Place};
use rc_names::EvaluationOrder;
use rc_tree::{ReactiveInstruction, ReactiveValue};
use std::alloc::AllocError;

/// A value.
#[cycle(value)]
pub fn write_value(page: &mut Page, value: &ReactiveValue) -> Result<(), AllocError>
    ensures { OnOk result (page.new ≡ page.old ++ value_text value.now) }
{
    match value {
        ReactiveValue::Instruction(value) => page.base_value(value),
        ReactiveValue::LogicalExpression {
            operator,
            left,
            right,
        } => {
            page.push("logical(")?;
            page.push(operator_name(*operator))?;
            write_next(page, left.get())?;
            write_next(page, right.get())?;
            page.push(")")
        }
        ReactiveValue::ConditionalExpression {
            test,
            consequent,
            alternate,
        } => {
            page.push("cond(")?;
            write_value(page, test.get())?;
            write_next(page, consequent.get())?;
            write_next(page, alternate.get())?;
            page.push(")")
        }
        ReactiveValue::SequenceExpression {
            instructions,
            id,
            value,
        } => {
            write_rows(page, instructions.as_slice(), *id)?;
            write_next(page, value.get())?;
            page.push(")")
        }
        ReactiveValue::OptionalExpression { value, optional } => {
            page.push("opt(")?;
            write_bool(page, *optional)?;
            write_next(page, value.get())?;
            page.push(")")
        }
    }
}

/// A further part between the brackets of a value.
#[cycle(value)]
fn write_next(page: &mut Page, value: &ReactiveValue) -> Result<(), AllocError>
    ensures { OnOk result (page.new ≡ page.old ++ next_text (value_text value.now)) }
{
    page.push(", ")?;
    write_value(page, value)
}

/// A sequence as far as its rows.
#[cycle(value)]
fn write_rows(
    page: &mut Page,
    rows: &[ReactiveInstruction],
    id: EvaluationOrder,
) -> Result<(), AllocError>
    ensures { OnOk result (page.new ≡ page.old ++ rows_text id (map row_text rows.now)) }
{
    page.push("seq(")?;
    page.number(id.0)?;
    page.push(", [")?;
    write_joined(page, rows)?;
    page.push("]")
}

#[cycle(value)]
fn write_joined(page: &mut Page, rows: &[ReactiveInstruction]) -> Result<(), AllocError>
    ensures { OnOk result (page.new ≡ page.old ++ joined false (map row_text rows.now)) }
{
    for (i, row) in rows.iter().enumerate() {
        if i > 0 {
            page.push("; ")?;
        }
        write_row(page, row)?;
    }
    Ok(())
}

/// A row.
#[cycle(value)]
pub fn write_row(page: &mut Page, row: &ReactiveInstruction) -> Result<(), AllocError>
    ensures { OnOk result (page.new ≡ page.old ++ row_text row.now) }
{
    page.number(row.id.0)?;
    page.push(" ")?;
    write_target(page, row.lvalue)?;
    page.push(" = ")?;
    write_value(page, &row.value)?;
    write_span(page, row.span)
}

/// Where the value of a row goes.
fn write_target(page: &mut Page, target: Option<Place>) -> Result<(), AllocError>
    ensures { OnOk result (page.new ≡ page.old ++ target_text target) }
{
    match target {
        Some(place) => page.place(&place),
        None => page.push("_"),
    }
}

fn operator_name(operator: LogicalOperator) -> &'static str
    ensures { result.now ≡ operator_text operator }
{
    match operator {
        LogicalOperator::And => "&&",
        LogicalOperator::Or => "||",
        LogicalOperator::Coalesce => "??",
    }
}
