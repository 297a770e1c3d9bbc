//! The rows of the graph.

ghost use Rattle.std.specs.Prelude.{◌≡◌, ◌++◌, ◌≤◌, ◌<◌, ◌^◌, IfOk, OnOk};
ghost use Rattle.rc_gen.specs.Units as spec;
ghost use Rattle.rc_gen.specs.Generated.{generated_function, most_units};

use crate::kind::Kind;
use crate::parts::{array_of, place, row};
use rc_hir::{ArrayElement, Instruction, InstructionValue};
use rc_names::List;
use std::alloc::{AllocError, Global};

/// The rows: that of the shared array, those of the units, and the one that makes the result.
#[tactic(auto, using(crate::proofs::SizeLemmas::scope_id_small))]
pub fn rows(alloc: Global, units: u32) -> Result<List<Instruction>, AllocError>
    requires { units ≤ most_units }
    ensures { IfOk result (λ rows. rows ≡ (generated_function units).instructions) }
{
    let mut rows = List::new(alloc);
    let mut items = List::new(alloc);
    let mut id = 2;
    rows.push(row(1, 1, array_of(alloc, 0)?))?;
    for unit in 0..units {
        let kind = Kind::of(unit);
        add_scope_row(alloc, &mut rows, kind, unit, id)?;
        add_if_row(&mut rows, kind, unit, id)?;
        add_item(&mut items, kind, unit)?;
        id += kind.ids();
    }
    let value = InstructionValue::ArrayExpression {
        elements: items,
        span: None,
    };
    rows.push(row(id, 2, value))?;
    Ok(rows)
}

/// Adds the row in the scope of a unit, from the id of its scope's terminal.
fn add_scope_row(
    alloc: Global,
    rows: &mut List<Instruction>,
    kind: Kind,
    unit: u32,
    id: u32,
) -> Result<(), AllocError>
    requires number { unit ≤ most_units }
    requires room { id < 2 ^ 31 }
    ensures { OnOk result (rows.new ≡ rows.old ++ spec.scope_rows kind unit id) }
{
    let value = array_of(alloc, kind.source())?;
    rows.push(row(id + 1, 3 + 2 * unit, value))
}

/// Adds the row of a unit's `If`, if it has one.
fn add_if_row(
    rows: &mut List<Instruction>,
    kind: Kind,
    unit: u32,
    id: u32,
) -> Result<(), AllocError>
    requires number { unit ≤ most_units }
    requires room { id < 2 ^ 31 }
    ensures { OnOk result (rows.new ≡ rows.old ++ spec.if_rows kind unit id) }
{
    match kind {
        Kind::Kept => Ok(()),
        Kind::Merged | Kind::NotEscaping | Kind::Unused | Kind::AlwaysInvalidating => rows.push(
            row(
                id + 4,
                4 + 2 * unit,
                InstructionValue::Debugger { span: None },
            ),
        ),
    }
}

/// Adds what the result has of a unit.
fn add_item(items: &mut List<ArrayElement>, kind: Kind, unit: u32) -> Result<(), AllocError>
    requires { unit ≤ most_units }
    ensures { OnOk result (items.new ≡ items.old ++ spec.escaping kind unit) }
{
    match kind {
        Kind::NotEscaping | Kind::Unused => Ok(()),
        Kind::Kept | Kind::Merged | Kind::AlwaysInvalidating => {
            items.push(ArrayElement::Place(place(3 + 2 * unit, false)))
        }
    }
}
