//! Sending the table of nested values.

ghost use Rattle.std.specs.Prelude.{◌≡◌, map, IfOk, OnOk, Some};
ghost use Rattle.rc_flat.specs.ReadingFlat.Values.{nested_value_of};
ghost use Rattle.rc_flat.specs.ShownFlat.{nested_value_data};
ghost use Rattle.rc_flat.specs.Values.{inside_value};
ghost use Rattle.rc_answer.specs.inside.Levels.{inside_values};
ghost use Rattle.rc_answer.specs.inside.Numbering.{Grows};
ghost use Rattle.rc_answer.specs.inside.TablesSent.{AreValuesSent, IsEntrySent, IsLevelSent};

use crate::numbering::{Numbered, Parts};
use crate::tables::found;
use rc_show::Show;
use rc_tree::ReactiveValue;
use serde::Serializer;
use std::alloc::Global;

/// Sends the entry of a nested value. Fails when the serializer does, when out of memory, and for an instruction, which
/// has no entry.
fn send_value<'a, S: Serializer>(
    out: &mut S,
    alloc: Global,
    value: &'a ReactiveValue,
    numbered: &mut Numbered<'a, ReactiveValue>,
) -> Result<(), S::Error>
    ensures sent { OnOk result
        (IsEntrySent numbered.old.next value.now (S.written out.old) (S.written out.new)) }
    ensures grows { OnOk result (Grows (inside_value value.now) numbered.old numbered.new) }
{
    let view = found(out, numbered.entry(alloc, value))?;
    view.send(out)
}

/// Sends the entries of a level. Fails when the serializer does, when out of memory, and for an instruction.
fn send_level<'a, S: Serializer>(
    out: &mut S,
    alloc: Global,
    level: &[&'a ReactiveValue],
    numbered: &mut Numbered<'a, ReactiveValue>,
) -> Result<(), S::Error>
    ensures sent { OnOk result (IsLevelSent numbered.old.next (map (λ value. value.now) level.now)
        (S.written out.old) (S.written out.new)) }
    ensures grows { OnOk result
        (Grows (inside_values (map (λ value. value.now) level.now)) numbered.old numbered.new) }
{
    for &value in level {
        send_value(out, alloc, value, numbered)?;
    }
    Ok(())
}

/// Sends nested values, and those inside of them. Fails when the serializer does, when out of memory, and when there
/// are more than 32 bits number.
pub fn send_values<'a, S: Serializer>(
    out: &mut S,
    alloc: Global,
    values: Numbered<'a, ReactiveValue>,
) -> Result<(), S::Error>
    ensures { OnOk result (AreValuesSent values.entry (S.written out.old) (S.written out.new)) }
{
    let mut numbered = values;
    let mut level = numbered.take(alloc);
    out.begin_seq(None)?;
    while !level.is_empty() {
        send_level(out, alloc, level.as_slice(), &mut numbered)?;
        level = numbered.take(alloc);
    }
    out.end_seq()
}
