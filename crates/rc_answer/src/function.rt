//! Sending a function as two tables.

ghost use Rattle.std.specs.Prelude.{◌≡◌, OnOk, Some};
ghost use Rattle.serde_json.specs.Data.{string};
ghost use Rattle.rc_doc.specs.Places.{param_of, span_of};
ghost use Rattle.rc_doc.specs.Reading.{list_of, text_of};
ghost use Rattle.rc_show.specs.Sending.{SendsFields};
ghost use Rattle.rc_show.specs.Showing.{list_data, IsReadAgain};
ghost use Rattle.rc_show.specs.ShownParts.Places.{span_data};
ghost use Rattle.rc_flat.specs.ShownGraph.{param_data};
ghost use Rattle.rc_answer.specs.inside.FunctionSent.{header_fields, IsFunctionSent};

use crate::parts::PartFields;
use crate::tables::blocks::send_blocks;
use crate::tables::values::send_values;
use rc_show::{Fields, NoFields};
use rc_tree::ReactiveFunction;
use serde::Serializer;
use std::alloc::Global;

/// Sends the fields between the two tables. Fails only when the serializer does.
fn send_header<S: Serializer>(out: &mut S, func: &ReactiveFunction) -> Result<(), S::Error>
    ensures sends { OnOk result (SendsFields (header_fields func.now) (S.written out.old) (S.written out.new)) }
    ensures params { OnOk result (list_of param_of (list_data param_data func.now.params) ≡ Some func.now.params) }
    ensures directives { OnOk result
        (list_of text_of (list_data string func.now.directives) ≡ Some func.now.directives) }
    ensures span { OnOk result (IsReadAgain span_of span_data func.now.span) }
{
    NoFields
        .with("directives", &func.directives)
        .with("generator", &func.generator)
        .with_some("id", &func.id)
        .with("is_async", &func.is_async)
        .with_some("name_hint", &func.name_hint)
        .with_part("params", &func.params)
        .with_some("span", &func.span)
        .send_fields(out)
}

/// Sends a function as two tables, which read as these again. Fails when the serializer does, when out of memory, and
/// when there are more blocks or nested values than 32 bits number.
pub fn send_function<S: Serializer>(
    out: &mut S,
    alloc: Global,
    func: &ReactiveFunction,
) -> Result<(), S::Error>
    ensures { OnOk result (IsFunctionSent func.now (S.written out.old) (S.written out.new)) }
{
    out.begin_map(None)?;
    out.key("blocks")?;
    let values = send_blocks(out, alloc, &func.body)?;
    send_header(out, func)?;
    out.key("values")?;
    send_values(out, alloc, values)?;
    out.end_map()
}
