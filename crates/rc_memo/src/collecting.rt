//! The memo record of a whole tree.

ghost use Rattle.std.specs.Prelude.{◌≡◌, ◌⊎◌, map, IfErr, IfOk, OnOk};
ghost use Rattle.rc_memo.specs.Record.{IsRecordOf, IsUninitialised, param_name};
ghost use Rattle.rc_memo.specs.RowRecord.{record_of_rows};
ghost use Rattle.rc_memo.specs.TreeEvents.{events_in};
ghost use Rattle.rc_memo.specs.inside.Recording.{AddsParams, IsRecorded};

use crate::expanding::expanded;
use crate::reader::RowReader;
use crate::recording::Recording;
use crate::tree::add_body;
use crate::{MemoRecord, MemoizationLevel, RowRecord};
use rc_hir::{Environment, Fault, ParamPattern};
use rc_names::{DeclarationId, List};
use rc_tree::ReactiveFunction;
use std::alloc::{AllocError, Global};

/// Returns the memo record of a function.
///
/// Fails with `Uninitialised` exactly if a name of which the record needs a node has none yet, and names the first such
/// name. Fails with `NoMemory` when out of memory, and with no other fault. Numbers outside their tables cause no
/// fault: an identifier without an entry is in no scope and stands for the declaration of its own number.
///
/// After oxc's prune_non_escaping_scopes.
pub fn collect(
    alloc: Global,
    func: &ReactiveFunction,
    env: &Environment,
) -> Result<MemoRecord, Fault>
    ensures ok { IfOk result (λ rec. IsRecordOf func.now env.now rec) }

    ensures uninitialised { IfErr result (λ fault. (fault ≡ Fault.NoMemory) ⊎ IsUninitialised
        (map (param_name env.now) func.now.params) (events_in env.now func.now.body) fault) }
{
    let rows = collect_rows(alloc, func, env)?;
    let record = expanded(alloc, rows)?;
    Ok(record)
}

/// Returns the memo record of a function, with the operands of a row once for all its targets.
///
/// It stands for the record that `collect` returns, in which each target has an entry for each operand of its row. A
/// call whose arguments it may change has them all as operands and as targets: there, that is as many entries as the
/// square of their number, and here, as twice their number.
///
/// Fails as `collect` does: with `Uninitialised` exactly if a name of which the record needs a node has none yet, and
/// names the first such name; with `NoMemory` when out of memory; and with no other fault. Numbers outside their tables
/// cause no fault: an identifier without an entry is in no scope and stands for the declaration of its own number.
///
/// After oxc's prune_non_escaping_scopes, whose nodes hold their dependencies.
pub fn collect_rows(
    alloc: Global,
    func: &ReactiveFunction,
    env: &Environment,
) -> Result<RowRecord, Fault>
    ensures ok { IfOk result (λ rows. IsRecordOf func.now env.now (record_of_rows rows)) }

    ensures uninitialised { IfErr result (λ fault. (fault ≡ Fault.NoMemory) ⊎ IsUninitialised
        (map (param_name env.now) func.now.params) (events_in env.now func.now.body) fault) }
{
    let recording = recording_of(alloc, func, env)?;
    let held = recording.held;
    match held.missing {
        Some(declaration) => Err(Fault::Uninitialised { declaration }),
        None => Ok(RowRecord {
            nodes: held.nodes,
            operands: held.operands,
            scopes: recording.scopes,
            definitions: recording.definitions,
            escaping: recording.escaping,
        }),
    }
}

/// Returns the declaration of a parameter.
fn param_of(reader: &RowReader<'_>, param: &ParamPattern) -> DeclarationId
    ensures { result ≡ param_name reader.now.env.now param.now }
{
    match param {
        ParamPattern::Place(place) => reader.declaration(place.identifier),
        ParamPattern::Spread(spread) => reader.declaration(spread.place.identifier),
    }
}

/// Adds that each parameter is a target that asks nothing. Fails only when out of memory.
fn add_params(
    reader: &RowReader<'_>,
    recording: &mut Recording,
    params: &List<ParamPattern>,
) -> Result<(), AllocError>
    ensures { OnOk result (AddsParams reader.now.env.now params.now recording.old recording.new) }
{
    for param in params.as_slice() {
        let name = param_of(reader, param);
        recording
            .held
            .add_level(reader.alloc, name, MemoizationLevel::Never)?;
    }
    Ok(())
}

/// Returns what is recorded of the parameters and the events of a function. Fails only when out of memory.
fn recording_of(
    alloc: Global,
    func: &ReactiveFunction,
    env: &Environment,
) -> Result<Recording, AllocError>
    ensures { IfOk result (λ recording. IsRecorded env.now (map (param_name env.now) func.now.params)
        (events_in env.now func.now.body) recording) }
{
    let reader = RowReader { alloc, env };
    let mut recording = reader.no_recording()?;
    add_params(&reader, &mut recording, &func.params)?;
    add_body(&reader, &mut recording, &func.body)?;
    Ok(recording)
}
