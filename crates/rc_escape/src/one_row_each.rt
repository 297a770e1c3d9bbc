//! A record in which each node has a row of its own.

ghost use Rattle.std.specs.Prelude.{◌≡◌, List as Entries, Some, slice_get, IfOk, OnOk};
ghost use Rattle.indexmap.specs.IndexMap.{insert_entry};
ghost use Rattle.rc_names.specs.Numbers.{DeclarationId as Declaration, ScopeId as Scope, same_id};
ghost use Rattle.rc_memo.specs.declared.record.MemoNode.{MemoNode as Node};
ghost use Rattle.rc_escape.specs.inside.OneRowEach.{AddsNode, IsOneRowEach};

use crate::{MemoNode, MemoRecord};
use rc_memo::{RowNode, RowRecord};
use rc_names::{CloneIn, DeclarationId, Keyed, List, ScopeId};
use std::alloc::{AllocError, Global};

type Scopes = Keyed<ScopeId, List<DeclarationId>>;

/// Puts the scope at a place into a copy. Fails only when out of memory.
fn put_scope(
    alloc: Global,
    copy: &mut Scopes,
    scopes: &Scopes,
    place: usize,
) -> Result<(), AllocError>
    ensures { OnOk result ((entry : Scope × Entries Declaration) → slice_get scopes.now place ≡ Some entry
        → copy.new ≡ insert_entry same_id copy.old entry.0 entry.1) }
{
    if let Some((scope, names)) = scopes.at(place) {
        copy.insert(scope, names.copy_in(alloc)?)?;
    }
    Ok(())
}

/// Returns a copy of the scopes of a record. Fails only when out of memory.
#[tactic(auto, using(crate::proofs::OneRowLemmas::copied_next, crate::proofs::OneRowLemmas::copied_all))]
fn copied_scopes(alloc: Global, scopes: &Scopes) -> Result<Scopes, AllocError>
    ensures { IfOk result (λ copy. copy ≡ scopes.now) }
{
    let mut copy = Keyed::with_capacity(alloc, scopes.len())?;
    for place in 0..scopes.len() {
        put_scope(alloc, &mut copy, scopes, place)?;
    }
    Ok(copy)
}

/// Puts a node, whose dependencies are the operands of a new row. Fails only when out of memory.
fn put_node(
    alloc: Global,
    rows: &mut RowRecord,
    name: DeclarationId,
    node: &MemoNode,
) -> Result<(), AllocError>
    ensures { OnOk result (AddsNode rows.old name node.now rows.new) }
{
    let mut row = List::new(alloc);
    row.push(rows.operands.len())?;
    rows.operands
        .push(List::from_slice(alloc, node.dependencies.as_slice())?)?;
    let node = RowNode {
        level: node.level,
        rows: row,
        scopes: node.scopes.clone_in(alloc)?,
    };
    rows.nodes.insert(name, node)?;
    Ok(())
}

/// Puts the node at a place with a new row. Fails only when out of memory.
fn put_node_at(
    alloc: Global,
    rows: &mut RowRecord,
    rec: &MemoRecord,
    place: usize,
) -> Result<(), AllocError>
    ensures { OnOk result ((entry : Declaration × Node) → slice_get rec.now.nodes place ≡ Some entry
        → AddsNode rows.old entry.0 entry.1 rows.new) }
{
    match rec.nodes.at(place) {
        Some((name, node)) => put_node(alloc, rows, name, node),
        None => Ok(()),
    }
}

/// Returns the record with a row for each node, whose operands are the node's dependencies. Fails only when out of
/// memory.
#[tactic(auto, using(crate::proofs::OneRowLemmas::of_record))]
pub(crate) fn rows_of(alloc: Global, rec: &MemoRecord) -> Result<RowRecord, AllocError>
    ensures { IfOk result (λ rows. IsOneRowEach rec.now rows) }
{
    let mut rows = RowRecord {
        nodes: Keyed::with_capacity(alloc, rec.nodes.len())?,
        operands: List::with_capacity(alloc, rec.nodes.len())?,
        scopes: copied_scopes(alloc, &rec.scopes)?,
        definitions: Keyed::new(alloc),
        escaping: rec.escaping.clone_in(alloc)?,
    };
    for place in 0..rec.nodes.len() {
        put_node_at(alloc, &mut rows, rec, place)?;
    }
    Ok(rows)
}
