//! The record whose nodes hold the dependencies of their names, made from one that holds the operands of each row once.

ghost use Rattle.std.specs.Prelude.{◌≡◌, [], ◌∷◌, Some, slice_get, IfOk, OnOk};
ghost use Rattle.indexmap.specs.IndexMap.{insert_entry};
ghost use Rattle.rc_names.specs.Numbers.{DeclarationId as Name, same_id};
ghost use Rattle.rc_memo.specs.RowRecord as spec;
ghost use Rattle.rc_memo.specs.declared.row_record.RowNode.{RowNode as Node};
ghost use Rattle.rc_memo.specs.inside.Growing.{insert_all};

use crate::{DeclSet, MemoNode, MemoRecord, RowNode, RowRecord};
use rc_names::{CloneIn, DeclarationId, KeySet, Keyed, List};
use std::alloc::{AllocError, Global};

/// Puts a name into a set, unless it is another one. Fails only when out of memory.
fn put_other(set: &mut DeclSet, name: DeclarationId, other: DeclarationId) -> Result<(), AllocError>
    ensures { OnOk result (set.new ≡ insert_all set.old (spec.names_but name (other ∷ []))) }
{
    if name == other {
        return Ok(());
    }
    set.insert(other)?;
    Ok(())
}

/// Puts names but one into a set. Fails only when out of memory.
fn put_names(
    set: &mut DeclSet,
    name: DeclarationId,
    names: &[DeclarationId],
) -> Result<(), AllocError>
    ensures { OnOk result (set.new ≡ insert_all set.old (spec.names_but name names.now)) }
{
    for other in names {
        put_other(set, name, *other)?;
    }
    Ok(())
}

/// Puts the operands at a position into a set, but one name. Fails only when out of memory.
fn put_row(
    set: &mut DeclSet,
    name: DeclarationId,
    operands: &List<List<DeclarationId>>,
    row: usize,
) -> Result<(), AllocError>
    ensures { OnOk result (set.new ≡ insert_all set.old (spec.names_but name (spec.operands_at operands.now row))) }
{
    match operands.get(row) {
        Some(names) => put_names(set, name, names.as_slice()),
        None => Ok(()),
    }
}

/// Returns the names on which a name depends that is a target of these rows. Fails only when out of memory.
fn dependencies_by_rows(
    alloc: Global,
    name: DeclarationId,
    operands: &List<List<DeclarationId>>,
    rows: &List<usize>,
) -> Result<DeclSet, AllocError>
    ensures { IfOk result (λ set. set ≡ insert_all [] (spec.names_but name (spec.operands_of operands.now rows.now))) }
{
    let mut set = KeySet::new(alloc);
    for row in rows.as_slice() {
        put_row(&mut set, name, operands, *row)?;
    }
    Ok(set)
}

/// Returns the node of a name with its dependencies. Fails only when out of memory.
fn expanded_node(
    alloc: Global,
    name: DeclarationId,
    operands: &List<List<DeclarationId>>,
    node: &RowNode,
) -> Result<MemoNode, AllocError>
    ensures { IfOk result (λ whole. whole ≡ spec.node_of_rows operands.now name node.now) }
{
    Ok(MemoNode {
        level: node.level,
        dependencies: dependencies_by_rows(alloc, name, operands, &node.rows)?,
        scopes: node.scopes.clone_in(alloc)?,
    })
}

/// Puts the entry at an index with its dependencies. Fails only when out of memory.
fn put_entry(
    whole: &mut Keyed<DeclarationId, MemoNode>,
    alloc: Global,
    operands: &List<List<DeclarationId>>,
    nodes: &Keyed<DeclarationId, RowNode>,
    i: usize,
) -> Result<(), AllocError>
    ensures { OnOk result ((entry : Name × Node) → slice_get nodes.now i ≡ Some entry → whole.new
        ≡ insert_entry same_id whole.old entry.0 (spec.node_of_rows operands.now entry.0 entry.1)) }
{
    match nodes.at(i) {
        Some((name, node)) => {
            let node = expanded_node(alloc, name, operands, node)?;
            whole.insert(name, node)?;
            Ok(())
        }
        None => Ok(()),
    }
}

/// Returns the nodes with their dependencies. Fails only when out of memory.
fn expanded_nodes(
    alloc: Global,
    operands: &List<List<DeclarationId>>,
    nodes: &Keyed<DeclarationId, RowNode>,
) -> Result<Keyed<DeclarationId, MemoNode>, AllocError>
    ensures { IfOk result (λ whole. whole ≡ spec.nodes_of_rows operands.now nodes.now) }
{
    let mut whole = Keyed::new(alloc);
    for i in 0..nodes.len() {
        put_entry(&mut whole, alloc, operands, nodes, i)?;
    }
    Ok(whole)
}

/// Returns the record with each name's dependencies in its node. Fails only when out of memory.
#[tactic(auto, unfolding(crate::specs::RowRecord::record_of_rows))]
pub fn expanded(alloc: Global, rows: RowRecord) -> Result<MemoRecord, AllocError>
    ensures { IfOk result (λ record'. record' ≡ spec.record_of_rows rows) }
{
    Ok(MemoRecord {
        nodes: expanded_nodes(alloc, &rows.operands, &rows.nodes)?,
        scopes: rows.scopes,
        definitions: rows.definitions,
        escaping: rows.escaping,
    })
}
