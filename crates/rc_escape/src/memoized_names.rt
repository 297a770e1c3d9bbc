//! The memoized names of a record.

ghost use Rattle.std.specs.Prelude.{◌≡◌, ◌⊎◌, ◌||◌, [], false, slice_get, if◌then◌else◌, IfErr, IfOk, OnOk};
ghost use Rattle.rc_hir.specs.declared.fault.Fault.TheVariants as faults;
ghost use Rattle.rc_names.specs.Numbers as numbers;
ghost use Rattle.rc_memo.specs.RowRecord.{record_of_rows};
ghost use Rattle.rc_memo.specs.declared.row_record.RowNode.{RowNode as Node};
ghost use Rattle.rc_escape.specs.MemoBounds.{HasLeastSet, IsWithinGreatestSet};
ghost use Rattle.rc_escape.specs.MemoSet.{HasMemoized, IsMemoSet, IsNoScopeNode, IsWalked, scopes_without_record};
ghost use Rattle.rc_escape.specs.inside.WalkPlaces.{is_memoized, progress};

use crate::missing_scopes::lowest_missing;
use crate::one_row_each::rows_of;
use crate::walk_state::{NodeMark, VisitFrame, WalkState};
use crate::{DeclSet, MemoRecord};
use rc_hir::Fault;
use rc_memo::RowRecord;
use rc_names::{KeySet, List};
use std::alloc::{AllocError, Global};

/// Returns the names that are memoized: those that the walk from the escaping names decides so.
///
/// A name of level `Memoized` that an escaping name reaches through dependencies is always among them. Each of them is
/// reached from an escaping name through dependencies of names and of the scopes of memoized names.
///
/// Fails with `NoScopeNode` exactly if a node has a scope without a record, and names the lowest such scope. Fails with
/// `NoMemory` when out of memory, and with no other fault.
pub fn memoized(alloc: Global, rec: &MemoRecord) -> Result<DeclSet, Fault>
    ensures ok { IfOk result (λ set. IsMemoSet rec.now set) }
    ensures recorded { IfOk result (λ _. scopes_without_record rec.now ≡ []) }
    ensures least { IfOk result (λ set. HasLeastSet rec.now set) }
    ensures most { IfOk result (λ set. IsWithinGreatestSet rec.now set) }

    ensures no_scope_node { IfErr result (λ fault. (fault ≡ faults.NoMemory) ⊎ IsNoScopeNode rec.now fault) }
{
    let rows = rows_of(alloc, rec)?;
    let set = memoized_rows(alloc, &rows)?;
    Ok(set)
}

/// Returns the memoized names of the record that the rows stand for.
///
/// Fails as `memoized` does.
#[tactic(auto, using(crate::proofs::MemoSetLemmas::memo_set))]
pub(crate) fn memoized_rows(alloc: Global, rows: &RowRecord) -> Result<DeclSet, Fault>
    ensures ok { IfOk result (λ set. IsMemoSet (record_of_rows rows.now) set) }
    ensures recorded { IfOk result (λ _. scopes_without_record (record_of_rows rows.now) ≡ []) }

    ensures no_scope_node { IfErr result (λ fault. (fault ≡ faults.NoMemory)
        ⊎ IsNoScopeNode (record_of_rows rows.now) fault) }
{
    if let Some(scope) = lowest_missing(rows) {
        return Err(Fault::NoScopeNode { scope });
    }
    let state = walk(alloc, rows)?;
    let set = memoized_names(alloc, rows, &state)?;
    Ok(set)
}

/// Walks from the escaping names. Fails only when out of memory.
#[tactic(auto, using(crate::proofs::MemoSetLemmas::walked))]
fn walk(alloc: Global, rows: &RowRecord) -> Result<WalkState, AllocError>
    ensures { IfOk result (λ state. IsWalked (record_of_rows rows.now) (progress rows.now state)) }
{
    let mut state = WalkState::new(alloc, rows)?;
    let mut stack = List::new(alloc);
    stack.push(VisitFrame::Escaping { next: 0 })?;
    state.run(rows, &mut stack)?;
    Ok(state)
}

/// Returns the names that the state has as memoized. Fails only when out of memory.
#[tactic(auto, using(crate::proofs::MemoSetLemmas::collecting))]
fn memoized_names(alloc: Global, rows: &RowRecord, state: &WalkState) -> Result<DeclSet, AllocError>
    ensures { IfOk result (λ set. HasMemoized set (progress rows.now state.now)) }
{
    let mut set = KeySet::with_capacity(alloc, rows.nodes.len())?;
    for place in 0..rows.nodes.len() {
        put_memoized(&mut set, rows, state, place)?;
    }
    Ok(set)
}

/// Puts the name at a place into the set, where it is memoized. Fails only when out of memory.
#[tactic(auto, using(crate::proofs::MemoSetLemmas::insert_among))]
fn put_memoized(
    set: &mut DeclSet,
    rows: &RowRecord,
    state: &WalkState,
    place: usize,
) -> Result<(), AllocError>
    ensures { OnOk result ((entry : numbers.DeclarationId × Node) → slice_get rows.now.nodes place ≡ Some entry
        → (name : numbers.DeclarationId) → numbers.is_among set.new name
        ≡ ((if is_memoized state.now.marks place then numbers.same_id name entry.0 else false)
        || numbers.is_among set.old name)) }
{
    if let NodeMark::Memoized = state.mark(place) {
        if let Some((name, _)) = rows.nodes.at(place) {
            set.insert(name)?;
        }
    }
    Ok(())
}
