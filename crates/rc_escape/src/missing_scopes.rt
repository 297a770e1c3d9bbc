//! Whether each scope of a node has a record.

ghost use Rattle.std.specs.Prelude.{◌≡◌, [], None, Some, filter, slice_get, if◌then◌else◌, MatchOption};
ghost use Rattle.rc_names.specs.Numbers.{DeclarationId, ScopeId as Scope};
ghost use Rattle.rc_escape.specs.inside.LowestScope.{lacks, lower, lowest_of};
ghost use Rattle.rc_escape.specs.MemoSet.{IsLowest, scopes_without_record};
ghost use Rattle.rc_memo.specs.RowRecord.{record_of_rows};
ghost use Rattle.rc_memo.specs.declared.row_record.RowNode.{RowNode as Node};

use rc_memo::RowRecord;
use rc_names::{KeySet, ScopeId};

/// Returns whether a scope has no record.
fn is_missing(rows: &RowRecord, scope: ScopeId) -> bool
    ensures { result ≡ lacks rows.now scope }
{
    rows.scopes.get(scope).is_none()
}

/// Returns the lower of the scope so far and one more.
fn lower_of(lowest: Option<ScopeId>, scope: ScopeId) -> Option<ScopeId>
    ensures { result ≡ lower lowest scope }
{
    match lowest {
        Some(found) => if scope.0 < found.0 {
            Some(scope)
        } else {
            Some(found)
        },
        None => Some(scope),
    }
}

/// Returns the lower of the scope so far and the scope at a place, where that has no record.
fn lower_at(
    rows: &RowRecord,
    scopes: &KeySet<ScopeId>,
    place: usize,
    lowest: Option<ScopeId>,
) -> Option<ScopeId>
    ensures { (scope : Scope) → slice_get scopes.now place ≡ Some scope
        → result ≡ (if lacks rows.now scope then lower lowest scope else lowest) }
{
    match scopes.at(place) {
        Some(scope) => if is_missing(rows, scope) {
            lower_of(lowest, scope)
        } else {
            lowest
        },
        None => lowest,
    }
}

/// Returns the lowest of the scope so far and the scopes of a set that have no record.
fn lowest_in(rows: &RowRecord, scopes: &KeySet<ScopeId>, before: Option<ScopeId>) -> Option<ScopeId>
    ensures { result ≡ lowest_of before (filter (lacks rows.now) scopes.now) }
{
    let mut lowest = before;
    for place in 0..scopes.len() {
        lowest = lower_at(rows, scopes, place, lowest);
    }
    lowest
}

/// Returns the lowest of the scope so far and the scopes of a node that have no record.
fn lowest_at(rows: &RowRecord, place: usize, lowest: Option<ScopeId>) -> Option<ScopeId>
    ensures { (entry : DeclarationId × Node) → slice_get rows.now.nodes place ≡ Some entry
        → result ≡ lowest_of lowest (filter (lacks rows.now) entry.1.scopes) }
{
    match rows.nodes.at(place) {
        Some((_, node)) => lowest_in(rows, &node.scopes, lowest),
        None => lowest,
    }
}

/// Returns the lowest scope of a node that has no record, and `None` if each has one.
#[tactic(auto, using(crate::proofs::LowestScopeLemmas::lowest_is))]
pub(crate) fn lowest_missing(rows: &RowRecord) -> Option<ScopeId>
    ensures { MatchOption result (scopes_without_record (record_of_rows rows.now) ≡ [])
        (λ scope. IsLowest (scopes_without_record (record_of_rows rows.now)) scope) }
{
    lowest_of_nodes(rows)
}

/// Returns the same scope, found node by node.
#[tactic(auto, using(crate::proofs::LowestScopeLemmas::lowest_of_nodes_start))]
fn lowest_of_nodes(rows: &RowRecord) -> Option<ScopeId>
    ensures { result ≡ lowest_of None (scopes_without_record (record_of_rows rows.now)) }
{
    let mut lowest = None;
    for place in 0..rows.nodes.len() {
        lowest = lowest_at(rows, place, lowest);
    }
    lowest
}
