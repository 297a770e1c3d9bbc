//! Whether the facts of a reason fit its fate.

ghost use Rattle.std.specs.Prelude.{◌≡◌, ◌↔◌, [], IsTrue, All, length};
ghost use Rattle.rc_why.specs.Fits as spec;
ghost use Rattle.rc_why.specs.Pairs.{IsWhole};

use crate::names::{are_among, are_outside};
use crate::pairs::{are_whole_values, have_same_pairs, is_whole};
use crate::reason::{Facts, Reason};
use rc_merge::{DepPair, MergeCondition, NotedUse};
use rc_names::{DeclarationId, EvaluationOrder, List, ScopeId};
use rc_tree::Fate;

/// Returns whether the facts of a reason fit its fate: they are of its kind, and they are what its rule asks for. The
/// facts of `Kept` and of `AlwaysInvalidating` fit as they are. Whether they are true of a graph isn't looked at.
///
/// This takes no memory, and may compare each entry of one list of the facts with each entry of another.
pub fn check_reason(reason: &Reason) -> bool
    ensures fits { IsTrue result ↔ spec.Fits reason.now }
{
    let fate = reason.fate;
    match &reason.facts {
        Facts::Kept { .. } => fate == Fate::Kept,
        Facts::NotEscaping { outputs, memoized } => {
            fate == Fate::NotEscaping && is_not_escaping(outputs, memoized.as_slice())
        }
        Facts::Unused {
            declared_by,
            reassignments,
            returns,
        } => fate == Fate::Unused && is_unused(reason.scope, declared_by, *reassignments, *returns),
        Facts::Dissolved { own, parent } => {
            is_dissolved(fate) && have_same_pairs(own.as_slice(), parent.as_slice())
        }
        Facts::Merged {
            condition,
            head,
            outputs,
            next,
            sources,
            uses,
            end,
        } => {
            is_merged(fate)
                && holds(*condition, head, outputs, next, sources)
                && are_used_below(uses.as_slice(), *end)
        }
        Facts::AlwaysInvalidating { .. } => fate == Fate::AlwaysInvalidating,
    }
}

/// Whether the fate is that the scope dissolves into one around it.
fn is_dissolved(fate: Fate) -> bool
    ensures { IsTrue result ↔ spec.IsDissolved fate }
{
    matches!(fate, Fate::DissolvedInto(_))
}

/// Whether the fate is that the scope merges into one before it.
fn is_merged(fate: Fate) -> bool
    ensures { IsTrue result ↔ spec.IsMerged fate }
{
    matches!(fate, Fate::MergedInto(_))
}

/// Whether there are outputs, and none of them is memoized.
fn is_not_escaping(outputs: &List<DeclarationId>, memoized: &[DeclarationId]) -> bool
    ensures { IsTrue result ↔ spec.IsNotEscaping outputs.now memoized.now }
{
    !outputs.is_empty() && are_outside(outputs.as_slice(), memoized)
}

/// Whether nothing is reassigned, nothing returned, and no value declared by the scope itself.
fn is_unused(scope: ScopeId, declared_by: &List<ScopeId>, reassignments: u32, returns: u32) -> bool
    ensures { IsTrue result ↔ spec.IsUnused scope declared_by.now reassignments returns }
{
    reassignments == 0 && returns == 0 && !declared_by.as_slice().contains(&scope)
}

/// Whether the condition holds of the head's dependencies and outputs and the next scope's dependencies.
fn holds(
    condition: MergeCondition,
    head: &List<DepPair>,
    outputs: &List<DeclarationId>,
    next: &List<DepPair>,
    sources: &List<DeclarationId>,
) -> bool
    ensures { IsTrue result ↔ spec.Holds condition head.now outputs.now next.now sources.now }
{
    match condition {
        MergeCondition::Same => have_same_pairs(head.as_slice(), next.as_slice()),
        MergeCondition::Outputs => are_whole_values(outputs.as_slice(), next.as_slice()),
        MergeCondition::Sources => have_sources(next, outputs.as_slice(), sources.as_slice()),
    }
}

/// Whether there are dependencies, each on a whole value, and as many sources, each of which is an output.
fn have_sources(next: &List<DepPair>, outputs: &[DeclarationId], sources: &[DeclarationId]) -> bool
    ensures { IsTrue result ↔ spec.HaveSources next.now outputs.now sources.now }
{
    are_as_many_whole_values(next, sources) && are_among(sources, outputs)
}

/// Whether there are dependencies, each on a whole value, and as many sources.
fn are_as_many_whole_values(next: &List<DepPair>, sources: &[DeclarationId]) -> bool
    ensures { IsTrue result
        ↔ ((¬ (next.now ≡ [])) × (length sources.now ≡ length next.now) × All IsWhole next.now) }
{
    !next.is_empty() && sources.len() == next.len() && are_whole(next.as_slice())
}

/// Whether each of the pairs is a whole value.
fn are_whole(pairs: &[DepPair]) -> bool
    ensures { IsTrue result ↔ All IsWhole pairs.now }
{
    for pair in pairs {
        if !is_whole(pair) {
            return false;
        }
    }
    true
}

/// Whether each name has its last use below an id, or none.
fn are_used_below(uses: &[NotedUse], end: EvaluationOrder) -> bool
    ensures { IsTrue result ↔ All (spec.IsUsedBelow end) uses.now }
{
    for noted in uses {
        if !is_used_below(*noted, end) {
            return false;
        }
    }
    true
}

fn is_used_below(noted: NotedUse, end: EvaluationOrder) -> bool
    ensures { IsTrue result ↔ spec.IsUsedBelow end noted }
{
    match noted.last {
        Some(last) => last.0 < end.0,
        None => true,
    }
}
