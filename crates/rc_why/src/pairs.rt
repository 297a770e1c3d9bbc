//! Which lists of dependencies are the same.

ghost use Rattle.std.specs.Prelude.{◌≡◌, ◌↔◌, IsTrue, All, Contains, map};
ghost use Rattle.rc_why.specs.Pairs as spec;

use crate::names::is_among;
use rc_equality::Equals;
use rc_hir::DependencyPathEntry;
use rc_merge::DepPair;
use rc_names::DeclarationId;

/// Whether two lists have the same pairs: they are equally long, and each pair of either is in the other. This takes no
/// memory, and may compare each pair of one list with each of the other.
pub(crate) fn have_same_pairs(pairs: &[DepPair], others: &[DepPair]) -> bool
    ensures { IsTrue result ↔ spec.HaveSamePairs pairs.now others.now }
{
    pairs.len() == others.len() && are_among(pairs, others) && are_among(others, pairs)
}

/// Whether the pairs are the whole values of the declarations, as `have_same_pairs` compares them.
pub(crate) fn are_whole_values(declarations: &[DeclarationId], pairs: &[DepPair]) -> bool
    ensures { IsTrue result ↔ spec.HaveSamePairs (map spec.whole declarations.now) pairs.now }
{
    declarations.len() == pairs.len()
        && have_pairs(declarations, pairs)
        && are_declared(pairs, declarations)
}

/// Whether each of the pairs is one of the others.
fn are_among(pairs: &[DepPair], others: &[DepPair]) -> bool
    ensures { IsTrue result ↔ All (Contains others.now) pairs.now }
{
    for pair in pairs {
        if !is_one_of(pair, others) {
            return false;
        }
    }
    true
}

/// Whether the pair is one of the others.
fn is_one_of(pair: &DepPair, others: &[DepPair]) -> bool
    ensures { IsTrue result ↔ Contains others.now pair.now }
{
    for other in others {
        if are_equal_pairs(other, pair) {
            return true;
        }
    }
    false
}

/// Whether the whole value of each of the declarations is one of the pairs.
fn have_pairs(declarations: &[DeclarationId], pairs: &[DepPair]) -> bool
    ensures { IsTrue result ↔ All (Contains pairs.now) (map spec.whole declarations.now) }
{
    for declaration in declarations {
        if !has_pair(*declaration, pairs) {
            return false;
        }
    }
    true
}

/// Whether the whole value of the declaration is one of the pairs.
fn has_pair(declaration: DeclarationId, pairs: &[DepPair]) -> bool
    ensures { IsTrue result ↔ Contains pairs.now (spec.whole declaration) }
{
    for pair in pairs {
        if is_whole(pair) && pair.declaration == declaration {
            return true;
        }
    }
    false
}

/// Whether each of the pairs is the whole value of one of the declarations.
fn are_declared(pairs: &[DepPair], declarations: &[DeclarationId]) -> bool
    ensures { IsTrue result ↔ All (Contains (map spec.whole declarations.now)) pairs.now }
{
    for pair in pairs {
        if !is_declared(pair, declarations) {
            return false;
        }
    }
    true
}

/// Whether the pair is the whole value of one of the declarations.
fn is_declared(pair: &DepPair, declarations: &[DeclarationId]) -> bool
    ensures { IsTrue result ↔ (spec.IsWhole pair.now × Contains declarations.now pair.now.declaration) }
{
    is_whole(pair) && is_among(pair.declaration, declarations)
}

/// Whether the pair is a whole value.
pub(crate) fn is_whole(pair: &DepPair) -> bool
    ensures { IsTrue result ↔ spec.IsWhole pair.now }
{
    pair.path.is_empty()
}

/// Whether the pairs have the same declaration and equal paths.
fn are_equal_pairs(pair: &DepPair, other: &DepPair) -> bool
    ensures { IsTrue result ↔ (pair.now ≡ other.now) }
{
    pair.declaration == other.declaration
        && are_equal_paths(pair.path.as_slice(), other.path.as_slice())
}

/// Whether two paths have equal steps.
fn are_equal_paths(path: &[DependencyPathEntry], other: &[DependencyPathEntry]) -> bool
    ensures { IsTrue result ↔ (path.now ≡ other.now) }
{
    if path.len() != other.len() {
        return false;
    }
    for (i, step) in path.iter().enumerate() {
        if !are_equal_steps(step, &other[i]) {
            return false;
        }
    }
    true
}

fn are_equal_steps(step: &DependencyPathEntry, other: &DependencyPathEntry) -> bool
    ensures { IsTrue result ↔ (step.now ≡ other.now) }
{
    step.optional == other.optional && step.property.equals(&other.property)
}
