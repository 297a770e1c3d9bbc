//! Each scope of the spelled tree is kept, unless a pass decided of it.

ghost use Rattle.std.specs.Prelude.{◌≡◌, ◌↔◌, map, All, Contains, IfOk, OnOk};
ghost use Rattle.std.specs.BTreeSet.{IsFromIterResult};
ghost use Rattle.std.specs.List.Sorted.{IsStrictlyIncreasing};
ghost use Rattle.std.specs.Map.{lookup};
ghost use Rattle.rc_names.specs.Numbers.{ScopeId as Scope, same_id};
ghost use Rattle.rc_tree.specs.inside.DecisionLogs.{fate_by};
ghost use Rattle.rc_tree.specs.declared.fate.Fate.TheVariants.{Kept};
ghost use Rattle.rc_pipe.specs.Fates.{listed_scopes};
ghost use Rattle.rc_pipe.specs.inside.ListedFates.{decided_or, noted, scopes_of};

use rc_names::{Keyed, List, ScopeId};
use rc_tree::{Fate, ScopeFate};
use std::alloc::{AllocError, Global};
use std::collections::BTreeSet;

/// The fates of the scopes of the spelled tree, by what the passes decided. Fails only when out of memory.
pub(crate) fn fates_of(
    alloc: Global,
    spelled: &[ScopeId],
    log: &[ScopeFate],
) -> Result<List<ScopeFate>, AllocError>
    ensures rising { IfOk result (λ fates. IsStrictlyIncreasing (map (λ scope. scope.0) (listed_scopes fates))) }
    ensures listed { IfOk result (λ fates.
        (scope : Scope) → Contains (listed_scopes fates) scope ↔ Contains spelled.now scope) }
    ensures told { IfOk result (All (λ entry. entry.fate ≡ fate_by log.now entry.scope)) }
{
    let scopes: BTreeSet<u32> = in_order(alloc, spelled)?;
    let decided = decisions(alloc, log)?;
    all_fates(alloc, &scopes, &decided)
}

/// The first decision on each scope. Fails only when out of memory.
fn decisions(alloc: Global, log: &[ScopeFate]) -> Result<Keyed<ScopeId, Fate>, AllocError>
    ensures { IfOk result (λ decided. (scope : Scope) →
        decided_or (lookup (same_id scope) decided) Kept ≡ fate_by log.now scope) }
{
    let mut decided = Keyed::new(alloc);
    for entry in log {
        note(&mut decided, entry)?;
    }
    Ok(decided)
}

/// Notes a decision, unless one on its scope is noted. Fails only when out of memory.
fn note(decided: &mut Keyed<ScopeId, Fate>, entry: &ScopeFate) -> Result<(), AllocError>
    ensures { OnOk result (decided.new ≡ noted decided.old entry.now) }
{
    if decided.get(entry.scope).is_some() {
        return Ok(());
    }
    decided.insert(entry.scope, entry.fate)?;
    Ok(())
}

/// The numbers of the scopes, each once and in order. Fails only when out of memory.
fn in_order(alloc: Global, scopes: &[ScopeId]) -> Result<BTreeSet<u32>, AllocError>
    ensures rising { IfOk result (λ set. IsStrictlyIncreasing (map (λ scope. scope.0) (scopes_of set.keys))) }
    ensures same { IfOk result (λ set.
        (scope : Scope) → Contains (scopes_of set.keys) scope ↔ Contains scopes.now scope) }
{
    collected(alloc, scopes)
}

/// The set of the scopes' numbers. Fails only when out of memory.
fn collected(alloc: Global, scopes: &[ScopeId]) -> Result<BTreeSet<u32>, AllocError>
    ensures { IfOk result (IsFromIterResult ⟦<u32 as Ord>⟧.cmp (map (λ scope. scope.0) scopes.now)) }
{
    scopes.iter().map(|scope| scope.0).collect(alloc)
}

/// The scopes of these numbers, each with its fate. Fails only when out of memory.
fn all_fates(
    alloc: Global,
    numbers: &BTreeSet<u32>,
    decided: &Keyed<ScopeId, Fate>,
) -> Result<List<ScopeFate>, AllocError>
    ensures listed { IfOk result (λ fates. listed_scopes fates ≡ scopes_of numbers.now.keys) }
    ensures told { IfOk result (All (λ entry.
        entry.fate ≡ decided_or (lookup (same_id entry.scope) decided.now) Kept)) }
{
    let mut fates = List::new(alloc);
    for number in numbers {
        fates.push(fate_of(ScopeId::new(*number), decided))?;
    }
    Ok(fates)
}

/// A scope with its fate.
fn fate_of(scope: ScopeId, decided: &Keyed<ScopeId, Fate>) -> ScopeFate
    ensures scope { result.scope ≡ scope }
    ensures told { result.fate ≡ decided_or (lookup (same_id scope) decided.now) Kept }
{
    let fate = match decided.get(scope) {
        Some(fate) => *fate,
        None => Fate::Kept,
    };
    ScopeFate { scope, fate }
}
