//! Why each scope has its fate.

ghost use Rattle.std.specs.Prelude.{◌≡◌, ◌⊎◌, All, Err, IfErr, IfOk, IsOk, map};
ghost use Rattle.rc_tree.specs.Model.{ReactiveFunction};
ghost use Rattle.rc_pipe.specs.Headline.{HasAnswer, IsAccepted, IsCause};
ghost use Rattle.rc_why.specs.Fits.{Fits};
ghost use Rattle.rc_why.specs.ReasonOf.{AreReasons, fate_of};
ghost use Rattle.rc_why.specs.inside.ToldFacts.{AreFactsBy, AreLookups, AreThere, HasFactsBy, IsThere};

mod dissolved;
mod escape;
mod invalidating;
mod lookups;
mod merged;
mod unused;

use crate::reason::{Facts, Reason};
use dissolved::dissolved_facts;
use escape::{kept_facts, not_escaping_facts};
use invalidating::invalidating_facts;
use lookups::{Lookups, lookups_of};
use merged::merged_facts;
use rc_hir::{Environment, Fault, HirFunction};
use rc_names::{CloneIn, List};
use rc_pipe::{Told, USUAL_STACK, explain_within};
use rc_tree::{Fate, ScopeFate};
use std::alloc::{AllocError, Global};
use unused::unused_facts;

/// Returns why each scope of the tree that a graph spells has its fate: one reason for each fate that `build_and_prune`
/// lists, in the order of the fates. The facts of each reason are what the rule of the fate read, where it judged the
/// scope, and they fit the fate. The environment isn't changed.
///
/// The faults, their causes and their order are those of `build_and_prune`. Nesting may take as much stack as it may
/// there. Each scope that doesn't escape has a copy of all memoized names.
pub fn why(alloc: Global, hir: &HirFunction, env: &Environment) -> Result<List<Reason>, Fault>
    ensures ok { IfOk result (AreReasons hir.now env.now) }
    ensures fits { IfOk result (All Fits) }
    ensures refused { IfErr result (IsCause hir.now env.now) }

    // A graph that is accepted and has an answer gets its reasons, unless memory runs out.
    ensures complete { (func : ReactiveFunction) → IsAccepted hir.now env.now → HasAnswer hir.now env.now func
        → IsOk result ⊎ (result ≡ Err Fault.NoMemory) }
{
    why_within(alloc, hir, env, USUAL_STACK)
}

/// The same where nesting may take that many bytes of stack. A graph that nests deeper is refused with `NoMemory`.
pub fn why_within(
    alloc: Global,
    hir: &HirFunction,
    env: &Environment,
    stack: usize,
) -> Result<List<Reason>, Fault>
    ensures ok { IfOk result (AreReasons hir.now env.now) }
    ensures fits { IfOk result (All Fits) }
    ensures refused { IfErr result (IsCause hir.now env.now) }
    ensures complete { (func : ReactiveFunction) → IsAccepted hir.now env.now → HasAnswer hir.now env.now func
        → IsOk result ⊎ (result ≡ Err Fault.NoMemory) }
{
    let mut own = env.clone_in(alloc)?;
    let explained = explain_within(alloc, hir, &mut own, stack)?;
    let reasons = reasons_of(
        alloc,
        env,
        explained.pruned.fates.as_slice(),
        &explained.told,
    )?;
    Ok(reasons)
}

/// The reasons of fates, by what the passes told. Fails only when out of memory.
fn reasons_of(
    alloc: Global,
    env: &Environment,
    fates: &[ScopeFate],
    told: &Told,
) -> Result<List<Reason>, AllocError>
    requires { AreThere told.now fates.now }
    ensures fates { IfOk result (λ reasons. map fate_of reasons ≡ fates.now) }
    ensures facts { IfOk result (All (HasFactsBy env.now told.now)) }
{
    let lookups = lookups_of(alloc, told)?;
    let mut reasons = List::new(alloc);
    for entry in fates {
        reasons.push(reason_of(alloc, env, told, &lookups, *entry)?)?;
    }
    Ok(reasons)
}

/// The reason of a fate. Fails only when out of memory.
fn reason_of(
    alloc: Global,
    env: &Environment,
    told: &Told,
    lookups: &Lookups,
    entry: ScopeFate,
) -> Result<Reason, AllocError>
    requires lookups { AreLookups told.now lookups.now }
    requires there { IsThere told.now entry.scope entry.fate }
    ensures fate { IfOk result (λ reason. fate_of reason ≡ entry) }
    ensures facts { IfOk result (HasFactsBy env.now told.now) }
{
    let facts = facts_of(alloc, env, told, lookups, entry)?;
    Ok(Reason {
        scope: entry.scope,
        fate: entry.fate,
        facts,
    })
}

/// The facts of a scope, by its fate. Fails only when out of memory.
fn facts_of(
    alloc: Global,
    env: &Environment,
    told: &Told,
    lookups: &Lookups,
    entry: ScopeFate,
) -> Result<Facts, AllocError>
    requires lookups { AreLookups told.now lookups.now }
    requires there { IsThere told.now entry.scope entry.fate }
    ensures { IfOk result (AreFactsBy env.now told.now entry.scope entry.fate) }
{
    let scope = entry.scope;
    match entry.fate {
        Fate::Kept => kept_facts(alloc, env, &lookups.memoized, scope),
        Fate::NotEscaping => not_escaping_facts(alloc, env, &told.memoized, scope),
        Fate::Unused => unused_facts(alloc, &told.received, scope),
        Fate::DissolvedInto(parent) => {
            dissolved_facts(alloc, env, &told.received, scope, parent)
        }
        Fate::MergedInto(_) => {
            merged_facts(alloc, told.merged.as_slice(), &lookups.merged, scope)
        }
        Fate::AlwaysInvalidating => {
            Ok(invalidating_facts(told.causes.as_slice(), &lookups.causes, scope))
        }
    }
}
