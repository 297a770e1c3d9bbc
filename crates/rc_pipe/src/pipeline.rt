//! The call that users make: from a graph to the pruned function and the fate of each scope.
//!
//! The builder, the checks and the passes are after those of the same names in oxc_react_compiler 0.143.0; their order
//! is this project's.

ghost use Rattle.std.specs.Prelude.{◌≡◌, ◌≢◌, ◌⊎◌, IfOk, IfErr, OnOk, IsOk, Err};
ghost use Rattle.rc_hir.specs.KeptNumbers.{KeepsNumbers};
ghost use Rattle.rc_hir.specs.Model.{Environment};
ghost use Rattle.rc_hir.specs.Names.{NamesInTables};
ghost use Rattle.rc_tree.specs.Model.{ReactiveFunction};
ghost use Rattle.rc_pipe.specs.Explained.{IsExplained};
ghost use Rattle.rc_pipe.specs.Headline.{HasAnswer, IsAccepted, IsAnswer, IsCause};
ghost use Rattle.rc_pipe.specs.declared.pipeline.Pruned.{Pruned as Answer};
ghost use Rattle.rc_pipe.specs.inside.PrunedParts.{IsExplainedIf};

use crate::causes::{first_early_return, has_room};
use crate::explaining::Told;
use crate::fates::fates_of;
use crate::passes::prune;
use rc_build::{USUAL_STACK, build_known_function};
use rc_hir::{Environment, Fault, HirFunction, check_names};
use rc_names::List;
use rc_tree::{ReactiveFunction, ScopeFate};
use std::alloc::Global;

/// A pruned function, with the fate of each scope block of the tree that its graph spells.
#[derive(Drop)]
pub struct Pruned {
    pub func: ReactiveFunction,
    pub fates: List<ScopeFate>,
}

/// A pruned function, and what the passes told of the fates. Where no scope has a fate, nothing is told.
#[derive(Drop)]
pub struct Explained {
    pub pruned: Pruned,
    pub told: Told,
}

/// Builds the one tree that a graph spells and prunes it: its unused labels, its scopes that don't escape, the
/// dependencies of scopes that aren't reactive, and its unused scopes; merges its scopes that invalidate together;
/// prunes those that always invalidate; and makes each `Return` in a scope block a store and a jump out of the
/// outermost scope block around it. Returns it with the fate of each scope of the spelled tree. The environment gets
/// the dependencies that stay, the merged scopes, and the early returns with their variables and labels.
///
/// Returns the first of these faults that has its cause:
///
/// - `BadName`: a number is outside its table;
/// - `EarlyReturnSet`: a scope has an early return already; the fault names the lowest such scope;
/// - `NoIds`: too few numbers are left for those that early returns may need;
/// - `Malformed`: the graph spells no tree; the fault names a block and a rule whose fact holds of it;
/// - `Todo`: the graph spells no tree; the fault names a block that must give a value and ends in a `Label`;
/// - `ScopeCompleted`: an operand is outside the blocks of its scope; the fault names the last one;
/// - `Uninitialised`: the memo record needs a node of a name that has none yet; the fault names the first such name;
/// - `NoScopeNode`: a scope of a node of the memo record has no record; the fault names the lowest such scope.
///
/// Returns `NoMemory` whenever it runs out of memory: stack is memory, and each level of nesting takes some. This is
/// for a stack of 8 MiB. After any other fault the environment is as before. Whatever it returns, no table of the
/// environment is shorter than before, so every number that was in its table still is.
pub fn build_and_prune(
    alloc: Global,
    hir: &HirFunction,
    env: &mut Environment,
) -> Result<Pruned, Fault>
    ensures ok { IfOk result (IsAnswer hir.now env.old env.new) }
    ensures one_answer { IfOk result (λ pruned. (answered : Environment) (other : Answer) →
        IsAnswer hir.now env.old answered other → (answered ≡ env.new) × (other.func ≡ pruned.func)) }
    ensures refused { IfErr result (IsCause hir.now env.old) }
    ensures kept_environment { IfErr result (λ fault. (fault ≡ Fault.NoMemory) ⊎ (env.new ≡ env.old)) }
    ensures kept_numbers { KeepsNumbers env.old env.new }
    ensures known_names { NamesInTables hir.now env.old → NamesInTables hir.now env.new }

    // A graph that is accepted and has an answer gets it, unless memory runs out.
    ensures complete { (func : ReactiveFunction) → IsAccepted hir.now env.old → HasAnswer hir.now env.old func
        → IsOk result ⊎ (result ≡ Err Fault.NoMemory) }
{
    build_and_prune_within(alloc, hir, env, USUAL_STACK)
}

/// The same where nesting may take that many bytes of stack. A graph that nests deeper is refused with `NoMemory`
/// before any call goes down its tree.
pub fn build_and_prune_within(
    alloc: Global,
    hir: &HirFunction,
    env: &mut Environment,
    stack: usize,
) -> Result<Pruned, Fault>
    ensures ok { IfOk result (IsAnswer hir.now env.old env.new) }
    ensures one_answer { IfOk result (λ pruned. (answered : Environment) (other : Answer) →
        IsAnswer hir.now env.old answered other → (answered ≡ env.new) × (other.func ≡ pruned.func)) }
    ensures refused { IfErr result (IsCause hir.now env.old) }
    ensures kept_environment { IfErr result (λ fault. (fault ≡ Fault.NoMemory) ⊎ (env.new ≡ env.old)) }
    ensures kept_numbers { KeepsNumbers env.old env.new }
    ensures known_names { NamesInTables hir.now env.old → NamesInTables hir.now env.new }
    ensures complete { (func : ReactiveFunction) → IsAccepted hir.now env.old → HasAnswer hir.now env.old func
        → IsOk result ⊎ (result ≡ Err Fault.NoMemory) }
{
    let explained = answer(alloc, hir, env, stack, false)?;
    Ok(explained.pruned)
}

/// The same as `build_and_prune`, and what the passes read where they decided the fates. No other steps are taken, so
/// the faults are those of `build_and_prune`, and so is their order.
pub fn explain(alloc: Global, hir: &HirFunction, env: &mut Environment) -> Result<Explained, Fault>
    ensures ok { IfOk result (λ it. IsAnswer hir.now env.old env.new it.pruned) }
    ensures told { IfOk result (IsExplained hir.now env.old env.new) }
    ensures refused { IfErr result (IsCause hir.now env.old) }
    ensures kept_environment { IfErr result (λ fault. (fault ≡ Fault.NoMemory) ⊎ (env.new ≡ env.old)) }
    ensures kept_numbers { KeepsNumbers env.old env.new }
    ensures complete { (func : ReactiveFunction) → IsAccepted hir.now env.old → HasAnswer hir.now env.old func
        → IsOk result ⊎ (result ≡ Err Fault.NoMemory) }
{
    explain_within(alloc, hir, env, USUAL_STACK)
}

/// The same where nesting may take that many bytes of stack. A graph that nests deeper is refused with `NoMemory`.
pub fn explain_within(
    alloc: Global,
    hir: &HirFunction,
    env: &mut Environment,
    stack: usize,
) -> Result<Explained, Fault>
    ensures ok { IfOk result (λ it. IsAnswer hir.now env.old env.new it.pruned) }
    ensures told { IfOk result (IsExplained hir.now env.old env.new) }
    ensures refused { IfErr result (IsCause hir.now env.old) }
    ensures kept_environment { IfErr result (λ fault. (fault ≡ Fault.NoMemory) ⊎ (env.new ≡ env.old)) }
    ensures kept_numbers { KeepsNumbers env.old env.new }
    ensures complete { (func : ReactiveFunction) → IsAccepted hir.now env.old → HasAnswer hir.now env.old func
        → IsOk result ⊎ (result ≡ Err Fault.NoMemory) }
{
    answer(alloc, hir, env, stack, true)
}

/// The pruned function and, if `explain` is set, what the passes told.
fn answer(
    alloc: Global,
    hir: &HirFunction,
    env: &mut Environment,
    stack: usize,
    explain: bool,
) -> Result<Explained, Fault>
    ensures ok { IfOk result (IsExplainedIf explain hir.now env.old env.new) }
    ensures refused { IfErr result (IsCause hir.now env.old) }
    ensures kept_environment { IfErr result (λ fault. (fault ≡ Fault.NoMemory) ⊎ (env.new ≡ env.old)) }
    ensures kept_numbers { KeepsNumbers env.old env.new }
    ensures known_names { NamesInTables hir.now env.old → NamesInTables hir.now env.new }
    ensures complete { (func : ReactiveFunction) → IsAccepted hir.now env.old → HasAnswer hir.now env.old func
        → IsOk result ⊎ (result ≡ Err Fault.NoMemory) }
{
    accept(hir, env)?;
    let mut func = build_known_function(alloc, hir, env, stack)?;
    let decided = prune(alloc, hir, &mut func, env, explain)?;
    let fates = fates_of(alloc, decided.spelled.as_slice(), decided.log.as_slice())?;
    let pruned = Pruned { func, fates };
    let told = decided.told;
    Ok(Explained { pruned, told })
}

/// Refuses a graph for its numbers, its early returns or its room for numbers, in this order. This takes no memory.
fn accept(hir: &HirFunction, env: &Environment) -> Result<(), Fault>
    ensures ok { OnOk result (IsAccepted hir.now env.now) }
    ensures refused { IfErr result (λ fault. IsCause hir.now env.now fault × (fault ≢ Fault.NoMemory)) }
{
    check_names(hir, env)?;
    if let Some(scope) = first_early_return(env) {
        return Err(Fault::EarlyReturnSet { scope });
    }
    if !has_room(hir, env) {
        return Err(Fault::NoIds);
    }
    Ok(())
}
