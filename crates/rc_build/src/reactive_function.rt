//! From a graph to the function that it spells.

ghost use Rattle.std.specs.Prelude.{◌≡◌, ◌⊎◌, ℕ, false, List as Items, IfOk, IfErr, IsOk, Err};
ghost use Rattle.rc_hir.specs.Model.{TableName as Table};
ghost use Rattle.rc_hir.specs.Names.{NamesInTables};
ghost use Rattle.rc_tree.specs.TreeNames.{TreeInTables};
ghost use Rattle.rc_tree.specs.Model.{ReactiveFunction};
ghost use Rattle.rc_runs.specs.BodyRun.{IsBodyRun};
ghost use Rattle.rc_runs.specs.EarlyReturns.{NoEarlyReturnSet};
ghost use Rattle.rc_runs.specs.Event.{Event, End, has_throw};
ghost use Rattle.rc_runs.specs.GraphRun.{IsGraphRun};
ghost use Rattle.rc_runs.specs.Spelled.{Spells};
ghost use Rattle.rc_build.specs.BuildCauses.{IsBuildCause};
ghost use Rattle.rc_build.specs.inside.Built.{IfRefused};
ghost use Rattle.rc_build.specs.RuleFacts.{FaultFact};

use crate::builder::{Builder, Site};
use crate::header::with_header;
use crate::nesting::USUAL_STACK;
use rc_hir::{Environment, Fault, HirFunction, check_names};
use rc_tree::{ReactiveBlock, ReactiveFunction};
use std::alloc::Global;

/// The one function that a graph spells.
///
/// A graph is refused, in this order,
///
/// - with a number outside its table: `BadName`;
/// - if it spells no function: `Malformed`, with a rule whose fact holds of the named block, or `Todo`, which names a
///   block that must give a value and ends in a `Label`.
///
/// `NoMemory` may come at any time: stack is memory, and the builder and the calls that go down its tree take some for
/// each level. This is for a stack of 8 MiB.
pub fn build_reactive_function(
    alloc: Global,
    hir: &HirFunction,
    env: &Environment,
) -> Result<ReactiveFunction, Fault>
    ensures ok { IfOk result (Spells hir.now env.now) }
    ensures accepted { IfOk result (λ built. NamesInTables hir.now env.now) }
    ensures one_tree { IfOk result (λ built.
        (func : ReactiveFunction) → Spells hir.now env.now func → func ≡ built) }
    ensures known { IfOk result (λ built. TreeInTables built env.now) }

    // A break to the label of an early return that is set could be read as that return.
    ensures graph_to_body { IfOk result (λ built. NoEarlyReturnSet env.now
        → (events : Items Event) (end : End) → IsGraphRun hir.now env.now events end
        → IsBodyRun built env.now events end) }
    // A body may throw after any of its rows, and a graph only where it has a `MaybeThrow`.
    ensures body_to_graph { IfOk result (λ built. NoEarlyReturnSet env.now
        → (events : Items Event) (end : End) → has_throw events ≡ false → IsBodyRun built env.now events end
        → IsGraphRun hir.now env.now events end) }

    ensures refused { IfErr result (IsBuildCause hir.now env.now) }
    ensures complete { (func : ReactiveFunction) → NamesInTables hir.now env.now → Spells hir.now env.now func
        → IsOk result ⊎ (result ≡ Err Fault.NoMemory) }
{
    build_reactive_function_within(alloc, hir, env, USUAL_STACK)
}

/// The same where nesting may take that many bytes of stack: a graph that nests deeper is refused with `NoMemory`.
pub fn build_reactive_function_within(
    alloc: Global,
    hir: &HirFunction,
    env: &Environment,
    stack: usize,
) -> Result<ReactiveFunction, Fault>
    ensures ok { IfOk result (Spells hir.now env.now) }
    ensures accepted { IfOk result (λ built. NamesInTables hir.now env.now) }
    ensures one_tree { IfOk result (λ built.
        (func : ReactiveFunction) → Spells hir.now env.now func → func ≡ built) }
    ensures known { IfOk result (λ built. TreeInTables built env.now) }

    // The runs are those that `build_reactive_function` keeps.
    ensures graph_to_body { IfOk result (λ built. NoEarlyReturnSet env.now → (events : Items Event) (end : End)
        → IsGraphRun hir.now env.now events end → IsBodyRun built env.now events end) }
    ensures body_to_graph { IfOk result (λ built. NoEarlyReturnSet env.now → (events : Items Event) (end : End)
        → has_throw events ≡ false → IsBodyRun built env.now events end → IsGraphRun hir.now env.now events end) }

    ensures refused { IfErr result (IsBuildCause hir.now env.now) }
    ensures complete { (func : ReactiveFunction) → NamesInTables hir.now env.now → Spells hir.now env.now func
        → IsOk result ⊎ (result ≡ Err Fault.NoMemory) }
{
    check_names(hir, env)?;
    build_known_function(alloc, hir, env, stack)
}

/// The same for a graph whose numbers are in their tables; that isn't checked again, and `BadName` doesn't come.
pub fn build_known_function(
    alloc: Global,
    hir: &HirFunction,
    env: &Environment,
    stack: usize,
) -> Result<ReactiveFunction, Fault>
    requires known { NamesInTables hir.now env.now }
    ensures ok { IfOk result (Spells hir.now env.now) }
    ensures one_tree { IfOk result (λ built.
        (func : ReactiveFunction) → Spells hir.now env.now func → func ≡ built) }
    ensures known { IfOk result (λ built. TreeInTables built env.now) }

    // The runs are those that `build_reactive_function` keeps.
    ensures graph_to_body { IfOk result (λ built. NoEarlyReturnSet env.now → (events : Items Event) (end : End)
        → IsGraphRun hir.now env.now events end → IsBodyRun built env.now events end) }
    ensures body_to_graph { IfOk result (λ built. NoEarlyReturnSet env.now → (events : Items Event) (end : End)
        → has_throw events ≡ false → IsBodyRun built env.now events end → IsGraphRun hir.now env.now events end) }

    ensures refused { IfErr result (IsBuildCause hir.now env.now) }
    ensures sound { (table : Table) (index : ℕ) → result ≡ Err (Fault.BadName table index) → ⊥ }
    ensures complete { (func : ReactiveFunction) → Spells hir.now env.now func
        → IsOk result ⊎ (result ≡ Err Fault.NoMemory) }
{
    let built = build(alloc, hir, env, stack)?;
    Ok(built)
}

/// The function that a graph spells; nothing is asked of the graph.
///
/// - `Malformed`: the graph spells none, and the rule's fact holds of the named block.
/// - `Todo`: the graph spells none, and the fault names a block that must give a value and ends in a `Label`.
/// - `BadName`: a block names a row that isn't there.
/// - `NoMemory`: out of memory, or of the stack that nesting may take.
fn build<'g>(
    alloc: Global,
    hir: &'g HirFunction,
    env: &'g Environment,
    stack: usize,
) -> Result<ReactiveFunction, Fault>
    ensures ok { IfOk result (λ func. Spells hir.now env.now func) }
    ensures refused { IfRefused result ((func : ReactiveFunction) → Spells hir.now env.now func → ⊥) }
    ensures facts { IfErr result (FaultFact hir.now) }
{
    let entry = Site {
        block: hir.body.entry,
        next: None,
        handler: None,
    };
    let mut builder = Builder::new(alloc, hir, env, stack)?;
    builder.build_list(entry)?;
    let statements = builder.out.take();
    Ok(with_header(alloc, hir, ReactiveBlock { statements })?)
}
