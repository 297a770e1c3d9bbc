//! Whether a graph spells a tree that is given.

ghost use Rattle.std.specs.Prelude.{◌≡◌, ◌↔◌, IsNone, IfOk, IfErr, IfSome};
ghost use Rattle.rc_hir.specs.Names.{NamesInTables};
ghost use Rattle.rc_runs.specs.Spelled.{Spells};
ghost use Rattle.rc_build.specs.GivenTree.{IsBroken, IsNoAnswerCause};
ghost use Rattle.rc_build.specs.inside.Answered.{answer_to, other_tree_at};

use crate::reactive_function::build_reactive_function;
use rc_equality::Equals;
use rc_hir::{Environment, Fault, HirFunction, Rule};
use rc_names::BlockId;
use rc_tree::ReactiveFunction;
use std::alloc::Global;

/// A block of a graph, and the rule that it breaks.
#[derive(Clone, Copy, Debug, PartialEq, Eq)]
pub struct Broken {
    pub block: BlockId,
    pub rule: Rule,
}

/// Returns `None` exactly if the graph spells the tree, with all its parts.
///
/// Otherwise it returns the graph's entry with `OtherTree`; or, only if the graph spells no tree, a block of which
/// the fact of the rule holds. A graph with a number outside its table is refused: `BadName`.
///
/// `NoMemory` may come at any time. The graph isn't copied: its tree is built, and compared with the one that is given.
pub fn spells(
    alloc: Global,
    hir: &HirFunction,
    env: &Environment,
    tree: &ReactiveFunction,
) -> Result<Option<Broken>, Fault>
    ensures same { IfOk result (λ broken. IsNone broken ↔ Spells hir.now env.now tree.now) }
    ensures broken { IfOk result (λ answer. IfSome answer (IsBroken hir.now env.now)) }
    ensures accepted { IfOk result (λ answer. NamesInTables hir.now env.now) }
    ensures refused { IfErr result (IsNoAnswerCause hir.now env.now) }
{
    let entry = hir.body.entry;
    match build_reactive_function(alloc, hir, env) {
        Ok(built) => Ok(difference(&built, tree, entry)),
        Err(fault) => answer(fault, entry),
    }
}

/// What is broken if the graph with this entry spells the tree that was built.
fn difference(built: &ReactiveFunction, tree: &ReactiveFunction, entry: BlockId) -> Option<Broken>
    ensures same { IsNone result ↔ (built.now ≡ tree.now) }
    ensures other { IfSome result (λ broken. broken ≡ other_tree_at entry) }
{
    if built.equals(tree) {
        None
    } else {
        Some(other_tree(entry))
    }
}

/// The answer if the builder refuses the graph with this entry.
fn answer(fault: Fault, entry: BlockId) -> Result<Option<Broken>, Fault>
    ensures { result ≡ answer_to fault entry }
{
    match fault {
        Fault::Malformed { block, rule } => Ok(Some(Broken { block, rule })),
        Fault::Todo { .. } => Ok(Some(other_tree(entry))),
        _ => Err(fault),
    }
}

/// The graph with this entry doesn't spell the tree that is given.
fn other_tree(entry: BlockId) -> Broken
    ensures { result ≡ other_tree_at entry }
{
    Broken {
        block: entry,
        rule: Rule::OtherTree,
    }
}
