//! A graph spells its tree alone.

use super::graph::{environment, graph};
use super::tree::{CHANGES, Change, tree};
use rc_build::{Broken, USUAL_STACK, build_known_function, build_reactive_function, spells};
use rc_equality::Equals;
use rc_hir::{Fault, Rule, check_names};
use rc_names::BlockId;
use std::alloc::Global;
use std::test::Fail;

/// What is broken if the graph spells the tree with that change.
fn broken(alloc: Global, change: Change) -> Result<Option<Broken>, Fault> {
    let hir = graph(alloc)?;
    let env = environment(alloc)?;
    spells(alloc, &hir, &env, &tree(alloc, change)?)
}

#[test]
fn a_graph_spells_one_tree_alone(rt: HostRuntime) -> Result<(), Fail> {
    let alloc = rt.alloc();
    assert_eq!(rt; broken(alloc, Change::Nothing)?, None);
    let other = Broken {
        block: BlockId::new(0),
        rule: Rule::OtherTree,
    };
    for change in CHANGES {
        assert_eq!(rt; broken(alloc, change)?, Some(other), "{change:?}");
    }
    Ok(())
}

/// Whether the tree that is written here is the one that the graph builds.
fn is_built(alloc: Global) -> Result<bool, Fault> {
    let hir = graph(alloc)?;
    let env = environment(alloc)?;
    let built = build_reactive_function(alloc, &hir, &env)?;
    Ok(built.equals(&tree(alloc, Change::Nothing)?))
}

#[test]
fn the_spelled_tree_is_built(rt: HostRuntime) -> Result<(), Fail> {
    assert!(rt; is_built(rt.alloc())?);
    Ok(())
}

/// Whether the tree of the graph is built where its numbers are checked before.
fn is_built_of_known(alloc: Global) -> Result<bool, Fault> {
    let hir = graph(alloc)?;
    let env = environment(alloc)?;
    check_names(&hir, &env)?;
    let built = build_known_function(alloc, &hir, &env, USUAL_STACK)?;
    Ok(built.equals(&tree(alloc, Change::Nothing)?))
}

#[test]
fn the_spelled_tree_is_built_of_known_numbers(rt: HostRuntime) -> Result<(), Fail> {
    assert!(rt; is_built_of_known(rt.alloc())?);
    Ok(())
}
