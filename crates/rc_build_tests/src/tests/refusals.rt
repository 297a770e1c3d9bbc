//! Graphs that spell no tree, and graphs for which there is no answer.

use super::graph::{environment, graph, place};
use super::tree::{Change, tree};
use rc_build::{Broken, spells};
use rc_hir::{Environment, Fault, HirFunction, Rule, TableName, Terminal};
use rc_names::{BlockId, EvaluationOrder};
use std::alloc::{AllocError, Global};
use std::test::Fail;

/// The graph, with another terminal at the end of its last block.
fn ending(alloc: Global, terminal: Terminal) -> Result<HirFunction, AllocError> {
    let mut hir = graph(alloc)?;
    if let Some(block) = hir.body.blocks.get_mut(BlockId::new(7)) {
        block.terminal = terminal;
    }
    Ok(hir)
}

/// The answer for that graph and the tree.
fn answer(alloc: Global, terminal: Terminal) -> Result<Option<Broken>, Fault> {
    let hir = ending(alloc, terminal)?;
    let env = environment(alloc)?;
    spells(alloc, &hir, &env, &tree(alloc, Change::Nothing)?)
}

/// The block and the rule that are named for that graph.
fn named(alloc: Global, terminal: Terminal) -> Option<Broken> {
    match answer(alloc, terminal) {
        Ok(broken) => broken,
        Err(_) => None,
    }
}

/// The fault in place of an answer for that graph.
fn fault(alloc: Global, terminal: Terminal) -> Option<Fault> {
    answer(alloc, terminal).err()
}

/// The return of a place.
fn end(number: u32, id: u32) -> Terminal {
    Terminal::Return {
        value: place(number),
        id: EvaluationOrder::new(id),
        span: None,
    }
}

#[test]
fn a_broken_graph_is_named_with_its_rule(rt: HostRuntime) -> Result<(), Fail> {
    let unset = Broken {
        block: BlockId::new(7),
        rule: Rule::UnsetId,
    };
    assert_eq!(rt; named(rt.alloc(), end(3, 0)), Some(unset));
    Ok(())
}

#[test]
fn a_number_outside_its_table_has_no_answer(rt: HostRuntime) -> Result<(), Fail> {
    let outside = Fault::BadName {
        table: TableName::Identifiers,
        index: 6,
    };
    assert_eq!(rt; fault(rt.alloc(), end(6, 0)), Some(outside));
    Ok(())
}
