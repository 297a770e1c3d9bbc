//! A small graph that is built in code, with its tree and its fates.

use rc_hir::{
    BasicBlock, Effect, Environment, Fault, GotoVariant, Hir, HirFunction, HirType, Identifier,
    MutableRange, ParamPattern, Place, ReactiveScope, Terminal,
};
use rc_names::{
    BlockId, DeclarationId, EvaluationOrder, IdentifierId, Keyed, List, ScopeId, Text, TypeId,
};
use rc_pipe::{Pruned, build_and_prune};
use rc_program::lines;
use std::alloc::Global;
use std::test::Fail;

/// A place that is read.
fn read(number: u32) -> Place {
    Place {
        identifier: IdentifierId::new(number),
        effect: Effect::Read,
        reactive: false,
        span: None,
    }
}

/// The jump out of the frame of that block.
fn leave(block: u32, id: u32) -> Terminal {
    Terminal::Goto {
        block: BlockId::new(block),
        variant: GotoVariant::Break,
        id: EvaluationOrder::new(id),
        span: None,
    }
}

/// Block 0 is a label with fallthrough 6, block 1 a scope with fallthrough 3, and block 3 an if that leaves the label
/// either way.
fn terminal(number: u32) -> Terminal {
    match number {
        0 => Terminal::Label {
            block: BlockId::new(1),
            fallthrough: BlockId::new(6),
            id: EvaluationOrder::new(1),
            span: None,
        },
        1 => Terminal::Scope {
            fallthrough: BlockId::new(3),
            block: BlockId::new(2),
            scope: ScopeId::new(0),
            id: EvaluationOrder::new(2),
            span: None,
        },
        2 => leave(3, 3),
        3 => Terminal::If {
            test: read(0),
            consequent: BlockId::new(4),
            alternate: BlockId::new(5),
            fallthrough: BlockId::new(5),
            id: EvaluationOrder::new(4),
            span: None,
        },
        4 => leave(6, 5),
        5 => leave(6, 6),
        _ => Terminal::Return {
            value: read(0),
            id: EvaluationOrder::new(7),
            span: None,
        },
    }
}

/// The graph of these seven blocks, which have no rows.
fn graph(alloc: Global) -> Result<HirFunction, Fault> {
    let mut blocks = Keyed::new(alloc);
    for number in 0..7 {
        blocks.insert(
            BlockId::new(number),
            BasicBlock {
                id: BlockId::new(number),
                instructions: List::new(alloc),
                terminal: terminal(number),
            },
        )?;
    }
    let mut params = List::new(alloc);
    params.push(ParamPattern::Place(read(0)))?;
    Ok(HirFunction {
        span: None,
        id: None,
        name_hint: None,
        params,
        generator: false,
        is_async: false,
        context: List::new(alloc),
        body: Hir {
            entry: BlockId::new(0),
            blocks,
        },
        instructions: List::new(alloc),
        directives: List::new(alloc),
    })
}

/// A scope from its `Scope` to the `If`, which declares nothing.
fn scope(alloc: Global) -> ReactiveScope {
    ReactiveScope {
        range: MutableRange {
            start: EvaluationOrder::new(2),
            end: EvaluationOrder::new(4),
        },
        dependencies: List::new(alloc),
        declarations: List::new(alloc),
        reassignments: List::new(alloc),
        early_return_value: None,
        merged: List::new(alloc),
    }
}

/// One identifier, one type, one scope.
fn environment(alloc: Global) -> Result<Environment, Fault> {
    let mut env = Environment::empty(alloc);
    env.types.push(HirType::Other)?;
    env.identifiers.push(Identifier {
        declaration_id: DeclarationId::new(0),
        name: None,
        scope: None,
        type_: TypeId::new(0),
        span: None,
    })?;
    env.scopes.push(scope(alloc))?;
    env.next_block = 7;
    Ok(env)
}

/// The printed text of it. The scope has no output.
const TEXT: &str = "function null hint null generator false async false
param 0
body
  label id 1 as bb6
    body
      pruned 0
      if 0 id 4 as bb5 implicit
        then
          break bb6 labeled id 5
      break bb6 implicit id 6
  return 0 id 7
fates
  scope 0 unused
";

/// The lines of its tree and of its fates.
fn printed(alloc: Global) -> Result<Text, Fault> {
    let mut env = environment(alloc)?;
    let Pruned { func, fates } = build_and_prune(alloc, &graph(alloc)?, &mut env)?;
    Ok(lines(alloc, &func, &fates)?)
}

#[test]
fn a_graph_built_in_code_has_its_tree_and_its_fates(rt: HostRuntime) -> Result<(), Fail> {
    assert_eq!(rt; printed(rt.alloc())?.as_str(), TEXT);
    Ok(())
}
