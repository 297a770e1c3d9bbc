//! Small functions of scope blocks, and environments with their scopes.

use rc_hir::{
    DeclarationEntry, Environment, MutableRange, ReactiveScope, ReactiveScopeDeclaration,
    ReactiveScopeDependency,
};
use rc_names::{EvaluationOrder, IdentifierId, List, ScopeId};
use rc_slots::{ScopeSlots, SlotOwner, SlotPart};
use rc_tree::{
    PrunedReactiveScopeBlock, ReactiveBlock, ReactiveFunction, ReactiveScopeBlock,
    ReactiveStatement,
};
use std::alloc::{AllocError, Global};

/// How many dependencies, declarations and reassignments a scope has.
pub type Counts = (u32, u32, u32);

fn dependencies(alloc: Global, count: u32) -> Result<List<ReactiveScopeDependency>, AllocError> {
    let mut all = List::new(alloc);
    for name in 0..count {
        all.push(ReactiveScopeDependency {
            identifier: IdentifierId::new(name),
            reactive: true,
            path: List::new(alloc),
            span: None,
        })?;
    }
    Ok(all)
}

fn declarations(alloc: Global, count: u32) -> Result<List<DeclarationEntry>, AllocError> {
    let mut all = List::new(alloc);
    for name in 0..count {
        let identifier = IdentifierId::new(name);
        all.push(DeclarationEntry {
            key: identifier,
            value: ReactiveScopeDeclaration {
                identifier,
                scope: ScopeId::new(0),
            },
        })?;
    }
    Ok(all)
}

fn reassignments(alloc: Global, count: u32) -> Result<List<IdentifierId>, AllocError> {
    let mut all = List::new(alloc);
    for name in 0..count {
        all.push(IdentifierId::new(name))?;
    }
    Ok(all)
}

/// A scope with that many entries in its lists.
fn scope(alloc: Global, counts: Counts) -> Result<ReactiveScope, AllocError> {
    Ok(ReactiveScope {
        range: MutableRange {
            start: EvaluationOrder::new(1),
            end: EvaluationOrder::new(9),
        },
        dependencies: dependencies(alloc, counts.0)?,
        declarations: declarations(alloc, counts.1)?,
        reassignments: reassignments(alloc, counts.2)?,
        early_return_value: None,
        merged: List::new(alloc),
    })
}

/// An environment with a scope for each of these counts.
pub fn environment(alloc: Global, scopes: &[Counts]) -> Result<Environment, AllocError> {
    let mut env = Environment::empty(alloc);
    for counts in scopes {
        let scope = scope(alloc, *counts)?;
        if !env.scopes.is_full() {
            env.scopes.push(scope)?;
        }
    }
    Ok(env)
}

/// The block of a scope around statements.
pub fn scope_around(number: u32, statements: List<ReactiveStatement>) -> ReactiveStatement {
    ReactiveStatement::Scope(ReactiveScopeBlock {
        scope: ScopeId::new(number),
        instructions: ReactiveBlock { statements },
    })
}

/// The pruned block of a scope around statements.
pub fn pruned_around(number: u32, statements: List<ReactiveStatement>) -> ReactiveStatement {
    ReactiveStatement::PrunedScope(PrunedReactiveScopeBlock {
        scope: ScopeId::new(number),
        instructions: ReactiveBlock { statements },
    })
}

/// Empty blocks of these scopes, one after the other.
pub fn blocks(alloc: Global, scopes: &[u32]) -> Result<List<ReactiveStatement>, AllocError> {
    let mut statements = List::new(alloc);
    for number in scopes {
        statements.push(scope_around(*number, List::new(alloc)))?;
    }
    Ok(statements)
}

/// A function with that body and nothing else.
pub fn function(alloc: Global, statements: List<ReactiveStatement>) -> ReactiveFunction {
    ReactiveFunction {
        span: None,
        id: None,
        name_hint: None,
        params: List::new(alloc),
        generator: false,
        is_async: false,
        body: ReactiveBlock { statements },
        directives: List::new(alloc),
    }
}

/// The slots of a scope block.
pub fn slots(scope: u32, first: u32, counts: Counts) -> ScopeSlots {
    ScopeSlots {
        scope: ScopeId::new(scope),
        first,
        dependencies: counts.0,
        declarations: counts.1,
        reassignments: counts.2,
    }
}

/// The owner of a slot.
pub fn owner(scope: u32, part: SlotPart) -> Option<SlotOwner> {
    Some(SlotOwner {
        scope: ScopeId::new(scope),
        part,
    })
}
