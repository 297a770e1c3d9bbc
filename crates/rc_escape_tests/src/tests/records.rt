//! Records made name by name.

use rc_escape::{DeclSet, MemoNode, MemoRecord, MemoizationLevel};
use rc_names::{DeclarationId, KeySet, Keyed, List, ScopeId};
use std::alloc::{AllocError, Global};

/// A record of no name.
pub fn empty(alloc: Global) -> MemoRecord {
    MemoRecord {
        nodes: Keyed::new(alloc),
        scopes: Keyed::new(alloc),
        definitions: Keyed::new(alloc),
        escaping: KeySet::new(alloc),
    }
}

/// Puts a name into the record, with its level, its dependencies and its scopes.
pub fn put(
    alloc: Global,
    record: &mut MemoRecord,
    name: u32,
    level: MemoizationLevel,
    dependencies: &[u32],
    scopes: &[u32],
) -> Result<(), AllocError> {
    let mut node = MemoNode {
        level,
        dependencies: KeySet::new(alloc),
        scopes: KeySet::new(alloc),
    };
    for dependency in dependencies {
        node.dependencies.insert(DeclarationId::new(*dependency))?;
    }
    for scope in scopes {
        node.scopes.insert(ScopeId::new(*scope))?;
    }
    record.nodes.insert(DeclarationId::new(name), node)?;
    Ok(())
}

/// Puts a scope into the record, with its dependencies.
pub fn put_scope(
    alloc: Global,
    record: &mut MemoRecord,
    scope: u32,
    dependencies: &[u32],
) -> Result<(), AllocError> {
    let mut names = List::new(alloc);
    for dependency in dependencies {
        names.push(DeclarationId::new(*dependency))?;
    }
    record.scopes.insert(ScopeId::new(scope), names)?;
    Ok(())
}

/// Lets a name escape.
pub fn escape(record: &mut MemoRecord, name: u32) -> Result<(), AllocError> {
    record.escaping.insert(DeclarationId::new(name))?;
    Ok(())
}

/// Whether the set has these names and no others.
pub fn has_names(set: &DeclSet, names: &[u32]) -> bool {
    if set.len() != names.len() {
        return false;
    }
    names
        .iter()
        .all(|name| set.contains(DeclarationId::new(*name)))
}
