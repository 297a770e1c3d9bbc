//! The nodes of names, as facts about the names come one by one.
//!
//! A node names the rows that its name is a target of, and the operands of a row are held once, however many targets it
//! has.

ghost use Rattle.std.specs.Prelude.{◌≡◌, [], ◌∷◌, ◌++◌, None, Some, IfOk, OnOk};
ghost use Rattle.std.specs.Map.{keys_of};
ghost use Rattle.std.specs.Option.{option_to_list};
ghost use Rattle.indexmap.specs.IndexMap.{insert_entry};
ghost use Rattle.rc_names.specs.Numbers.{is_among, same_id};
ghost use Rattle.rc_memo.specs.Events.{listed, scopes_facts};
ghost use Rattle.rc_memo.specs.Facts.{GivesLevel, HasScope, NeedsNode, or_else};
ghost use Rattle.rc_memo.specs.inside.Growing.{insert_all};
ghost use Rattle.rc_memo.specs.inside.Nodes.{at_name, at_name_or};
ghost use Rattle.rc_memo.specs.inside.RowNodes.{AddsFacts, empty_row_node, HoldsFacts, with_row_scope, with_target};

use crate::{MemoizationLevel, RowNode, join_aliases};
use rc_names::{DeclarationId, KeySet, Keyed, List, ScopeId};
use std::alloc::{AllocError, Global};

type Nodes = Keyed<DeclarationId, RowNode>;

/// What is held of the facts so far.
#[derive(Drop)]
pub struct HeldNodes {
    pub nodes: Keyed<DeclarationId, RowNode>,
    /// The operands of rows.
    pub operands: List<List<DeclarationId>>,
    /// The first name of which a node was needed when it had none.
    pub missing: Option<DeclarationId>,
}

/// What a row tells of a target, but for its name.
#[derive(Clone, Copy)]
pub struct RowTarget {
    pub level: MemoizationLevel,
    /// The position of the row's operands, where it has some.
    pub row: Option<usize>,
    pub scope: Option<ScopeId>,
}

/// Adds a row to those of a node, where there is one. Fails only when out of memory.
fn put_row_if(rows: &mut List<usize>, row: Option<usize>) -> Result<(), AllocError>
    ensures { OnOk result (rows.new ≡ rows.old ++ option_to_list row) }
{
    match row {
        Some(row) => rows.push(row),
        None => Ok(()),
    }
}

/// Adds a scope to those of a node, where there is one. Fails only when out of memory.
fn put_scope_if(scopes: &mut KeySet<ScopeId>, scope: Option<ScopeId>) -> Result<(), AllocError>
    ensures { OnOk result (scopes.new ≡ insert_all scopes.old (listed scope)) }
{
    match scope {
        Some(scope) => {
            scopes.insert(scope)?;
            Ok(())
        }
        None => Ok(()),
    }
}

/// Adds to a node what a row tells of it. Fails only when out of memory.
fn grow(node: &mut RowNode, target: RowTarget) -> Result<(), AllocError>
    ensures { OnOk result (node.new ≡ with_target target node.old) }
{
    node.level = join_aliases(node.level, target.level);
    put_row_if(&mut node.rows, target.row)?;
    put_scope_if(&mut node.scopes, target.scope)
}

/// Adds a target to the node of its name, and returns whether there is one. Fails only when out of memory.
fn grow_node(nodes: &mut Nodes, name: DeclarationId, target: RowTarget) -> Result<bool, AllocError>
    ensures nodes { IfOk result (λ found. nodes.new ≡ at_name name (with_target target) nodes.old) }
    ensures found { IfOk result (λ found. found ≡ is_among (keys_of nodes.old) name) }
{
    match nodes.get_mut(name) {
        Some(node) => {
            grow(node, target)?;
            Ok(true)
        }
        None => Ok(false),
    }
}

/// Puts a node that has only what a row tells of it. Fails only when out of memory.
fn put_node(
    nodes: &mut Nodes,
    alloc: Global,
    name: DeclarationId,
    target: RowTarget,
) -> Result<(), AllocError>
    ensures { OnOk result (nodes.new ≡ insert_entry same_id nodes.old name (with_target target empty_row_node)) }
{
    let mut node = RowNode {
        level: MemoizationLevel::Never,
        rows: List::new(alloc),
        scopes: KeySet::new(alloc),
    };
    grow(&mut node, target)?;
    nodes.insert(name, node)?;
    Ok(())
}

/// Adds a target; a name without a node gets one. Fails only when out of memory.
#[tactic(auto, using(crate::proofs::EntryLemmas::or_changed, crate::proofs::EntryLemmas::or_put))]
pub fn put_target(
    nodes: &mut Nodes,
    alloc: Global,
    name: DeclarationId,
    target: RowTarget,
) -> Result<(), AllocError>
    ensures { OnOk result (nodes.new ≡ at_name_or empty_row_node name (with_target target) nodes.old) }
{
    if grow_node(nodes, name, target)? {
        return Ok(());
    }
    put_node(nodes, alloc, name, target)
}

/// Puts a scope into the node of a name, and returns whether there is one. Fails only when out of memory.
fn put_scope(nodes: &mut Nodes, name: DeclarationId, scope: ScopeId) -> Result<bool, AllocError>
    ensures nodes { IfOk result (λ found. nodes.new ≡ at_name name (with_row_scope scope) nodes.old) }
    ensures found { IfOk result (λ found. found ≡ is_among (keys_of nodes.old) name) }
{
    match nodes.get_mut(name) {
        Some(node) => {
            node.scopes.insert(scope)?;
            Ok(true)
        }
        None => Ok(false),
    }
}

/// Keeps the name that was missing first.
fn note_missing(missing: &mut Option<DeclarationId>, name: DeclarationId)
    ensures { missing.new ≡ or_else missing.old (Some name) }
{
    if missing.is_none() {
        *missing = Some(name);
    }
}

/// The methods that return a `Result` fail only when out of memory.
impl HeldNodes {
    /// Holds no fact, and has room for that many names and rows.
    pub fn with_capacity(alloc: Global, n: usize) -> Result<HeldNodes, AllocError>
        ensures { IfOk result (λ held. HoldsFacts [] held) }
    {
        Ok(HeldNodes {
            nodes: Keyed::with_capacity(alloc, n)?,
            operands: List::with_capacity(alloc, n)?,
            missing: None,
        })
    }

    /// Adds that a name is a target of a level; a name without a node gets one.
    pub fn add_level(
        &mut self,
        alloc: Global,
        name: DeclarationId,
        level: MemoizationLevel,
    ) -> Result<(), AllocError>
        ensures { OnOk result (AddsFacts (GivesLevel name level ∷ []) self.old self.new) }
    {
        let target = RowTarget {
            level,
            row: None,
            scope: None,
        };
        put_target(&mut self.nodes, alloc, name, target)
    }

    /// Adds that a name has a scope.
    pub fn add_scope(&mut self, name: DeclarationId, scope: ScopeId) -> Result<(), AllocError>
        ensures { OnOk result (AddsFacts (HasScope name scope ∷ []) self.old self.new) }
    {
        if put_scope(&mut self.nodes, name, scope)? {
            return Ok(());
        }
        note_missing(&mut self.missing, name);
        Ok(())
    }

    /// Adds that a name needs a node.
    fn add_need(&mut self, name: DeclarationId)
        ensures { AddsFacts (NeedsNode name ∷ []) self.old self.new }
    {
        match self.nodes.get(name) {
            Some(_) => {}
            None => note_missing(&mut self.missing, name),
        }
    }

    /// Adds that a name has each of these scopes.
    fn add_scopes(&mut self, name: DeclarationId, scopes: &List<ScopeId>) -> Result<(), AllocError>
        ensures { OnOk result (AddsFacts (scopes_facts name scopes.now) self.old self.new) }
    {
        for scope in scopes.as_slice() {
            self.add_scope(name, *scope)?;
        }
        Ok(())
    }

    /// Adds that a name needs a node, and that it has each of these scopes.
    pub fn add_within(
        &mut self,
        name: DeclarationId,
        scopes: &List<ScopeId>,
    ) -> Result<(), AllocError>
        ensures { OnOk result (AddsFacts (NeedsNode name ∷ scopes_facts name scopes.now) self.old self.new) }
    {
        self.add_need(name);
        self.add_scopes(name, scopes)
    }
}
