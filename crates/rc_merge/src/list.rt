//! A list of statements, merged from its first to its last with one group that is open.

ghost use Rattle.std.specs.Prelude.{◌≡◌, true, map, None as Nothing, Some as Just, IfOk, OnOk};
ghost use Rattle.std.specs.List.{list_any};
ghost use Rattle.std.specs.Option.{option_map};
ghost use Rattle.rc_tree.specs.declared.statement.ReactiveStatement.{out-ReactiveStatement};
ghost use Rattle.rc_merge.specs.Joining as joining;
ghost use Rattle.rc_merge.specs.Places as places;
ghost use Rattle.rc_merge.specs.inside.LastUsesMet.{uses_of};
ghost use Rattle.rc_merge.specs.inside.ListSteps as steps;
ghost use Rattle.rc_merge.specs.inside.OpenGroups.{IsHeld, IsHeldIf, going, opened};
ghost use Rattle.rc_merge.specs.inside.Rows as rows;
ghost use Rattle.rc_merge.specs.inside.Told as told;

use crate::facts::MergedFacts;
use crate::group::Group;
use crate::known::{Known, always_invalidates};
use crate::rows::row_passes;
use crate::tables::{Tables, no_scope};
use rc_hir::{Environment, ReactiveScope};
use rc_names::{List, ScopeId};
use rc_tree::{Fate, ReactiveInstruction, ReactiveScopeBlock, ReactiveStatement};
use std::alloc::AllocError;

/// What is merged of a list so far: the statements that are done, and the group that is open.
#[derive(Drop)]
pub(crate) struct MergedSoFar {
    done: List<ReactiveStatement>,
    group: Option<Group>,
}

/// Merges a list; one without scope blocks stays as it is. Fails only when out of memory.
pub(crate) fn merge_list(
    known: &Known<'_>,
    statements: List<ReactiveStatement>,
    tables: &mut Tables,
) -> Result<List<ReactiveStatement>, AllocError>
    ensures { IfOk result (λ done. going (record { done = done; group = Nothing }) tables.new
        ≡ steps.went known.now.env.now (uses_of known.now.uses.now) (map out-ReactiveStatement statements)
        tables.old.scopes tables.old.copies tables.old.log) }
{
    if !has_scope(statements.as_slice()) {
        return Ok(statements);
    }
    merge_statements(known, statements, tables)
}

/// The same of any list.
// Not inlined, so that the frames of the walk have no room for its parts.
#[inline(never)]
fn merge_statements(
    known: &Known<'_>,
    statements: List<ReactiveStatement>,
    tables: &mut Tables,
) -> Result<List<ReactiveStatement>, AllocError>
    ensures { IfOk result (λ done. going (record { done = done; group = Nothing }) tables.new
        ≡ steps.went known.now.env.now (uses_of known.now.uses.now) (map out-ReactiveStatement statements)
        tables.old.scopes tables.old.copies tables.old.log) }
{
    let mut left = statements;
    left.reverse();
    let mut list = MergedSoFar {
        done: List::new(known.alloc),
        group: None,
    };
    while let Some(statement) = left.pop() {
        list = list.step(known, statement, tables)?;
    }
    list.close(tables)
}

impl MergedSoFar {
    /// Takes a statement. Fails only when out of memory.
    fn step(
        self,
        known: &Known<'_>,
        statement: ReactiveStatement,
        tables: &mut Tables,
    ) -> Result<MergedSoFar, AllocError>
        requires { IsHeldIf known.now.env.now (uses_of known.now.uses.now) self.group }
        ensures held { IfOk result (λ list. IsHeldIf known.now.env.now (uses_of known.now.uses.now) list.group) }
        ensures stepped { IfOk result (λ list. going list tables.new ≡ steps.step known.now.env.now
            (uses_of known.now.uses.now) (going self tables.old) (out-ReactiveStatement statement)) }
    {
        match statement {
            ReactiveStatement::Instruction(row) => self.meet_row(known, row, tables),
            ReactiveStatement::Scope(block) => self.meet_scope(known, block, tables),
            other => self.finish(other, tables),
        }
    }

    /// A row that passes may be part of the group; any other ends it.
    fn meet_row(
        self,
        known: &Known<'_>,
        row: ReactiveInstruction,
        tables: &mut Tables,
    ) -> Result<MergedSoFar, AllocError>
        requires { IsHeldIf known.now.env.now (uses_of known.now.uses.now) self.group }
        ensures held { IfOk result (λ list. IsHeldIf known.now.env.now (uses_of known.now.uses.now) list.group) }
        ensures stepped { IfOk result (λ list. going list tables.new ≡ steps.step_row known.now.env.now
            (uses_of known.now.uses.now) (rows.row_passes row) row (going self tables.old)) }
    {
        if row_passes(&row) {
            self.pass(known, row, tables)
        } else {
            self.finish(ReactiveStatement::Instruction(row), tables)
        }
    }

    /// A row passes.
    fn pass(
        self,
        known: &Known<'_>,
        row: ReactiveInstruction,
        tables: &mut Tables,
    ) -> Result<MergedSoFar, AllocError>
        requires { IsHeldIf known.now.env.now (uses_of known.now.uses.now) self.group }
        ensures held { IfOk result (λ list. IsHeldIf known.now.env.now (uses_of known.now.uses.now) list.group) }
        ensures stepped { IfOk result (λ list. going list tables.new ≡ steps.step_passing known.now.env.now
            (uses_of known.now.uses.now) (option_map opened self.group) row (going self tables.old)) }
    {
        let MergedSoFar { mut done, group } = self;
        match group {
            None => {
                done.push(ReactiveStatement::Instruction(row))?;
                Ok(MergedSoFar { done, group: None })
            }
            Some(group) => {
                tables.note(known.env, &row)?;
                Ok(MergedSoFar {
                    done,
                    group: Some(group.with_row(known, row)?),
                })
            }
        }
    }

    /// Closes the group, if one is open, and puts a statement after it. Fails only when out of memory.
    fn finish(
        self,
        statement: ReactiveStatement,
        tables: &mut Tables,
    ) -> Result<MergedSoFar, AllocError>
        ensures closed { IfOk result (λ list. list.group ≡ Nothing) }
        ensures stepped { IfOk result (λ list. going list tables.new
            ≡ steps.done_with statement (steps.close (going self tables.old))) }
    {
        let mut done = self.close(tables)?;
        done.push(statement)?;
        Ok(MergedSoFar { done, group: None })
    }

    /// Closes the group, if one is open, and returns the statements that are done. Fails only when out of memory.
    fn close(self, tables: &mut Tables) -> Result<List<ReactiveStatement>, AllocError>
        ensures { IfOk result (λ done. going (record { done = done; group = Nothing }) tables.new
            ≡ steps.close (going self tables.old)) }
    {
        let MergedSoFar { done, group } = self;
        match group {
            None => Ok(done),
            Some(group) => close_group(group, done, tables),
        }
    }

    /// Lets a scope block join the group; if it can't, closes the group, and the block may begin another. Fails only
    /// when out of memory.
    fn meet_scope(
        self,
        known: &Known<'_>,
        block: ReactiveScopeBlock,
        tables: &mut Tables,
    ) -> Result<MergedSoFar, AllocError>
        requires { IsHeldIf known.now.env.now (uses_of known.now.uses.now) self.group }
        ensures held { IfOk result (λ list. IsHeldIf known.now.env.now (uses_of known.now.uses.now) list.group) }
        ensures stepped { IfOk result (λ list. going list tables.new ≡ steps.step_scope known.now.env.now
            (uses_of known.now.uses.now) (option_map opened self.group) block (going self tables.old)) }
    {
        let opens = begins(known, tables, block.scope);
        let MergedSoFar { done, group } = self;
        match group {
            None => begin_if(known, opens, block, done, tables),
            Some(group) => meet_group(known, opens, block, group, done, tables),
        }
    }
}

/// Returns whether one of the statements is a scope block.
fn has_scope(statements: &[ReactiveStatement]) -> bool
    ensures { result ≡ list_any (λ statement. steps.is_scope (out-ReactiveStatement statement)) statements.now }
{
    let mut statements = statements.iter();
    statements.any(|statement| is_scope(statement))
}

fn is_scope(statement: &ReactiveStatement) -> bool
    ensures { result ≡ steps.is_scope (out-ReactiveStatement statement.now) }
{
    match statement {
        ReactiveStatement::Scope(_) => true,
        _ => false,
    }
}

/// Moves the group's block and the rows after it to the finished statements, and the head back into the table. Fails
/// only when out of memory.
fn close_group(
    group: Group,
    done: List<ReactiveStatement>,
    tables: &mut Tables,
) -> Result<List<ReactiveStatement>, AllocError>
    ensures { IfOk result (λ closed. going (record { done = closed; group = Nothing }) tables.new
        ≡ steps.close (going (record { done = done; group = Just group }) tables.old)) }
{
    let mut closed = done;
    let number = group.number();
    let head = group.close(&mut closed)?;
    tables.put_scope(number, head);
    Ok(closed)
}

/// A scope block begins a group, where its scope may. Fails only when out of memory.
fn begin_if(
    known: &Known<'_>,
    opens: bool,
    block: ReactiveScopeBlock,
    done: List<ReactiveStatement>,
    tables: &mut Tables,
) -> Result<MergedSoFar, AllocError>
    ensures held { IfOk result (λ list. IsHeldIf known.now.env.now (uses_of known.now.uses.now) list.group) }
    ensures stepped { IfOk result (λ list. going list tables.new ≡ steps.begin_if known.now.env.now
        (uses_of known.now.uses.now) opens block (going (record { done = done; group = Nothing }) tables.old)) }
{
    let mut done = done;
    if !opens {
        done.push(ReactiveStatement::Scope(block))?;
        return Ok(MergedSoFar { done, group: None });
    }
    let scope = tables.take_scope(known.alloc, block.scope);
    Ok(MergedSoFar {
        done,
        group: Some(Group::begin(known, scope, block)?),
    })
}

/// A scope block joins the group, or closes it. Fails only when out of memory.
fn meet_group(
    known: &Known<'_>,
    opens: bool,
    block: ReactiveScopeBlock,
    group: Group,
    done: List<ReactiveStatement>,
    tables: &mut Tables,
) -> Result<MergedSoFar, AllocError>
    requires { IsHeld known.now.env.now (uses_of known.now.uses.now) group }
    ensures held { IfOk result (λ list. IsHeldIf known.now.env.now (uses_of known.now.uses.now) list.group) }
    ensures stepped { IfOk result (λ list. going list tables.new ≡ steps.join_if known.now.env.now
        (uses_of known.now.uses.now) (steps.joins_open known.now.env.now (uses_of known.now.uses.now) tables.old.copies
        (opened group) (places.scope_at tables.old.scopes block.scope)) opens (opened group) block
        (going (record { done = done; group = Just group }) tables.old)) }
{
    if joins(known, tables, &group, block.scope)? {
        return take_in(known, opens, block, group, done, tables);
    }
    let closed = close_group(group, done, tables)?;
    begin_if(known, opens, block, closed, tables)
}

/// Adds a scope block to the group, which stays open if the block could begin one. Fails only when out of memory.
fn take_in(
    known: &Known<'_>,
    opens: bool,
    block: ReactiveScopeBlock,
    group: Group,
    done: List<ReactiveStatement>,
    tables: &mut Tables,
) -> Result<MergedSoFar, AllocError>
    requires { IsHeld known.now.env.now (uses_of known.now.uses.now) group }
    ensures held { IfOk result (λ list. IsHeldIf known.now.env.now (uses_of known.now.uses.now) list.group) }
    ensures stepped { IfOk result (λ list. going list tables.new ≡ steps.join_if known.now.env.now
        (uses_of known.now.uses.now) true opens (opened group) block
        (going (record { done = done; group = Just group }) tables.old)) }
{
    tell(known, tables, &group, block.scope)?;
    let grown = grow(known, tables, group, block.scope)?;
    tables.decide(block.scope, Fate::MergedInto(grown.number()))?;
    let group = grown.swallow(known, block)?;
    if opens {
        return Ok(MergedSoFar {
            done,
            group: Some(group),
        });
    }
    Ok(MergedSoFar {
        done: close_group(group, done, tables)?,
        group: None,
    })
}

/// Returns whether a scope joins a group. Fails only when out of memory.
fn joins(
    known: &Known<'_>,
    tables: &Tables,
    group: &Group,
    number: ScopeId,
) -> Result<bool, AllocError>
    requires { IsHeld known.now.env.now (uses_of known.now.uses.now) group.now }
    ensures { IfOk result (λ joins. joins ≡ steps.joins_open known.now.env.now (uses_of known.now.uses.now)
        tables.now.copies (opened group.now) (places.scope_at tables.now.scopes number)) }
{
    match tables.scopes.get(number) {
        Some(scope) => group.joins(known, &tables.copies, scope),
        None => group.joins(known, &tables.copies, &no_scope(known.alloc)),
    }
}

/// Tells the facts of a scope that joins a group, where they are asked for. Fails only when out of memory.
fn tell(
    known: &Known<'_>,
    tables: &mut Tables,
    group: &Group,
    number: ScopeId,
) -> Result<(), AllocError>
    requires { IsHeld known.now.env.now (uses_of known.now.uses.now) group.now }
    ensures { OnOk result (tables.new ≡ record tables.old {
      log = steps.told_open known.now.env.now (uses_of known.now.uses.now) tables.old.copies (opened group.now)
          (places.scope_at tables.old.scopes number) tables.old.log;
    }) }
{
    if tables.log.merged.is_none() {
        return Ok(());
    }
    let facts = facts_of(known, tables, group, number)?;
    tables.tell(facts)
}

/// Returns the facts of a scope that joins a group. Fails only when out of memory.
fn facts_of(
    known: &Known<'_>,
    tables: &Tables,
    group: &Group,
    number: ScopeId,
) -> Result<MergedFacts, AllocError>
    requires { IsHeld known.now.env.now (uses_of known.now.uses.now) group.now }
    ensures { IfOk result (λ facts. facts ≡ told.facts_of known.now.env.now (uses_of known.now.uses.now)
        (steps.joined_open tables.now.copies (opened group.now) (places.scope_at tables.now.scopes number))) }
{
    match tables.scopes.get(number) {
        Some(scope) => group.facts(known, &tables.copies, number, scope),
        None => group.facts(known, &tables.copies, number, &no_scope(known.alloc)),
    }
}

/// Returns the group whose head has grown by a scope. Fails only when out of memory.
fn grow(
    known: &Known<'_>,
    tables: &Tables,
    group: Group,
    number: ScopeId,
) -> Result<Group, AllocError>
    requires { IsHeld known.now.env.now (uses_of known.now.uses.now) group }
    ensures held { IfOk result (IsHeld known.now.env.now (uses_of known.now.uses.now)) }
    ensures grown { IfOk result (λ grown. opened grown ≡ steps.grown_if known.now.env.now (uses_of known.now.uses.now)
        true (opened group) (places.scope_at tables.now.scopes number)) }
{
    match tables.scopes.get(number) {
        Some(scope) => group.grow(known, number, scope),
        None => group.grow(known, number, &no_scope(known.alloc)),
    }
}

/// Returns whether a scope may begin a group: it never recomputes, or a value that it declares changes whenever it
/// recomputes.
fn begins(known: &Known<'_>, tables: &Tables, number: ScopeId) -> bool
    ensures { result ≡ joining.begins known.now.env.now (places.scope_at tables.now.scopes number).own }
{
    match tables.scopes.get(number) {
        Some(scope) => may_begin(known.env, scope),
        None => true,
    }
}

fn may_begin(env: &Environment, scope: &ReactiveScope) -> bool
    ensures { result ≡ joining.begins env.now scope.now }
{
    never_recomputes(scope) || declares_invalidating(env, scope)
}

/// Returns whether a scope has no dependency.
#[tactic(auto, using(crate::proofs::EmptyLists::empty_if))]
fn never_recomputes(scope: &ReactiveScope) -> bool
    ensures { result ≡ joining.is_empty scope.now.dependencies }
{
    scope.dependencies.is_empty()
}

/// Returns whether a scope declares a value that is a new one whenever it is computed.
fn declares_invalidating(env: &Environment, scope: &ReactiveScope) -> bool
    ensures { result ≡ list_any (joining.declares_invalidating env.now) scope.now.declarations }
{
    let mut declarations = scope.declarations.as_slice().iter();
    declarations.any(|entry| always_invalidates(env, entry.value.identifier))
}
