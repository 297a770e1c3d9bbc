//! The group that is open: a head, what its block holds, and the rows that passed since.

ghost use Rattle.std.specs.Prelude.{◌≡◌, ◌++◌, ◌&&◌, [], IfOk, OnOk};
ghost use Rattle.std.specs.Prelude as lists;
ghost use Rattle.std.specs.Option.{unwrap_or};
ghost use Rattle.rc_names.specs.Numbers.{ScopeId as ScopeNumber};
ghost use Rattle.rc_tree.specs.declared.statement.ReactiveStatement.TheVariants as reactive;
ghost use Rattle.rc_merge.specs.Explained as explained;
ghost use Rattle.rc_merge.specs.declared.facts.MergeCondition.TheVariants as conditions;
ghost use Rattle.rc_merge.specs.Joining as spec;
ghost use Rattle.rc_merge.specs.inside.OpenGroups.{IsHeld, begun, opened};
ghost use Rattle.rc_merge.specs.inside.LastUsesMet.{uses_of};
ghost use Rattle.rc_merge.specs.inside.ListSteps as steps;
ghost use Rattle.rc_merge.specs.inside.Rows.{copies_of};
ghost use Rattle.rc_merge.specs.inside.Told as told;

use crate::declared::Declared;
use crate::facts::{MergeCondition, MergedFacts, noted_uses, pairs_of};
use crate::known::Known;
use crate::rows::{Copies, add_names};
use crate::sorted_inputs::have_equal_inputs;
use rc_hir::ReactiveScope;
use rc_names::{DeclarationId, EvaluationOrder, List, ScopeId};
use rc_tree::{ReactiveBlock, ReactiveInstruction, ReactiveScopeBlock, ReactiveStatement};
use std::alloc::AllocError;

/// The group that is open.
#[derive(Drop)]
pub(crate) struct Group {
    number: ScopeId,
    /// The head, without its declarations.
    head: ReactiveScope,
    declared: Declared,
    inside: List<ReactiveStatement>,
    rows: List<ReactiveInstruction>,
    names: List<DeclarationId>,
}

impl Group {
    /// Returns the group that a scope block begins. Fails only when out of memory.
    pub fn begin(
        known: &Known<'_>,
        scope: ReactiveScope,
        block: ReactiveScopeBlock,
    ) -> Result<Group, AllocError>
        ensures held { IfOk result (IsHeld known.now.env.now (uses_of known.now.uses.now)) }
        ensures begun { IfOk result (λ group. opened group ≡ begun scope block) }
    {
        let mut head = scope;
        let declarations = head.declarations.take();
        let mut begun = block;
        Ok(Group {
            number: begun.scope,
            head,
            declared: Declared::new(known, declarations.as_slice())?,
            inside: begun.instructions.statements.take(),
            rows: List::new(known.alloc),
            names: List::new(known.alloc),
        })
    }

    /// Returns the number of the head.
    pub fn number(&self) -> ScopeId
        ensures { result ≡ self.now.number }
    {
        self.number
    }

    /// Returns the group with a row that passes. Fails only when out of memory.
    pub fn with_row(self, known: &Known<'_>, row: ReactiveInstruction) -> Result<Group, AllocError>
        requires { IsHeld known.now.env.now (uses_of known.now.uses.now) self }
        ensures held { IfOk result (IsHeld known.now.env.now (uses_of known.now.uses.now)) }
        ensures added { IfOk result (λ group. opened group
            ≡ steps.with_row known.now.env.now (uses_of known.now.uses.now) (opened self) row) }
    {
        let mut group = self;
        add_names(known.alloc, known.env, &row, &mut group.names)?;
        group.rows.push(row)?;
        Ok(group)
    }

    /// Returns whether a scope joins the group. Fails only when out of memory.
    pub fn joins(
        &self,
        known: &Known<'_>,
        copies: &Copies,
        scope: &ReactiveScope,
    ) -> Result<bool, AllocError>
        requires { IsHeld known.now.env.now (uses_of known.now.uses.now) self.now }
        ensures { IfOk result (λ joins. joins ≡ spec.joins known.now.env.now (uses_of known.now.uses.now)
            (copies_of copies.now) (opened self.now).head.own (opened self.now).names scope.now) }
    {
        if !reassign_nothing(&self.head, scope) {
            return Ok(false);
        }
        if self.condition(known, copies, scope)?.is_none() {
            return Ok(false);
        }
        Ok(are_used_below(known, scope.range.end, self.names.as_slice()))
    }

    /// Returns the first of the three conditions by which a scope recomputes only where the head does, if one of them
    /// holds. Fails only when out of memory.
    fn condition(
        &self,
        known: &Known<'_>,
        copies: &Copies,
        scope: &ReactiveScope,
    ) -> Result<Option<MergeCondition>, AllocError>
        requires { IsHeld known.now.env.now (uses_of known.now.uses.now) self.now }
        ensures { IfOk result (λ condition. condition ≡ told.first_condition known.now.env.now
            (copies_of copies.now) (opened self.now).head.own scope.now) }
    {
        let dependencies = &scope.dependencies;
        if have_equal_inputs(
            known.alloc,
            &self.head.dependencies,
            dependencies,
            known.env,
        )? {
            return Ok(Some(MergeCondition::Same));
        }
        if self.declared.are_inputs_of(known, dependencies)? {
            return Ok(Some(MergeCondition::Outputs));
        }
        if self
            .declared
            .are_sources_of(known, copies, dependencies.as_slice())
        {
            return Ok(Some(MergeCondition::Sources));
        }
        Ok(None)
    }

    /// Returns the facts of a scope that joins the group. Fails only when out of memory.
    pub fn facts(
        &self,
        known: &Known<'_>,
        copies: &Copies,
        number: ScopeId,
        scope: &ReactiveScope,
    ) -> Result<MergedFacts, AllocError>
        requires { IsHeld known.now.env.now (uses_of known.now.uses.now) self.now }
        ensures { IfOk result (λ facts. facts ≡ told.facts_of known.now.env.now (uses_of known.now.uses.now)
            (steps.joined_open copies.now (opened self.now) (record { number = number; own = scope.now }))) }
    {
        let condition = self.holding_condition(known, copies, scope)?;
        Ok(MergedFacts {
            scope: number,
            into: self.number,
            condition,
            head: pairs_of(known.alloc, known.env, self.head.dependencies.as_slice())?,
            outputs: self.declared.outputs(known)?,
            next: pairs_of(known.alloc, known.env, scope.dependencies.as_slice())?,
            sources: self.sources(known, copies, condition, scope)?,
            uses: noted_uses(known, self.names.as_slice())?,
            end: scope.range.end,
        })
    }

    /// Returns the first of the three conditions that holds where one does, and else the last one. Fails only when out
    /// of memory.
    fn holding_condition(
        &self,
        known: &Known<'_>,
        copies: &Copies,
        scope: &ReactiveScope,
    ) -> Result<MergeCondition, AllocError>
        requires { IsHeld known.now.env.now (uses_of known.now.uses.now) self.now }
        ensures { IfOk result (λ condition. condition
            ≡ explained.condition_of known.now.env.now (opened self.now).head.own scope.now) }
    {
        let condition = self.condition(known, copies, scope)?;
        Ok(condition_or_last(condition))
    }

    /// Returns the values of the head that the dependencies are or copy, where the third condition holds. Fails only
    /// when out of memory.
    fn sources(
        &self,
        known: &Known<'_>,
        copies: &Copies,
        condition: MergeCondition,
        scope: &ReactiveScope,
    ) -> Result<List<DeclarationId>, AllocError>
        requires { IsHeld known.now.env.now (uses_of known.now.uses.now) self.now }
        ensures { IfOk result (λ sources. (number : ScopeNumber) → sources ≡ told.sources_by known.now.env.now condition
            (steps.joined_open copies.now (opened self.now) (record { number = number; own = scope.now }))) }
    {
        match condition {
            MergeCondition::Same => Ok(List::new(known.alloc)),
            MergeCondition::Outputs => Ok(List::new(known.alloc)),
            MergeCondition::Sources => {
                self.declared
                    .sources_of(known, copies, scope.dependencies.as_slice())
            }
        }
    }

    /// Returns the group whose head has grown by a scope. Fails only when out of memory.
    pub fn grow(
        self,
        known: &Known<'_>,
        number: ScopeId,
        scope: &ReactiveScope,
    ) -> Result<Group, AllocError>
        requires { IsHeld known.now.env.now (uses_of known.now.uses.now) self }
        ensures held { IfOk result (IsHeld known.now.env.now (uses_of known.now.uses.now)) }
        ensures grown { IfOk result (λ group. opened group ≡ record (opened self) {
          head = spec.grown known.now.env.now (uses_of known.now.uses.now) (opened self).head
              (record { number = number; own = scope.now });
        }) }
    {
        let Group {
            number: head_number,
            mut head,
            declared,
            inside,
            rows,
            names,
        } = self;
        let end = later(head.range.end, scope.range.end);
        head.range.end = end;
        head.merged.push(number)?;
        Ok(Group {
            number: head_number,
            head,
            declared: declared.grow(known, end, scope.declarations.as_slice())?,
            inside,
            rows,
            names,
        })
    }

    /// Returns the group with the statements of a block in it, after the rows that passed. Fails only when out of
    /// memory.
    pub fn swallow(self, known: &Known<'_>, block: ReactiveScopeBlock) -> Result<Group, AllocError>
        requires { IsHeld known.now.env.now (uses_of known.now.uses.now) self }
        ensures held { IfOk result (IsHeld known.now.env.now (uses_of known.now.uses.now)) }
        ensures swallowed { IfOk result (λ group. opened group ≡ steps.swallowed (opened self) block) }
    {
        let mut group = self;
        let rows = group.rows.take();
        push_rows(&mut group.inside, rows)?;
        let mut swallowed = block;
        group
            .inside
            .append(swallowed.instructions.statements.take())?;
        group.names = List::new(known.alloc);
        Ok(group)
    }

    /// Appends the group's block and the passed rows to a list, and returns the head. Fails only when out of memory.
    pub fn close(self, done: &mut List<ReactiveStatement>) -> Result<ReactiveScope, AllocError>
        ensures done { OnOk result (done.new ≡ steps.closed (lists.Some (opened self)) done.old) }
        ensures head { IfOk result (λ head. head ≡ (opened self).head.own) }
    {
        let Group {
            number,
            mut head,
            declared,
            inside,
            rows,
            ..
        } = self;
        done.push(scope_block(number, inside))?;
        push_rows(done, rows)?;
        head.declarations = declared.into_entries()?;
        Ok(head)
    }
}

fn scope_block(number: ScopeId, inside: List<ReactiveStatement>) -> ReactiveStatement
    ensures { result ≡ reactive.Scope (steps.block_of number inside) }
{
    ReactiveStatement::Scope(ReactiveScopeBlock {
        scope: number,
        instructions: ReactiveBlock { statements: inside },
    })
}

/// Adds rows at the end of statements. Fails only when out of memory.
fn push_rows(
    statements: &mut List<ReactiveStatement>,
    rows: List<ReactiveInstruction>,
) -> Result<(), AllocError>
    ensures { OnOk result (statements.new ≡ statements.old ++ steps.row_statements rows) }
{
    let mut left = rows;
    left.reverse();
    while let Some(row) = left.pop() {
        statements.push(ReactiveStatement::Instruction(row))?;
    }
    Ok(())
}

/// Returns the condition, and the last one in place of none.
fn condition_or_last(condition: Option<MergeCondition>) -> MergeCondition
    ensures { result ≡ unwrap_or condition conditions.Sources }
{
    match condition {
        Some(condition) => condition,
        None => MergeCondition::Sources,
    }
}

/// Returns whether neither scope reassigns a name.
fn reassign_nothing(head: &ReactiveScope, scope: &ReactiveScope) -> bool
    ensures { result ≡ (spec.is_empty head.now.reassignments && spec.is_empty scope.now.reassignments) }
{
    head.reassignments.is_empty() && scope.reassignments.is_empty()
}

/// Returns whether each name has its last use below an id.
fn are_used_below(known: &Known<'_>, end: EvaluationOrder, names: &[DeclarationId]) -> bool
    ensures { result ≡ spec.are_used_below (uses_of known.now.uses.now) end names.now }
{
    for name in names {
        if !known.is_used_below(end, *name) {
            return false;
        }
    }
    true
}

fn later(a: EvaluationOrder, b: EvaluationOrder) -> EvaluationOrder
    ensures { result ≡ spec.later a b }
{
    if a.0 < b.0 { b } else { a }
}
