//! Scope blocks that invalidate together become one.
//!
//! Each list is merged after the insides of its statements. A scope block with the inputs of the nearest one around it
//! is replaced by its statements, before the list that it is in is merged.
//!
//! After oxc's merge_reactive_scopes_that_invalidate_together.

ghost use Rattle.std.specs.Prelude.{◌≡◌, ◌⊎◌, [], IfErr, IfOk, OnOk};
ghost use Rattle.std.specs.Option.{unwrap_or};
ghost use Rattle.rc_hir.specs.KeptNumbers.{KeepsNumbers};
ghost use Rattle.rc_hir.specs.Model.{HirFunction as Graph};
ghost use Rattle.rc_hir.specs.Names.{NamesInTables};
ghost use Rattle.rc_hir.specs.declared.fault.Fault.TheVariants as faults;
ghost use Rattle.rc_runs.specs.Erase.{erased};
ghost use Rattle.rc_tree.specs.Decided.{IsDecidedBy};
ghost use Rattle.rc_tree.specs.ScopesIn.{HasScopesOnce};
ghost use Rattle.rc_tree.specs.TreeNames.{TreeInTables, TreeNamesOutside};
ghost use Rattle.rc_merge.specs.Explained.{AreExplained};
ghost use Rattle.rc_merge.specs.Freshness.{DissolvesFresh, JoinsFresh, PartsFresh};
ghost use Rattle.rc_merge.specs.Merged as spec;
ghost use Rattle.rc_merge.specs.Nested.{DissolvesExactly};
ghost use Rattle.rc_merge.specs.inside.LastUsesMet.{uses_of};
ghost use Rattle.rc_merge.specs.inside.MergeSteps as steps;
ghost use Rattle.rc_merge.specs.inside.WentRules as rules;

use crate::facts::MergedFacts;
use crate::known::Known;
use crate::last_uses::last_uses_in;
use crate::list::merge_list;
use crate::sorted_inputs::have_equal_inputs;
use crate::tables::{Log, Tables, no_scope};
use rc_hir::{Environment, Fault, ReactiveScope};
use rc_names::{CloneIn, DeclarationId, EvaluationOrder, Keyed, List, ScopeId, Table};
use rc_tree::{
    Fate, ReactiveBlock, ReactiveFunction, ReactiveScopeBlock, ReactiveStatement,
    ReactiveTerminalStatement, ScopeFate, Transformed,
};
use rc_walk::{OverStatements, StatementTransform, transform_reactive_function};
use std::alloc::{AllocError, Global};
use std::mem;

/// Merges scope blocks that invalidate together: one that recomputes only where the one before it in its list does
/// joins that one, with the rows between them; and one with the inputs of the nearest scope block around it gives way
/// to its statements.
///
/// The numbers of the tree stay, and so does everything in it outside its scopes. Of the environment only scopes
/// change, and none of their dependencies.
///
/// `BadName` comes where a nested function is outside its table. `NoMemory` means out of memory, and is the only fault
/// where every number is in its table. After a fault the environment is as before, and the body has no stated content.
pub fn merge_reactive_scopes_that_invalidate_together(
    alloc: Global,
    func: &mut ReactiveFunction,
    env: &mut Environment,
) -> Result<(), Fault>
    ensures ok { HasScopesOnce func.old.body
        → OnOk result (spec.IsMerged func.old.body env.old func.new.body env.new) }
    ensures header { func.new ≡ record func.old { body = func.new.body } }
    ensures kept_erased { OnOk result (erased func.new ≡ erased func.old) }
    ensures known { OnOk result (TreeInTables func.old env.old → TreeInTables func.new env.new) }
    ensures kept_numbers { KeepsNumbers env.old env.new }
    ensures known_names { TreeInTables func.old env.old
        → (graph : Graph) → NamesInTables graph env.old → NamesInTables graph env.new }
    ensures scopes_once { OnOk result (HasScopesOnce func.old.body → HasScopesOnce func.new.body) }

    ensures refused { IfErr result (λ fault. env.new ≡ env.old) }
    ensures named { IfErr result (λ fault. (fault ≡ faults.NoMemory)
        ⊎ TreeNamesOutside func.old env.old fault) }
    ensures sound { TreeInTables func.old env.old → IfErr result (λ fault. fault ≡ faults.NoMemory) }
{
    decide_merged_scopes(alloc, func, env)?;
    Ok(())
}

/// The same, and returns what was decided: each scope that joined another or gave way, in the order in which that was
/// decided.
pub fn decide_merged_scopes(
    alloc: Global,
    func: &mut ReactiveFunction,
    env: &mut Environment,
) -> Result<List<ScopeFate>, Fault>
    ensures ok { HasScopesOnce func.old.body
        → IfOk result (spec.Merges func.old.body env.old func.new.body env.new) }
    ensures decided { HasScopesOnce func.old.body → IfOk result
        (IsDecidedBy (spec.merging_rule env.old func.old.body) func.old.body func.new.body) }
    ensures joins { HasScopesOnce func.old.body → IfOk result (JoinsFresh env.old func.old.body) }
    ensures parts { HasScopesOnce func.old.body → IfOk result (PartsFresh env.old func.old.body) }
    ensures dissolves { HasScopesOnce func.old.body → IfOk result (DissolvesFresh env.old) }
    ensures exactly { HasScopesOnce func.old.body → IfOk result (DissolvesExactly env.old func.old.body) }
    ensures header { func.new ≡ record func.old { body = func.new.body } }
    ensures kept_erased { IfOk result (λ log. erased func.new ≡ erased func.old) }
    ensures known { IfOk result (λ log. TreeInTables func.old env.old → TreeInTables func.new env.new) }
    ensures kept_numbers { KeepsNumbers env.old env.new }
    ensures known_names { TreeInTables func.old env.old
        → (graph : Graph) → NamesInTables graph env.old → NamesInTables graph env.new }
    ensures scopes_once { IfOk result (λ log. HasScopesOnce func.old.body → HasScopesOnce func.new.body) }

    ensures refused { IfErr result (λ fault. env.new ≡ env.old) }
    ensures named { IfErr result (λ fault. (fault ≡ faults.NoMemory)
        ⊎ TreeNamesOutside func.old env.old fault) }
    ensures sound { TreeInTables func.old env.old → IfErr result (λ fault. fault ≡ faults.NoMemory) }
{
    let tables = merge_function(alloc, func, env, None)?;
    let Tables { scopes, log, .. } = tables;
    env.scopes = scopes;
    Ok(log.fates)
}

/// What merging decided, with the facts of each scope that joined another, and what the scopes were before.
#[derive(Drop)]
pub struct ExplainedMerging {
    pub log: List<ScopeFate>,
    pub merged: List<MergedFacts>,
    pub received: Table<ScopeId, ReactiveScope>,
}

/// The same, and returns besides what the rule read of each scope that joined another, in the order in which they
/// joined, and the scopes as they were.
pub fn explain_merged_scopes(
    alloc: Global,
    func: &mut ReactiveFunction,
    env: &mut Environment,
) -> Result<ExplainedMerging, Fault>
    ensures ok { HasScopesOnce func.old.body
        → IfOk result (λ it. spec.Merges func.old.body env.old func.new.body env.new it.log) }
    ensures decided { HasScopesOnce func.old.body → IfOk result (λ it.
        IsDecidedBy (spec.merging_rule env.old func.old.body) func.old.body func.new.body it.log) }
    ensures joins { HasScopesOnce func.old.body → IfOk result (λ it. JoinsFresh env.old func.old.body it.log) }
    ensures parts { HasScopesOnce func.old.body → IfOk result (λ it. PartsFresh env.old func.old.body it.log) }
    ensures dissolves { HasScopesOnce func.old.body → IfOk result (λ it. DissolvesFresh env.old it.log) }
    ensures exactly { HasScopesOnce func.old.body → IfOk result (λ it. DissolvesExactly env.old func.old.body it.log) }
    ensures told { HasScopesOnce func.old.body
        → IfOk result (λ it. AreExplained env.old func.old.body it.log it.merged) }
    ensures received { IfOk result (λ it. it.received ≡ env.old.scopes) }
    ensures header { func.new ≡ record func.old { body = func.new.body } }
    ensures kept_erased { IfOk result (λ it. erased func.new ≡ erased func.old) }
    ensures known { IfOk result (λ it. TreeInTables func.old env.old → TreeInTables func.new env.new) }
    ensures kept_numbers { KeepsNumbers env.old env.new }
    ensures known_names { TreeInTables func.old env.old
        → (graph : Graph) → NamesInTables graph env.old → NamesInTables graph env.new }
    ensures scopes_once { IfOk result (λ it. HasScopesOnce func.old.body → HasScopesOnce func.new.body) }

    ensures refused { IfErr result (λ fault. env.new ≡ env.old) }
    ensures named { IfErr result (λ fault. (fault ≡ faults.NoMemory)
        ⊎ TreeNamesOutside func.old env.old fault) }
    ensures sound { TreeInTables func.old env.old → IfErr result (λ fault. fault ≡ faults.NoMemory) }
{
    let tables = merge_function(alloc, func, env, Some(List::new(alloc)))?;
    let Tables { scopes, log, .. } = tables;
    let received = mem::replace(&mut env.scopes, scopes);
    let Log { fates, merged } = log;
    Ok(ExplainedMerging {
        log: fates,
        merged: told_facts(alloc, merged),
        received,
    })
}

/// Returns the facts that were told; none, where none were asked for.
fn told_facts(alloc: Global, merged: Option<List<MergedFacts>>) -> List<MergedFacts>
    ensures { result ≡ unwrap_or merged [] }
{
    match merged {
        Some(merged) => merged,
        None => List::new(alloc),
    }
}

/// Merges the body of a function, from a copy of the environment's scopes. The facts of each scope that joins another
/// are added to the list, if there is one.
fn merge_function(
    alloc: Global,
    func: &mut ReactiveFunction,
    env: &Environment,
    merged: Option<List<MergedFacts>>,
) -> Result<Tables, Fault>
    ensures merged { IfOk result (steps.HasMerged merged func.old func.new env.now) }
    ensures header { func.new ≡ record func.old { body = func.new.body } }
    ensures named { IfErr result (λ fault. (fault ≡ faults.NoMemory)
        ⊎ TreeNamesOutside func.old env.now fault) }
    ensures sound { TreeInTables func.old env.now → IfErr result (λ fault. fault ≡ faults.NoMemory) }
{
    let uses = last_uses_in(alloc, func, env)?;
    let scopes = env.scopes.clone_in(alloc)?;
    merge_body(alloc, func, env, &uses, scopes, merged)
}

/// Merges the body, from these scopes. The only fault is out of memory.
fn merge_body(
    alloc: Global,
    func: &mut ReactiveFunction,
    env: &Environment,
    uses: &Keyed<DeclarationId, EvaluationOrder>,
    scopes: Table<ScopeId, ReactiveScope>,
    merged: Option<List<MergedFacts>>,
) -> Result<Tables, Fault>
    ensures rebuilt { IfOk result (steps.AreRebuilt env.now (uses_of uses.now) merged func.old.body scopes
        func.new.body) }
    ensures header { func.new ≡ record func.old { body = func.new.body } }
    ensures refused { IfErr result (λ fault. fault ≡ faults.NoMemory) }
{
    let mut merging = Merging::new(alloc, scopes, merged);
    let pass = MergeTransform {
        known: Known { alloc, env, uses },
    };
    let mut walk = OverStatements { env, pass };
    transform_reactive_function(alloc, func, &mut walk, &mut merging)?;
    Ok(merging.tables)
}

/// The nearest scope block around, that of each scope block around from the outside in, and the tables.
#[derive(Drop)]
pub(crate) struct Merging {
    around: Option<ScopeId>,
    outside: List<Option<ScopeId>>,
    tables: Tables,
}

/// The pass over statements.
#[derive(Clone, Copy)]
pub(crate) struct MergeTransform<'a> {
    known: Known<'a>,
}

impl<'a> StatementTransform for MergeTransform<'a> {
    type State = Merging;

    ghost steps = { λ pass. steps.merge_steps pass.known.env.now (uses_of pass.known.uses.now) };

    fn enter_scope(&self, scope: &ReactiveScopeBlock, merging: &mut Merging) -> Result<(), Fault> {
        merging.begin_scope(scope.scope)?;
        Ok(())
    }

    fn transform_terminal(
        &self,
        _stmt: &mut ReactiveTerminalStatement,
        _merging: &mut Merging,
    ) -> Result<Transformed<ReactiveStatement>, Fault> {
        Ok(Transformed::Keep)
    }

    fn transform_scope(
        &self,
        scope: &mut ReactiveScopeBlock,
        merging: &mut Merging,
    ) -> Result<Transformed<ReactiveStatement>, Fault> {
        let Some(parent) = merging.end_scope() else {
            return Ok(Transformed::Keep);
        };
        if !gives_way(&self.known, &merging.tables, parent, scope.scope)? {
            return Ok(Transformed::Keep);
        }
        merging.dissolve(scope.scope, parent)?;
        Ok(Transformed::ReplaceMany(scope.instructions.statements.take()))
    }

    fn leave_block(&self, block: &mut ReactiveBlock, merging: &mut Merging) -> Result<(), Fault> {
        let statements = block.statements.take();
        block.statements = merge_list(&self.known, statements, &mut merging.tables)?;
        Ok(())
    }
}

impl Merging {
    /// Nothing is decided yet. This takes no memory.
    fn new(
        alloc: Global,
        scopes: Table<ScopeId, ReactiveScope>,
        merged: Option<List<MergedFacts>>,
    ) -> Merging
        ensures { result ≡ steps.at [] (rules.none_met scopes merged) }
    {
        Merging {
            around: None,
            outside: List::new(alloc),
            tables: Tables {
                scopes,
                copies: Keyed::new(alloc),
                log: Log {
                    fates: List::new(alloc),
                    merged,
                },
            },
        }
    }

    /// A scope block begins. Fails only when out of memory.
    fn begin_scope(&mut self, scope: ScopeId) -> Result<(), AllocError>
        ensures { OnOk result (self.new ≡ steps.inside_scope scope self.old) }
    {
        self.outside.push(self.around)?;
        self.around = Some(scope);
        Ok(())
    }

    /// A scope block ends. Returns the nearest one around it.
    fn end_scope(&mut self) -> Option<ScopeId>
        ensures around { result ≡ (steps.outside_scope self.old).around }
        ensures outside { self.new ≡ steps.outside_scope self.old }
    {
        self.around = pop_scope(&mut self.outside);
        self.around
    }

    /// A scope gives way to its parent. Fails only when out of memory.
    fn dissolve(&mut self, scope: ScopeId, parent: ScopeId) -> Result<(), AllocError>
        ensures { OnOk result (self.new ≡ steps.with_dissolved scope parent self.old) }
    {
        self.tables.decide(scope, Fate::DissolvedInto(parent))
    }
}

/// Pops the last entry; none if the list is empty, which no walk meets.
fn pop_scope(outside: &mut List<Option<ScopeId>>) -> Option<ScopeId>
    ensures around { result ≡ steps.last_around outside.old }
    ensures rest { outside.new ≡ steps.without_last outside.old }
{
    outside.pop().unwrap_or(None)
}

/// Returns whether a scope has the inputs of its parent. Fails only when out of memory.
// Not inlined, so that the frames of the walk have no room for its scope.
#[inline(never)]
fn gives_way(
    known: &Known<'_>,
    tables: &Tables,
    parent: ScopeId,
    scope: ScopeId,
) -> Result<bool, AllocError>
    ensures { IfOk result (λ same. same
        ≡ spec.gives_way known.now.env.now (uses_of known.now.uses.now) tables.now.scopes parent scope) }
{
    let none = no_scope(known.alloc);
    let outer = tables.scopes.get(parent).unwrap_or(&none);
    let inner = tables.scopes.get(scope).unwrap_or(&none);
    have_equal_inputs(
        known.alloc,
        &outer.dependencies,
        &inner.dependencies,
        known.env,
    )
}
