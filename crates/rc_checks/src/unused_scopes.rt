//! The block of a scope that gives nothing becomes a pruned one.
//!
//! A block is judged when its inside is done. A flag says whether a `Return` was met in it so far; the flags of the
//! scope blocks around are set aside until then. The scopes that give nothing are listed, in the order in which their
//! blocks end.
//!
//! After oxc's prune_unused_scopes.

ghost use Rattle.std.specs.Prelude.{◌≡◌, ◌⊎◌, [], map, IfErr, IfOk, OnOk};
ghost use Rattle.std.specs.List.{list_any};
ghost use Rattle.rc_hir.specs.declared.fault.Fault.TheVariants as faults;
ghost use Rattle.rc_runs.specs.Erase.{erased};
ghost use Rattle.rc_tree.specs.Decided.{IsDecidedBy};
ghost use Rattle.rc_tree.specs.TreeNames.{TreeInTables, TreeNamesOutside, names_in};
ghost use Rattle.rc_tree.specs.declared.terminal.ReactiveTerminal.{out-ReactiveTerminal};
ghost use Rattle.rc_checks.specs.ScopeBlocks.{scope_blocks};
ghost use Rattle.rc_tree.specs.ScopesIn.{HasScopesOnce, scopes_in};
ghost use Rattle.rc_checks.specs.UnusedScopes.{IsScopeOutside, staying_blocks};
ghost use Rattle.rc_checks.specs.UnusedScopes as spec;
ghost use Rattle.rc_checks.specs.inside.UnusedScopesSteps as steps;

use rc_hir::{Environment, Fault, ReactiveScope, TableName};
use rc_names::{List, ScopeId};
use rc_tree::{
    Fate, ReactiveBlock, ReactiveFunction, ReactiveScopeBlock, ReactiveStatement, ReactiveTerminal,
    ReactiveTerminalStatement, ScopeFate, Transformed,
};
use rc_walk::rewrite::transform_reactive_function;
use rc_walk::{OverStatements, StatementTransform};
use std::alloc::{AllocError, Global};

/// Makes the block of each scope that gives nothing a pruned one: the scope reassigns no name and declares none of its
/// own, and no `Return` is in its block outside nested scope blocks.
///
/// The numbers of the tree stay, and so does everything in it outside its scopes.
///
/// `BadName` comes where the scope of a scope block is outside the table of scopes, and names the first, from the
/// inside; the body has no stated content then. `NoMemory` means out of memory, and is the only fault where every
/// number is in its table.
pub fn prune_unused_scopes(
    alloc: Global,
    func: &mut ReactiveFunction,
    env: &Environment,
) -> Result<(), Fault>
    ensures ok { OnOk result (spec.IsWithoutUnusedScopes env.now func.old.body func.new.body) }
    ensures header { func.new ≡ record func.old { body = func.new.body } }
    ensures stays { OnOk result (scope_blocks func.new.body ≡ staying_blocks env.now func.old.body) }
    ensures left { OnOk result
        (scopes_in func.new.body ≡ map (λ block. block.scope) (staying_blocks env.now func.old.body)) }
    ensures kept_names { OnOk result (names_in func.new.body ≡ names_in func.old.body) }
    ensures kept_erased { OnOk result (erased func.new ≡ erased func.old) }
    ensures known { OnOk result (TreeInTables func.old env.now → TreeInTables func.new env.now) }
    ensures scopes_once { OnOk result (HasScopesOnce func.old.body → HasScopesOnce func.new.body) }

    ensures refused { IfErr result (λ fault. (fault ≡ faults.NoMemory)
        ⊎ spec.IsFirstScopeOutside env.now func.old.body fault) }
    ensures bad_name { IfErr result (λ fault. (fault ≡ faults.NoMemory)
        ⊎ IsScopeOutside env.now func.old.body fault) }
    ensures named { IfErr result (λ fault. (fault ≡ faults.NoMemory)
        ⊎ TreeNamesOutside func.old env.now fault) }
    ensures sound { TreeInTables func.old env.now → IfErr result (λ fault. fault ≡ faults.NoMemory) }
{
    decide_unused_scopes(alloc, func, env)?;
    Ok(())
}

/// The same, and returns what was decided: each scope whose block became a pruned one, in the order in which the blocks
/// end.
pub fn decide_unused_scopes(
    alloc: Global,
    func: &mut ReactiveFunction,
    env: &Environment,
) -> Result<List<ScopeFate>, Fault>
    ensures loses { IfOk result (spec.LosesUnusedScopes env.now func.old.body func.new.body) }
    ensures told { IfOk result (λ log. log ≡ spec.decisions env.now (scope_blocks func.old.body)) }
    ensures decided { IfOk result
        (IsDecidedBy (spec.unused_rule env.now func.old.body) func.old.body func.new.body) }
    ensures header { func.new ≡ record func.old { body = func.new.body } }
    ensures stays { OnOk result (scope_blocks func.new.body ≡ staying_blocks env.now func.old.body) }
    ensures left { OnOk result
        (scopes_in func.new.body ≡ map (λ block. block.scope) (staying_blocks env.now func.old.body)) }
    ensures kept_names { OnOk result (names_in func.new.body ≡ names_in func.old.body) }
    ensures kept_erased { OnOk result (erased func.new ≡ erased func.old) }
    ensures known { OnOk result (TreeInTables func.old env.now → TreeInTables func.new env.now) }
    ensures scopes_once { OnOk result (HasScopesOnce func.old.body → HasScopesOnce func.new.body) }

    ensures refused { IfErr result (λ fault. (fault ≡ faults.NoMemory)
        ⊎ spec.IsFirstScopeOutside env.now func.old.body fault) }
    ensures bad_name { IfErr result (λ fault. (fault ≡ faults.NoMemory)
        ⊎ IsScopeOutside env.now func.old.body fault) }
    ensures named { IfErr result (λ fault. (fault ≡ faults.NoMemory)
        ⊎ TreeNamesOutside func.old env.now fault) }
    ensures sound { TreeInTables func.old env.now → IfErr result (λ fault. fault ≡ faults.NoMemory) }
{
    let mut judging = Judging {
        met: false,
        around: List::new(alloc),
        log: List::new(alloc),
    };
    match judge_blocks(alloc, func, env, &mut judging) {
        Ok(()) => Ok(judging.into_log()),
        Err(fault) => Err(fault),
    }
}

/// Judges each scope block of the body.
fn judge_blocks(
    alloc: Global,
    func: &mut ReactiveFunction,
    env: &Environment,
    judging: &mut Judging,
) -> Result<(), Fault>
    requires { judging.old ≡ steps.at [] spec.nothing_met }
    ensures loses { OnOk result
        (spec.LosesUnusedScopes env.now func.old.body func.new.body judging.new.log) }
    ensures header { func.new ≡ record func.old { body = func.new.body } }
    ensures refused { IfErr result (λ fault. (fault ≡ faults.NoMemory)
        ⊎ spec.IsFirstScopeOutside env.now func.old.body fault) }
{
    let mut transform = OverStatements {
        env,
        pass: Transform { env },
    };
    transform_reactive_function(alloc, func, &mut transform, judging)
}

/// The pass over statements, with the tables that it looks into.
#[derive(Clone, Copy)]
pub(crate) struct Transform<'a> {
    env: &'a Environment,
}

impl<'a> StatementTransform for Transform<'a> {
    type State = Judging;

    ghost steps = { λ pass. steps.unused_scope_steps pass.env.now };

    fn enter_scope(&self, _scope: &ReactiveScopeBlock, judging: &mut Judging) -> Result<(), Fault> {
        judging.begin_scope()?;
        Ok(())
    }

    fn transform_terminal(
        &self,
        stmt: &mut ReactiveTerminalStatement,
        judging: &mut Judging,
    ) -> Result<Transformed<ReactiveStatement>, Fault> {
        if is_return(&stmt.terminal) {
            judging.met = true;
        }
        Ok(Transformed::Keep)
    }

    fn transform_scope(
        &self,
        scope: &mut ReactiveScopeBlock,
        judging: &mut Judging,
    ) -> Result<Transformed<ReactiveStatement>, Fault> {
        let returns = judging.end_scope();
        let id = scope.scope;
        let Some(known) = self.env.scopes.get(id) else {
            return Err(Fault::BadName {
                table: TableName::Scopes,
                index: id.0,
            });
        };
        if returns || has_own_output(known, id) {
            return Ok(Transformed::Keep);
        }
        judging.decide(id)?;
        let pruned = scope.take_pruned();
        Ok(Transformed::Replace(ReactiveStatement::PrunedScope(pruned)))
    }

    fn leave_block(&self, _block: &mut ReactiveBlock, _judging: &mut Judging) -> Result<(), Fault> {
        Ok(())
    }
}

/// Whether a `Return` was met in the scope block at hand, and in each block around it from the outside in, of which the
/// first is the body; and what was decided so far.
#[derive(Drop)]
pub(crate) struct Judging {
    met: bool,
    around: List<bool>,
    log: List<ScopeFate>,
}

impl Judging {
    /// A scope block begins: no `Return` was met in it.
    fn begin_scope(&mut self) -> Result<(), AllocError>
        ensures { OnOk result (self.new ≡ steps.inside_scope self.old) }
    {
        self.around.push(self.met)?;
        self.met = false;
        Ok(())
    }

    /// A scope block ends: the flag of the block around it counts again. Returns its own.
    fn end_scope(&mut self) -> bool
        ensures met { result ≡ self.old.met }
        ensures outside { self.new ≡ steps.outside_scope self.old }
    {
        let met = self.met;
        self.met = pop_flag(&mut self.around);
        met
    }

    /// The scope is unused.
    fn decide(&mut self, scope: ScopeId) -> Result<(), AllocError>
        ensures { OnOk result (self.new ≡ steps.with_decided scope self.old) }
    {
        self.log.push(ScopeFate {
            scope,
            fate: Fate::Unused,
        })
    }

    /// What was decided.
    fn into_log(self) -> List<ScopeFate>
        ensures { result ≡ self.log }
    {
        let Judging { log, .. } = self;
        log
    }
}

/// Takes the last flag off. A walk finds one there; where there is none, it is false.
#[tactic(auto, using(crate::proofs::UnusedScopes::StepsLemmas::popped_rest))]
fn pop_flag(flags: &mut List<bool>) -> bool
    ensures flag { result ≡ steps.last_flag flags.old }
    ensures rest { flags.new ≡ steps.without_last flags.old }
{
    flags.pop().unwrap_or(false)
}

/// Whether the scope reassigns a name, or declares one of its own.
fn has_own_output(scope: &ReactiveScope, id: ScopeId) -> bool
    ensures { result ≡ spec.has_own_output scope.now id }
{
    reassigns(scope) || declares(scope, id)
}

/// Whether the scope reassigns a name.
#[tactic(auto, using(crate::proofs::UnusedScopes::StepsLemmas::has_entry_unless))]
fn reassigns(scope: &ReactiveScope) -> bool
    ensures { result ≡ spec.has_entry scope.now.reassignments }
{
    !scope.reassignments.is_empty()
}

/// Whether a declaration of the scope is its own.
fn declares(scope: &ReactiveScope, id: ScopeId) -> bool
    ensures { result ≡ list_any (spec.belongs_to id) scope.now.declarations }
{
    let mut declarations = scope.declarations.as_slice().iter();
    declarations.any(|entry| entry.value.scope == id)
}

/// Whether the terminal is a `Return`.
fn is_return(terminal: &ReactiveTerminal) -> bool
    ensures { result ≡ spec.is_return (out-ReactiveTerminal terminal.now) }
{
    match terminal {
        ReactiveTerminal::Return { .. } => true,
        _ => false,
    }
}
