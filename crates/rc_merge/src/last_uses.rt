//! The last use of each declaration: the greatest id at which a place of it is an operand.
//!
//! A row that names a function uses each place in the function's context. Of each function the last such row is kept,
//! and its context is looked through once, at the end.

ghost use Rattle.std.specs.Prelude.{◌≡◌, ◌⊎◌, IfErr, IfOk, OnOk};
ghost use Rattle.rc_hir.specs.declared.fault.Fault.TheVariants as faults;
ghost use Rattle.rc_names.specs.Numbers.{same_id};
ghost use Rattle.rc_tree.specs.TreeNames.{TreeInTables, TreeNamesOutside};
ghost use Rattle.rc_merge.specs.LastUses as spec;
ghost use Rattle.rc_merge.specs.inside.LastUsesMet as met;
ghost use Rattle.rc_merge.specs.inside.MetUses.{with_all};

use crate::find_last_usage::FindLastUsageVisitor;
use crate::input::declaration_of;
use rc_hir::{Environment, Fault, Place};
use rc_names::{DeclarationId, EvaluationOrder, FunctionId, Keyed, Name};
use rc_tree::ReactiveFunction;
use rc_walk::visit_reactive_function;
use std::alloc::{AllocError, Global};

/// The last uses of places, and the last row that names each function.
#[derive(Drop)]
pub(crate) struct MetUses {
    pub uses: Keyed<DeclarationId, EvaluationOrder>,
    pub contexts: Keyed<FunctionId, EvaluationOrder>,
}

/// Returns the last use of each declaration that has one.
///
/// Fails with `BadName` if a nested function is outside its table, and with `NoMemory` when out of memory; if every
/// number is in its table, with `NoMemory` alone.
pub(crate) fn last_uses_in(
    alloc: Global,
    func: &ReactiveFunction,
    env: &Environment,
) -> Result<Keyed<DeclarationId, EvaluationOrder>, Fault>
    ensures uses { IfOk result (λ uses. met.uses_of uses ≡ spec.last_uses_in env.now func.now.body) }
    ensures named { IfErr result (λ fault. (fault ≡ faults.NoMemory) ⊎ TreeNamesOutside func.now env.now fault) }
    ensures sound { TreeInTables func.now env.now → IfErr result (λ fault. fault ≡ faults.NoMemory) }
{
    let mut met = MetUses {
        uses: Keyed::new(alloc),
        contexts: Keyed::new(alloc),
    };
    visit_reactive_function(alloc, func, &FindLastUsageVisitor { env }, &mut met)?;
    Ok(met.into_uses(env)?)
}

impl MetUses {
    /// Notes a use of a place. Fails only when out of memory.
    pub fn add_place(
        &mut self,
        env: &Environment,
        id: EvaluationOrder,
        place: &Place,
    ) -> Result<(), AllocError>
        ensures uses { OnOk result (met.uses_of self.new.uses
            ≡ met.with_use env.now id place.now (met.uses_of self.old.uses)) }
        ensures contexts { self.new.contexts ≡ self.old.contexts }
    {
        put_later(declaration_of(env, place.identifier), id, &mut self.uses)
    }

    /// Notes a use of a function's context. Fails only when out of memory.
    pub fn add_context(
        &mut self,
        id: EvaluationOrder,
        function: FunctionId,
    ) -> Result<(), AllocError>
        ensures contexts { OnOk result (self.new.contexts
            ≡ met.put_later same_id function id self.old.contexts) }
        ensures uses { self.new.uses ≡ self.old.uses }
    {
        put_later(function, id, &mut self.contexts)
    }

    /// Returns all uses, with those of contexts. Fails only when out of memory.
    fn into_uses(
        self,
        env: &Environment,
    ) -> Result<Keyed<DeclarationId, EvaluationOrder>, AllocError>
        ensures { IfOk result (λ uses. met.uses_of uses ≡ with_all env.now self) }
    {
        let MetUses { mut uses, contexts } = self;
        add_contexts(env, &contexts, &mut uses)?;
        Ok(uses)
    }
}

/// Adds the uses of contexts, each at its id. Fails only when out of memory.
fn add_contexts(
    env: &Environment,
    contexts: &Keyed<FunctionId, EvaluationOrder>,
    uses: &mut Keyed<DeclarationId, EvaluationOrder>,
) -> Result<(), AllocError>
    ensures { OnOk result (met.uses_of uses.new
        ≡ met.with_contexts env.now contexts.now (met.uses_of uses.old)) }
{
    for i in 0..contexts.len() {
        if let Some((function, id)) = contexts.at(i) {
            add_context(env, function, *id, uses)?;
        }
    }
    Ok(())
}

/// Adds the uses of the places in a function's context. Fails only when out of memory.
fn add_context(
    env: &Environment,
    function: FunctionId,
    id: EvaluationOrder,
    uses: &mut Keyed<DeclarationId, EvaluationOrder>,
) -> Result<(), AllocError>
    ensures { OnOk result (met.uses_of uses.new
        ≡ met.with_places env.now id (met.context_of env.now function) (met.uses_of uses.old)) }
{
    match env.functions.get(function) {
        Some(known) => add_places(env, id, known.context.as_slice(), uses),
        None => Ok(()),
    }
}

/// Adds the uses of places at an id. Fails only when out of memory.
fn add_places(
    env: &Environment,
    id: EvaluationOrder,
    places: &[Place],
    uses: &mut Keyed<DeclarationId, EvaluationOrder>,
) -> Result<(), AllocError>
    ensures { OnOk result (met.uses_of uses.new
        ≡ met.with_places env.now id places.now (met.uses_of uses.old)) }
{
    for place in places {
        put_later(declaration_of(env, place.identifier), id, uses)?;
    }
    Ok(())
}

/// Keeps the later id under a key. Fails only when out of memory, and then nothing has changed.
fn put_later<K: Name>(
    key: K,
    id: EvaluationOrder,
    ids: &mut Keyed<K, EvaluationOrder>,
) -> Result<(), AllocError>
    ensures { OnOk result (ids.new ≡ met.put_later K.eq key id ids.old) }
{
    match ids.get(key) {
        Some(last) if last.0 >= id.0 => Ok(()),
        _ => {
            ids.insert(key, id)?;
            Ok(())
        }
    }
}
