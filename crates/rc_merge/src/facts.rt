//! What the rule of merging reads of a scope that joins a head.

ghost use Rattle.std.specs.Prelude.{◌≡◌, map, IfOk};
ghost use Rattle.rc_merge.specs.Explained as spec;
ghost use Rattle.rc_merge.specs.inside.LastUsesMet.{uses_of};
ghost use Rattle.rc_merge.specs.inside.Told as told;

use crate::input::declaration_of;
use crate::known::Known;
use rc_hir::{DependencyPathEntry, Environment, ReactiveScopeDependency};
use rc_names::{CloneIn, DeclarationId, EvaluationOrder, List, ScopeId};
use rc_order::in_order;
use std::alloc::{AllocError, Global};

/// What a scope depends on: a declaration, with the path from its value to a part of it.
#[derive(Drop)]
pub struct DepPair {
    pub declaration: DeclarationId,
    pub path: List<DependencyPathEntry>,
}

impl CloneIn for DepPair {
    fn clone_in(&self, alloc: Global) -> Result<DepPair, AllocError> {
        Ok(DepPair {
            declaration: self.declaration,
            path: self.path.clone_in(alloc)?,
        })
    }
}

/// The first of the three conditions of merging that holds.
#[derive(Clone, Copy, Debug, PartialEq, Eq)]
pub enum MergeCondition {
    /// The next scope has the dependencies of the head.
    Same,
    /// The next scope depends on exactly the values that the head declares.
    Outputs,
    /// The next scope depends on values that are new each time, each of which the head declares, or a copy of one.
    Sources,
}

/// A name that is written between two scope blocks, and the id of its last use, if there is one.
#[derive(Clone, Copy, Debug, PartialEq, Eq)]
pub struct NotedUse {
    pub declaration: DeclarationId,
    pub last: Option<EvaluationOrder>,
}

/// What the rule of merging read where a scope joined a head: the condition, and what the conditions compare, which are
/// the dependencies and the declared values of the head, as grown so far, the dependencies of the next scope, and for
/// `Sources` the value of the head that each of these is or copies. Then the names that are written between the scope
/// block before and this one, by rising number, and the id at which the next scope's range ends.
#[derive(Drop)]
pub struct MergedFacts {
    pub scope: ScopeId,
    pub into: ScopeId,
    pub condition: MergeCondition,
    pub head: List<DepPair>,
    pub outputs: List<DeclarationId>,
    pub next: List<DepPair>,
    pub sources: List<DeclarationId>,
    pub uses: List<NotedUse>,
    pub end: EvaluationOrder,
}

/// Returns each dependency as the declaration of its name and the path from it. The only error is out of memory.
pub fn pairs_of(
    alloc: Global,
    env: &Environment,
    dependencies: &[ReactiveScopeDependency],
) -> Result<List<DepPair>, AllocError>
    ensures { IfOk result (λ pairs. pairs ≡ spec.pairs_of env.now dependencies.now) }
{
    let mut pairs = List::with_capacity(alloc, dependencies.len())?;
    for dependency in dependencies {
        pairs.push(pair_of(alloc, env, dependency)?)?;
    }
    Ok(pairs)
}

fn pair_of(
    alloc: Global,
    env: &Environment,
    dependency: &ReactiveScopeDependency,
) -> Result<DepPair, AllocError>
    ensures { IfOk result (λ pair. pair ≡ spec.pair_of env.now dependency.now) }
{
    Ok(DepPair {
        declaration: declaration_of(env, dependency.identifier),
        path: dependency.path.clone_in(alloc)?,
    })
}

/// Returns the names by rising number, each once and with its last use. Fails only when out of memory.
pub(crate) fn noted_uses(
    known: &Known<'_>,
    names: &[DeclarationId],
) -> Result<List<NotedUse>, AllocError>
    ensures { IfOk result (λ uses. uses ≡ told.noted_uses (uses_of known.now.uses.now) names.now) }
{
    let ordered = by_number(known.alloc, names)?;
    last_uses(known, ordered.as_slice())
}

/// Returns the names by rising number, each once. Fails only when out of memory.
fn by_number(alloc: Global, names: &[DeclarationId]) -> Result<List<DeclarationId>, AllocError>
    ensures { IfOk result (λ ordered. ordered ≡ told.by_number names.now) }
{
    in_order(alloc, names)
}

/// Returns the names, each with its last use. Fails only when out of memory.
fn last_uses(known: &Known<'_>, names: &[DeclarationId]) -> Result<List<NotedUse>, AllocError>
    ensures { IfOk result (λ uses. uses ≡ map (told.noted_use (uses_of known.now.uses.now)) names.now) }
{
    let mut uses = List::with_capacity(known.alloc, names.len())?;
    for name in names {
        uses.push(NotedUse {
            declaration: *name,
            last: known.last_use(*name),
        })?;
    }
    Ok(uses)
}
