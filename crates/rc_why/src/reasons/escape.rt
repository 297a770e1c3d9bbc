//! What the escape pass reads of a scope: its outputs, and the memoized names.

ghost use Rattle.std.specs.Prelude.{◌≡◌, IfOk};
ghost use Rattle.std.specs.List.{find};
ghost use Rattle.rc_names.specs.Numbers.{is_among};
ghost use Rattle.rc_escape.specs.Outputs as spec;
ghost use Rattle.rc_why.specs.declared.reason.Facts.TheVariants as facts;

use crate::reason::Facts;
use rc_escape::{DeclSet, outputs};
use rc_hir::Environment;
use rc_names::{DeclarationId, List, ScopeId};
use std::alloc::{AllocError, Global};

/// The facts of a scope that is kept: its first output that is memoized. Fails only when out of memory.
pub(crate) fn kept_facts(
    alloc: Global,
    env: &Environment,
    memoized: &DeclSet,
    scope: ScopeId,
) -> Result<Facts, AllocError>
    ensures { IfOk result (λ it. it ≡ facts.Kept (find (is_among memoized.now) (spec.outputs env.now scope))) }
{
    let names = outputs(alloc, env, scope)?;
    Ok(Facts::Kept {
        output: first_among(names.as_slice(), memoized),
    })
}

/// The facts of a scope that doesn't escape: its outputs, and all memoized names. Fails only when out of memory.
pub(crate) fn not_escaping_facts(
    alloc: Global,
    env: &Environment,
    memoized: &List<DeclarationId>,
    scope: ScopeId,
) -> Result<Facts, AllocError>
    ensures { IfOk result (λ it. it ≡ facts.NotEscaping (spec.outputs env.now scope) memoized.now) }
{
    let names = outputs(alloc, env, scope)?;
    let memoized = memoized.copy_in(alloc)?;
    Ok(Facts::NotEscaping {
        outputs: names,
        memoized,
    })
}

/// The first of the names that is in the set.
fn first_among(names: &[DeclarationId], set: &DeclSet) -> Option<DeclarationId>
    ensures { result ≡ find (is_among set.now) names.now }
{
    names.iter().copied().find(|name| set.contains(*name))
}
