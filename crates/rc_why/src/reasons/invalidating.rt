//! What the pass on scopes that always invalidate reads of a scope.

ghost use Rattle.std.specs.Prelude.{◌≡◌, Contains, IfOk};
ghost use Rattle.rc_why.specs.inside.Places.{ArePlaces};
ghost use Rattle.rc_why.specs.inside.ToldFacts.{IsToldCause, caused_scopes};

use crate::reason::Facts;
use rc_flow::InvalidatingCause;
use rc_names::{Keyed, ScopeId};

/// The facts of a scope that always invalidates: its first dependency that is unmemoized where its block ends.
pub(crate) fn invalidating_facts(
    causes: &[InvalidatingCause],
    places: &Keyed<ScopeId, usize>,
    scope: ScopeId,
) -> Facts
    requires places { ArePlaces (caused_scopes causes.now) places.now }
    requires there { Contains (caused_scopes causes.now) scope }
    ensures { IsToldCause causes.now scope result }
{
    match places.get(scope) {
        Some(place) => Facts::AlwaysInvalidating {
            dependency: causes[*place].dependency,
        },
        None => unreachable!(),
    }
}
