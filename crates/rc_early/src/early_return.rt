//! Early returns that the pass makes, and where in the tree it is.

ghost use Rattle.std.specs.Prelude.{◌≡◌, ◌+◌, ◌≤◌, ◌<◌, ◌^◌};

use rc_hir::ReactiveScopeEarlyReturn;
use rc_names::ScopeId;
use std::marker::Model;

/// The early return of a scope.
#[derive(Clone, Copy)]
pub(crate) struct EarlyReturn {
    pub scope: ScopeId,
    pub entry: ReactiveScopeEarlyReturn,
}

/// Where a statement is: outside scope blocks, within one, or in one that is passed over.
#[derive(Clone, Copy)]
pub(crate) enum Where {
    Outside,
    Within,
    PassedOver,
}

/// The entry of an early return whose variable is followed by the numbers of four temporaries. Contracts see the entry.
#[derive(Drop)]
pub(crate) struct Sentinel {
    pub entry: ReactiveScopeEarlyReturn,
}

impl Model for Sentinel {
    ghost use Rattle.std.specs.Prelude.{◌+◌, ◌<◌, ◌^◌};
    ghost use Rattle.rc_hir.specs.Model.{ReactiveScopeEarlyReturn as Entry};

    ghost Value = { Entry };

    ghost view = { λ it. it.entry };

    ghost invariant = { λ it. it.entry.value.0 + 4 < 2 ^ 32 };
}

impl Sentinel {
    /// Returns the entry.
    pub fn entry(&self) -> ReactiveScopeEarlyReturn
        ensures entry { result ≡ self.now }
        ensures fits { result.value.0 + 4 < 2 ^ 32 }
    {
        self.entry
    }
}
