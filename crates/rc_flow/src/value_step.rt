//! One place of the statements, and what happens there to values that are new each time.

use rc_names::{IdentifierId, ScopeId};

/// What a place of the statements says of values that are new each time that they are made.
#[derive(Clone, Copy)]
pub enum ValueStep {
    /// Such a value is made, in a scope block or outside of all.
    Makes {
        name: IdentifierId,
        in_scope: bool,
    },
    /// The second name gets the value of the first.
    Copies {
        from: IdentifierId,
        to: IdentifierId,
    },
    /// A scope block ends.
    Ends(ScopeId),
}
