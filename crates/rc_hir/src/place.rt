//! Places: the uses of identifiers in rows and terminals.

ghost use Rattle.std.specs.Prelude.{◌≡◌};
ghost use Rattle.rc_hir.specs.Types as types;

use rc_names::{IdentifierId, Span};

/// An identifier where it is used or written.
#[derive(Clone, Copy, Debug, PartialEq, Eq)]
pub struct Place {
    pub identifier: IdentifierId,
    pub effect: Effect,
    pub reactive: bool,
    pub span: Option<Span>,
}

/// The effect of a row on the value of a place.
#[derive(Clone, Copy, Debug, PartialEq, Eq)]
pub enum Effect {
    Unknown,
    Freeze,
    Read,
    Capture,
    ConditionallyMutateIterator,
    ConditionallyMutate,
    Mutate,
    Store,
}

impl Effect {
    /// Returns whether a row with this effect may change the value.
    pub fn is_mutable(&self) -> bool
        ensures { result ≡ types.is_mutable self.now }
    {
        match self {
            Effect::Unknown => false,
            Effect::Freeze => false,
            Effect::Read => false,
            Effect::Capture => true,
            Effect::ConditionallyMutateIterator => true,
            Effect::ConditionallyMutate => true,
            Effect::Mutate => true,
            Effect::Store => true,
        }
    }
}

/// A place after three dots.
#[derive(Clone, Copy, Debug, PartialEq, Eq)]
pub struct SpreadPattern {
    pub place: Place,
}

/// A parameter of a function.
#[derive(Clone, Copy, Debug, PartialEq, Eq)]
pub enum ParamPattern {
    Place(Place),
    Spread(SpreadPattern),
}

/// An argument of a call.
#[derive(Clone, Copy, Debug, PartialEq, Eq)]
pub enum PlaceOrSpread {
    Place(Place),
    Spread(SpreadPattern),
}
