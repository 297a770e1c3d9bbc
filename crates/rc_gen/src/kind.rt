//! The kinds of units, which take turns.

ghost use Rattle.std.specs.Prelude.{◌≡◌};
ghost use Rattle.rc_gen.specs.Units as spec;

/// The kind of a unit: what becomes of its scope.
#[derive(Clone, Copy, Debug, PartialEq, Eq)]
pub enum Kind {
    Kept,
    /// It is merged into the kept one in front of it.
    Merged,
    NotEscaping,
    Unused,
    AlwaysInvalidating,
}

impl Kind {
    /// The kind of a unit.
    pub fn of(unit: u32) -> Kind
        ensures { result ≡ spec.kind_of unit }
    {
        match unit % 5 {
            0 => Kind::Kept,
            1 => Kind::Merged,
            2 => Kind::NotEscaping,
            3 => Kind::Unused,
            _ => Kind::AlwaysInvalidating,
        }
    }

    /// The identifier that the scope of such a unit depends on.
    pub fn source(self) -> u32
        ensures { result ≡ spec.source_of self }
    {
        match self {
            Kind::AlwaysInvalidating => 1,
            _ => 0,
        }
    }

    /// How many ids such a unit takes.
    pub fn ids(self) -> u32
        ensures { result ≡ spec.ids_of self }
    {
        match self {
            Kind::Kept => 3,
            _ => 6,
        }
    }

    /// How many rows such a unit has.
    pub fn rows(self) -> u32
        ensures { result ≡ spec.rows_of self }
    {
        match self {
            Kind::Kept => 1,
            _ => 2,
        }
    }
}
