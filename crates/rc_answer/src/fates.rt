//! The printing form of the fates of scopes.

ghost use Rattle.rc_answer.specs.ReadingFates.{fate_of, scope_fate_of};
ghost use Rattle.rc_answer.specs.ShownFates.{fate_data, scope_fate_data};
ghost use Rattle.std.specs.Prelude.{◌≡◌, refl};
ghost use Rattle.rc_doc.specs.Reading.{list_of};
ghost use Rattle.rc_show.specs.Showing.{list_data};

use crate::parts::{Part, PartFields, send_parts};
use rc_show::{Fields, NoFields, Show, send_variant};
use rc_tree::{Fate, ScopeFate};
use serde::Serializer;
use std::marker::Model;

impl Part for Fate {
    ghost reads = { fate_of };

    ghost shows = { fate_data };

    #[tactic(auto, using(crate::proofs::FatesReadBack::fate_again, crate::proofs::Cited::text_sent), unfolding(crate::specs::ShownFates::fate_data))]
    fn send<S: Serializer>(&self, out: &mut S) -> Result<(), S::Error> {
        match self {
            Fate::Kept => out.str("Kept"),
            Fate::NotEscaping => out.str("NotEscaping"),
            Fate::Unused => out.str("Unused"),
            Fate::MergedInto(scope) => send_variant(out, "MergedInto", scope),
            Fate::DissolvedInto(scope) => send_variant(out, "DissolvedInto", scope),
            Fate::AlwaysInvalidating => out.str("AlwaysInvalidating"),
        }
    }
}

impl Part for ScopeFate {
    ghost reads = { scope_fate_of };

    ghost shows = { scope_fate_data };

    #[tactic(auto, using(crate::proofs::FatesReadBack::scope_fate_again), unfolding(crate::specs::ShownFates::scope_fate_data))]
    fn send<S: Serializer>(&self, out: &mut S) -> Result<(), S::Error> {
        NoFields
            .with_part("fate", &self.fate)
            .with("scope", &self.scope)
            .send(out)
    }
}

/// Fates, which contracts see as their list.
#[derive(Drop)]
pub struct FatesView<'a> {
    fates: &'a [ScopeFate],
}

impl<'a> Model for FatesView<'a> {
    ghost use Rattle.std.specs.Prelude.{List};
    ghost use Rattle.rc_tree.specs.declared.fate.ScopeFate.{ScopeFate};

    ghost Value = { List ScopeFate };

    ghost view = { λ it. it.fates.now };
}

impl<'a> FatesView<'a> {
    /// These fates.
    pub fn new(fates: &'a [ScopeFate]) -> FatesView<'a>
        ensures { result ≡ fates.now }
    {
        FatesView { fates }
    }
}

impl Show for FatesView<'_> {
    ghost reads = { list_of scope_fate_of };

    ghost shows = { list_data scope_fate_data };

    fn send<S: Serializer>(&self, out: &mut S) -> Result<(), S::Error> {
        send_parts(out, self.fates)
    }

    ghost not_null = { λ fates. refl };
}
