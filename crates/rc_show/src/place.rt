//! The printing form of spans, of places in the shortest of their forms, and of the types that have one place.

ghost use Rattle.std.specs.Prelude.{◌≡◌, ◌++◌, IfOk, OnOk, Some, false, string_bytes, refl};
ghost use Rattle.serde_json.specs.View.{view};
ghost use Rattle.serde_json.specs.Written.{compact_text, has_float};
ghost use Rattle.rc_doc.specs.Places.{argument_of, place_of, span_of, spread_of};
ghost use Rattle.rc_show.specs.Showing.{IsReadAgain};
ghost use Rattle.rc_show.specs.ShownParts.Places.{argument_data, effect_name, is_short, long_form, place_data};
ghost use Rattle.rc_show.specs.ShownParts.Places.{span_data, span_items, spread_data};
ghost use Rattle.rc_show.specs.Sending.{Sends, SendsItems};
ghost use Rattle.rc_show.specs.NotNull.{no_null_argument, no_null_place, no_null_spread};

use crate::fields::{Fields, NoFields, Show, send_variant};
use crate::shown::{to_json, to_text};
use crate::text::write_number;
use rc_hir::{Effect, Place, PlaceOrSpread, SpreadPattern};
use rc_names::Span;
use serde::Serializer;
use serde_json::Value;
use std::alloc::{AllocError, Global};

impl Show for Span {
    ghost reads = { span_of };

    ghost shows = { span_data };

    #[tactic(auto, using(crate::proofs::ReadsBack::span_again))]
    fn send<S: Serializer>(&self, out: &mut S) -> Result<(), S::Error> {
        out.begin_seq(None)?;
        self.start.send(out)?;
        self.end.send(out)?;
        out.end_seq()
    }

    ghost not_null = { λ x. refl };
}

fn effect_name(effect: Effect) -> &'static str
    ensures { result.now ≡ effect_name effect }
{
    match effect {
        Effect::Unknown => "Unknown",
        Effect::Freeze => "Freeze",
        Effect::Read => "Read",
        Effect::Capture => "Capture",
        Effect::ConditionallyMutateIterator => "ConditionallyMutateIterator",
        Effect::ConditionallyMutate => "ConditionallyMutate",
        Effect::Mutate => "Mutate",
        Effect::Store => "Store",
    }
}

/// Returns whether the place is determined by its identifier's number.
pub fn is_short(place: &Place) -> bool
    ensures { result ≡ is_short place.now }
{
    matches!(place.effect, Effect::Read) && !place.reactive && place.span.is_none()
}

/// Sends the span as the last item, if there is one.
fn send_span<S: Serializer>(out: &mut S, span: &Option<Span>) -> Result<(), S::Error>
    ensures sends { OnOk result
        (SendsItems (span_items span.now) (S.written out.old) (S.written out.new)) }
    ensures again { OnOk result (IsReadAgain span_of span_data span.now) }
{
    match span {
        Some(span) => span.send(out),
        None => Ok(()),
    }
}

fn send_long_form<S: Serializer>(out: &mut S, place: &Place) -> Result<(), S::Error>
    ensures sends { OnOk result (Sends (long_form place.now) (S.written out.old) (S.written out.new)) }
    ensures again { OnOk result (IsReadAgain span_of span_data place.now.span) }
{
    out.begin_seq(None)?;
    place.identifier.0.send(out)?;
    out.str(effect_name(place.effect))?;
    out.bool(place.reactive)?;
    send_span(out, &place.span)?;
    out.end_seq()
}

impl Show for Place {
    ghost reads = { place_of };

    ghost shows = { place_data };

    #[tactic(auto, using(crate::proofs::ReadsBack::placing))]
    fn send<S: Serializer>(&self, out: &mut S) -> Result<(), S::Error> {
        let identifier = self.identifier.0;
        if is_short(self) {
            identifier.send(out)
        } else {
            send_long_form(out, self)
        }
    }

    ghost not_null = { no_null_place };
}

impl Show for SpreadPattern {
    ghost reads = { spread_of };

    ghost shows = { spread_data };

    #[tactic(auto, using(crate::proofs::PartsReadBack::spread_again), unfolding(crate::specs::ShownParts::Places::spread_data))]
    fn send<S: Serializer>(&self, out: &mut S) -> Result<(), S::Error> {
        NoFields.with("place", &self.place).send(out)
    }

    ghost not_null = { no_null_spread };
}

impl Show for PlaceOrSpread {
    ghost reads = { argument_of };

    ghost shows = { argument_data };

    #[tactic(auto, using(crate::proofs::PartsReadBack::argument_again), unfolding(crate::specs::ShownParts::Places::argument_data))]
    fn send<S: Serializer>(&self, out: &mut S) -> Result<(), S::Error> {
        match self {
            PlaceOrSpread::Place(place) => send_variant(out, "Place", place),
            PlaceOrSpread::Spread(spread) => send_variant(out, "Spread", spread),
        }
    }

    ghost not_null = { no_null_argument };
}

/// Returns the shortest form of a place, which reads as that place again. It has no float, so its text is its compact
/// text. Fails only when out of memory.
#[tactic(auto, using(crate::proofs::PlainForms::plain_place, crate::proofs::PlainValues::plain_has_no_float))]
pub fn place_json(alloc: Global, place: &Place) -> Result<Value, AllocError>
    ensures value { IfOk result (λ shown. view shown ≡ place_data place.now) }
    ensures again { OnOk result (place_of (place_data place.now) ≡ Some place.now) }
    ensures no_float { has_float (place_data place.now) ≡ false }
{
    to_json(alloc, place)
}

/// Writes the compact text of a place in the shortest of its forms. Fails only when out of memory.
#[tactic(auto, using(crate::proofs::PlainForms::plain_place, crate::proofs::ReadsBack::placing))]
pub fn write_place(out: &mut String, place: &Place) -> Result<(), AllocError>
    ensures { OnOk result (string_bytes out.new ≡ string_bytes out.old ++ compact_text (place_data place.now)) }
{
    if is_short(place) {
        write_number(out, place.identifier.0)
    } else {
        let text = to_text(*out.allocator(), place)?;
        out.push_str(text.as_str())
    }
}
