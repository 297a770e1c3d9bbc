//! Readers of spans, of places in their three forms, and of the types that have one place.

ghost use Rattle.std.specs.Prelude.{◌≡◌};
ghost use Rattle.serde_json.specs.View.{view};
ghost use Rattle.rc_doc.specs.Places.{argument_of, effect_named, effect_of, long_place, param_of, place_of};
ghost use Rattle.rc_doc.specs.Places.{short_place, span_of, spanned_place, spread_of};

use crate::fields::{Read, array_len, number, or_refuse, required, variant_name};
use crate::members::{one_field, two_fields};
use crate::refusal::Refusal;
use rc_hir::{Effect, ParamPattern, Place, PlaceOrSpread, SpreadPattern};
use rc_names::{IdentifierId, Span};
use serde_json::Value;
use std::alloc::Global;

#[tactic(auto, unfolding(crate::specs::Places::span_of))]
fn span(value: &Value) -> Option<Span>
    ensures { result ≡ span_of (view value.now) }
{
    if array_len(value) != 2 {
        return None;
    }
    let start = number(value.get(0)?)?;
    let end = number(value.get(1)?)?;
    Some(Span { start, end })
}

impl Read for Span {
    ghost reads = { span_of };

    fn read(_alloc: Global, value: &Value) -> Result<Span, Refusal> {
        or_refuse(span(value))
    }
}

fn effect_named(name: &str) -> Option<Effect>
    ensures { result ≡ effect_named name.now }
{
    match name {
        "Unknown" => Some(Effect::Unknown),
        "Freeze" => Some(Effect::Freeze),
        "Read" => Some(Effect::Read),
        "Capture" => Some(Effect::Capture),
        "ConditionallyMutateIterator" => Some(Effect::ConditionallyMutateIterator),
        "ConditionallyMutate" => Some(Effect::ConditionallyMutate),
        "Mutate" => Some(Effect::Mutate),
        "Store" => Some(Effect::Store),
        _ => None,
    }
}

fn effect(value: &Value) -> Option<Effect>
    ensures { result ≡ effect_of (view value.now) }
{
    effect_named(value.as_str()?)
}

fn short_place(value: &Value) -> Option<Place>
    ensures { result ≡ short_place (view value.now) }
{
    let identifier = IdentifierId::new(number(value)?);
    Some(Place {
        identifier,
        effect: Effect::Read,
        reactive: false,
        span: None,
    })
}

fn long_place(span: Option<Span>, value: &Value) -> Option<Place>
    ensures { result ≡ long_place span (view value.now) }
{
    let identifier = IdentifierId::new(number(value.get(0)?)?);
    let effect = effect(value.get(1)?)?;
    let reactive = value.get(2)?.as_bool()?;
    Some(Place {
        identifier,
        effect,
        reactive,
        span,
    })
}

fn spanned_place(value: &Value) -> Option<Place>
    ensures { result ≡ spanned_place (view value.now) }
{
    let span = span(value.get(3)?)?;
    long_place(Some(span), value)
}

/// Returns the place that a JSON value gives, and `None` if it gives none. This takes no memory.
#[tactic(auto, unfolding(crate::specs::Places::place_of))]
pub fn read_place(value: &Value) -> Option<Place>
    ensures { result ≡ place_of (view value.now) }
{
    match array_len(value) {
        3 => long_place(None, value),
        4 => spanned_place(value),
        _ => short_place(value),
    }
}

impl Read for Place {
    ghost reads = { place_of };

    fn read(_alloc: Global, value: &Value) -> Result<Place, Refusal> {
        or_refuse(read_place(value))
    }
}

impl Read for SpreadPattern {
    ghost reads = { spread_of };

    #[tactic(auto, unfolding(crate::specs::Places::spread_of))]
    fn read(alloc: Global, value: &Value) -> Result<SpreadPattern, Refusal> {
        let place = one_field(value, "place")?;
        let place = required(alloc, place)?;
        Ok(SpreadPattern { place })
    }
}

impl Read for ParamPattern {
    ghost reads = { param_of };

    #[tactic(auto, unfolding(crate::specs::Places::param_of))]
    fn read(alloc: Global, value: &Value) -> Result<ParamPattern, Refusal> {
        let (k, v) = two_fields(value, "k", "v")?;
        match variant_name(k) {
            Some("Place") => Ok(ParamPattern::Place(required(alloc, v)?)),
            Some("Spread") => Ok(ParamPattern::Spread(required(alloc, v)?)),
            _ => Err(Refusal::NotDoc),
        }
    }
}

impl Read for PlaceOrSpread {
    ghost reads = { argument_of };

    #[tactic(auto, unfolding(crate::specs::Places::argument_of))]
    fn read(alloc: Global, value: &Value) -> Result<PlaceOrSpread, Refusal> {
        let (k, v) = two_fields(value, "k", "v")?;
        match variant_name(k) {
            Some("Place") => Ok(PlaceOrSpread::Place(required(alloc, v)?)),
            Some("Spread") => Ok(PlaceOrSpread::Spread(required(alloc, v)?)),
            _ => Err(Refusal::NotDoc),
        }
    }
}
