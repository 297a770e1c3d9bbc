//! What a command is given: a document, with a run beside it where the command asks for one.

ghost use Rattle.std.specs.Prelude.{◌≡◌, codes, map};
ghost use Rattle.std.specs.List.{list_any};
ghost use Rattle.std.specs.Str.{bytes_eq};
ghost use Rattle.serde_json.specs.View.{view, items_view, members_view};
ghost use Rattle.rc_doc.specs.Reading.{IsRead, all_items, all_known, field, flag_field, list_field, only};
ghost use Rattle.rc_doc.specs.Reading.{option_field};
ghost use Rattle.rc_program.specs.Given.{doc_beside_run_of, end_content_of, event_content_of, given_end_of};
ghost use Rattle.rc_program.specs.Given.{given_event_of, given_run_of};
ghost use Rattle.rc_program.specs.Given.{read_in_form, with_run_of, without_run};

use rc_doc::{Doc, Read, Refusal, tag};
use rc_names::List;
use rc_replay::{End, Event, GivenRun};
use serde_json::{Map, Value};
use std::alloc::Global;

/// A document, and the run that is given with it.
#[derive(Drop)]
pub struct Given {
    pub doc: Doc,
    pub run: GivenRun,
}

/// The form of what a command reads.
#[derive(Clone, Copy, Debug, PartialEq, Eq)]
pub enum Form {
    /// A document alone; the run is the one without events.
    Alone,
    /// A document with a run.
    WithRun,
}

/// Reads a value of that form. Refuses with `NotDoc` if the value isn't of it, and with `Memory` when out of memory.
pub fn read_given(alloc: Global, form: Form, value: &Value) -> Result<Given, Refusal>
    ensures { IsRead result (read_in_form form (view value.now)) }
{
    match form {
        Form::Alone => Ok(without_run(alloc, Doc::read(alloc, value)?)),
        Form::WithRun => with_run(alloc, value),
    }
}

/// Returns the document with the run without events.
pub fn without_run(alloc: Global, doc: Doc) -> Given
    ensures { result ≡ without_run doc }
{
    let run = GivenRun {
        events: List::new(alloc),
        end: End::Open,
    };
    Given { doc, run }
}

#[tactic(auto, unfolding(crate::specs::Given::with_run_of))]
fn with_run(alloc: Global, value: &Value) -> Result<Given, Refusal>
    ensures { IsRead result (with_run_of (view value.now)) }
{
    only(value, &["env", "hir", "run"])?;
    let doc = doc_beside_run(alloc, value)?;
    let run = run_field(alloc, value)?;
    Ok(Given { doc, run })
}

/// The document that has a run beside it.
#[tactic(auto, unfolding(crate::specs::Given::doc_beside_run_of))]
fn doc_beside_run(alloc: Global, value: &Value) -> Result<Doc, Refusal>
    ensures { IsRead result (doc_beside_run_of (view value.now)) }
{
    let hir = required(alloc, value, "hir")?;
    let env = required(alloc, value, "env")?;
    Ok(Doc { hir, env })
}

/// The run beside a document.
fn run_field(alloc: Global, value: &Value) -> Result<GivenRun, Refusal>
    ensures { IsRead result (field given_run_of (codes "run") (view value.now)) }
{
    match value.get("run") {
        Some(found) => read_run(alloc, found),
        None => Err(Refusal::NotDoc),
    }
}

/// Reads a run.
#[tactic(auto, unfolding(crate::specs::Given::given_run_of))]
pub fn read_run(alloc: Global, value: &Value) -> Result<GivenRun, Refusal>
    ensures { IsRead result (given_run_of (view value.now)) }
{
    only(value, &["end", "events"])?;
    let events = events_field(alloc, value)?;
    let end = end_field(alloc, value)?;
    Ok(GivenRun { events, end })
}

/// The events of a run, which may be left out.
fn events_field(alloc: Global, value: &Value) -> Result<List<Event>, Refusal>
    ensures { IsRead result (list_field given_event_of (codes "events") (view value.now)) }
{
    let Some(found) = value.get("events") else {
        return Ok(List::new(alloc));
    };
    match found.as_array() {
        Some(items) => read_events(alloc, items.as_slice()),
        None => Err(Refusal::NotDoc),
    }
}

fn read_events(alloc: Global, values: &[Value]) -> Result<List<Event>, Refusal>
    ensures { IsRead result (all_items given_event_of (items_view values.now)) }
{
    let mut events = List::with_capacity(alloc, values.len())?;
    for value in values {
        events.push(read_event(alloc, value)?)?;
    }
    Ok(events)
}

/// Reads an event.
pub fn read_event(alloc: Global, value: &Value) -> Result<Event, Refusal>
    ensures { IsRead result (given_event_of (view value.now)) }
{
    match value.as_str() {
        Some("Threw") => Ok(Event::Threw),
        Some(_) => Err(Refusal::NotDoc),
        None => event_with_content(alloc, value),
    }
}

#[tactic(auto, unfolding(crate::specs::Given::event_content_of))]
fn event_with_content(alloc: Global, value: &Value) -> Result<Event, Refusal>
    ensures { IsRead result (event_content_of (view value.now)) }
{
    only(value, &["k", "v"])?;
    match tag(value) {
        Some("Did") => Ok(Event::Did(required(alloc, value, "v")?)),
        Some("Arm") => Ok(Event::Arm(flag(value, "v")?)),
        Some("Chose") => Ok(Event::Chose(optional(alloc, value, "v")?)),
        _ => Err(Refusal::NotDoc),
    }
}

/// The end of a run.
fn end_field(alloc: Global, value: &Value) -> Result<End, Refusal>
    ensures { IsRead result (field given_end_of (codes "end") (view value.now)) }
{
    match value.get("end") {
        Some(found) => read_end(alloc, found),
        None => Err(Refusal::NotDoc),
    }
}

/// Reads the end of a run.
pub fn read_end(alloc: Global, value: &Value) -> Result<End, Refusal>
    ensures { IsRead result (given_end_of (view value.now)) }
{
    match value.as_str() {
        Some("Open") => Ok(End::Open),
        Some(_) => Err(Refusal::NotDoc),
        None => end_with_content(alloc, value),
    }
}

#[tactic(auto, unfolding(crate::specs::Given::end_content_of))]
fn end_with_content(alloc: Global, value: &Value) -> Result<End, Refusal>
    ensures { IsRead result (end_content_of (view value.now)) }
{
    only(value, &["k", "v"])?;
    match tag(value) {
        Some("Returned") => Ok(End::Returned(required(alloc, value, "v")?)),
        Some("Thrown") => Ok(End::Thrown(required(alloc, value, "v")?)),
        _ => Err(Refusal::NotDoc),
    }
}

/// A field that must be there.
fn required<T: Read>(alloc: Global, value: &Value, name: &str) -> Result<T, Refusal>
    ensures { IsRead result (field T.reads name.now (view value.now)) }
{
    match value.get(name) {
        Some(found) => T::read(alloc, found),
        None => Err(Refusal::NotDoc),
    }
}

/// A field that is `None` if it is left out or null.
fn optional<T: Read>(alloc: Global, value: &Value, name: &str) -> Result<Option<T>, Refusal>
    ensures { IsRead result (option_field T.reads name.now (view value.now)) }
{
    match value.get(name) {
        Some(found) if found.is_null() => Ok(None),
        Some(found) => Ok(Some(T::read(alloc, found)?)),
        None => Ok(None),
    }
}

/// A flag that is false if it is left out.
fn flag(value: &Value, name: &str) -> Result<bool, Refusal>
    ensures { IsRead result (flag_field name.now (view value.now)) }
{
    match value.get(name) {
        Some(found) => found.as_bool().ok_or(Refusal::NotDoc),
        None => Ok(false),
    }
}

/// Refuses a value that isn't an object, and an object with a key that is none of these names.
fn only(value: &Value, names: &[&str]) -> Result<(), Refusal>
    ensures { IsRead result (only (map (λ name. name.now) names.now) (view value.now)) }
{
    match value.as_object() {
        Some(members) if are_known(members, names) => Ok(()),
        _ => Err(Refusal::NotDoc),
    }
}

/// Whether each key is one of these names.
fn are_known(members: &Map<String, Value>, names: &[&str]) -> bool
    ensures { result ≡ all_known (map (λ name. name.now) names.now) (members_view members.now.entries) }
{
    for (key, _) in members {
        if !is_one_of(key.as_str(), names) {
            return false;
        }
    }
    true
}

/// Whether a key is one of these names.
fn is_one_of(key: &str, names: &[&str]) -> bool
    ensures { result ≡ list_any (bytes_eq key.now) (map (λ name. name.now) names.now) }
{
    any_is(names, key)
}

/// Whether one of the names is this one.
fn any_is(names: &[&str], key: &str) -> bool
    ensures { result ≡ list_any (λ name. bytes_eq key.now name.now) names.now }
{
    names.iter().any(|name| key == *name)
}
