//! Where a value that isn't read as a document is at fault: a second walk, for values that the readers refused.

ghost use Rattle.std.specs.Prelude.{◌≡◌, IfOk, map, option_map};
ghost use Rattle.serde_json.specs.View.{view, items_view};
ghost use Rattle.rc_misread.specs.Misread.{IsFinding, item_form, misread_field, misread_item, misread_part};
ghost use Rattle.rc_misread.specs.inside.Parts.{found_of};
ghost use Rattle.rc_misread.specs.Misread.{if_misread, move_of, part_at};
ghost use Rattle.rc_misread.specs.Forms.{row_of};

use crate::fields::fields_of;
use crate::form::{Asked, Field, Form, is_read};
use rc_doc::tag;
use rc_names::List;
use serde_json::Value;
use std::alloc::{AllocError, Global};

/// A step from a value to one of its parts.
#[derive(Clone, Copy, Debug, PartialEq, Eq)]
pub enum Step {
    /// To the field with this name.
    Field(&'static str),
    /// To the item at this index.
    Item(usize),
}

/// A part of a value that isn't read as it is asked, and the step to it.
#[derive(Drop)]
pub(crate) struct Part<'a> {
    pub step: Step,
    pub asked: Asked,
    pub value: &'a Value,
}

/// A part of a value that isn't read as it is asked, while each of its own parts is.
#[derive(Drop)]
pub struct Misread<'a> {
    /// The way to the part.
    pub path: List<Step>,
    /// What the part is asked to be.
    pub asked: Asked,
    /// The part.
    pub value: &'a Value,
}

/// Returns where a value isn't read as a document, and `None` for a document: the part after the first steps that lead
/// to a part which isn't read as it is asked, in the order in which fields are read. Fails only when out of memory.
pub fn find_misread(alloc: Global, value: &Value) -> Result<Option<Misread<'_>>, AllocError>
    ensures { IfOk result (IsFinding (view value.now)) }
{
    let mut asked = Asked {
        form: Form::Document,
        is_list: false,
    };
    if is_read(alloc, asked, value)? {
        return Ok(None);
    }
    let mut path = List::new(alloc);
    let mut part = value;
    while let Some(next) = misread_part(alloc, asked, part)? {
        path.push(next.step)?;
        asked = next.asked;
        part = next.value;
    }
    Ok(Some(Misread {
        path,
        asked,
        value: part,
    }))
}

/// The first part of a value that isn't read as it is asked.
#[tactic(auto, unfolding(crate::specs::Misread::misread_part))]
fn misread_part(alloc: Global, asked: Asked, value: &Value) -> Result<Option<Part<'_>>, AllocError>
    ensures { IfOk result (λ found. option_map found_of found ≡ misread_part asked (view value.now)) }
{
    if let Some(form) = item_form(asked) {
        return match value.as_array() {
            Some(items) => misread_item(alloc, form, items.as_slice()),
            None => Ok(None),
        };
    }
    match fields_of(asked.form, tag(value).unwrap_or("")) {
        Some(fields) => misread_field(alloc, fields, value),
        None => Ok(None),
    }
}

/// The form of the items of what is asked, if it has items.
pub(crate) fn item_form(asked: Asked) -> Option<Form>
    ensures { result ≡ item_form asked }
{
    if asked.is_list {
        return Some(asked.form);
    }
    match asked.form {
        Form::Blocks => Some(Form::Block),
        _ => None,
    }
}

/// The first of these fields that isn't read.
fn misread_field<'a>(
    alloc: Global,
    fields: &[Field],
    value: &'a Value,
) -> Result<Option<Part<'a>>, AllocError>
    ensures { IfOk result (λ found. option_map found_of found
        ≡ misread_field (map row_of fields.now) (view value.now)) }
{
    for field in fields {
        let asked = Asked {
            form: field.2,
            is_list: field.1.is_list(),
        };
        if let Some(part) = if_misread(alloc, Step::Field(field.0), asked, part_at(field, value))? {
            return Ok(Some(part));
        }
    }
    Ok(None)
}

/// The value of a field, where it counts as there.
pub(crate) fn part_at<'a>(field: &Field, value: &'a Value) -> Option<&'a Value>
    ensures { option_map (λ part. view part.now) result ≡ part_at (row_of field.now) (view value.now) }
{
    match value.get(field.0) {
        Some(part) if field.1.may_be_null() && part.is_null() => None,
        found => found,
    }
}

/// The first of these items that isn't read as this form.
fn misread_item<'a>(
    alloc: Global,
    form: Form,
    items: &'a [Value],
) -> Result<Option<Part<'a>>, AllocError>
    ensures { IfOk result (λ found. option_map found_of found ≡ misread_item form 0 (items_view items.now)) }
{
    let asked = Asked {
        form,
        is_list: false,
    };
    for (index, item) in items.iter().enumerate() {
        if let Some(part) = if_misread(alloc, Step::Item(index), asked, Some(item))? {
            return Ok(Some(part));
        }
    }
    Ok(None)
}

/// The part that this step leads to, if it is there and isn't read as it is asked.
pub(crate) fn if_misread<'a>(
    alloc: Global,
    step: Step,
    asked: Asked,
    part: Option<&'a Value>,
) -> Result<Option<Part<'a>>, AllocError>
    ensures { IfOk result (λ found. option_map found_of found
        ≡ if_misread (move_of step) asked (option_map (λ value. view value.now) part.entry)) }
{
    match part {
        Some(value) if !is_read(alloc, asked, value)? => Ok(Some(Part { step, asked, value })),
        _ => Ok(None),
    }
}
