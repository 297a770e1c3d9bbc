//! All parts of a value that aren't read as they are asked and have something wrong of their own, up to ten.

ghost use Rattle.std.specs.Prelude.{IfOk};
ghost use Rattle.serde_json.specs.View.{view};
ghost use Rattle.rc_misread.specs.Misreads.{IsFirstFinding};

use crate::closer::wrong_key;
use crate::fields::fields_of;
use crate::form::{Asked, Field, Form};
use crate::misread::{Misread, Part, Step, find_misread, if_misread, item_form, part_at};
use crate::mistake::{missing_key, unknown_key};
use rc_doc::tag;
use rc_names::List;
use serde_json::Value;
use std::alloc::{AllocError, Global};

/// The most parts that are found beside the first one.
pub(crate) const MOST_OTHERS: usize = 9;

/// The most parts that are looked at. Each of them is misread, or is on the way to one that is found, and a document's
/// parts nest some dozen levels deep.
const MOST_STEPS: usize = 1000;

/// The parts of a value that aren't read as they are asked.
#[derive(Drop)]
pub struct Misreads<'a> {
    /// The one that `find_misread` finds.
    pub first: Misread<'a>,
    /// The next ones, up to nine, in the order in which fields are read, each before its own parts.
    pub others: List<Misread<'a>>,
}

/// Returns where a value isn't read as a document, and `None` for a document: each part, up to ten, that isn't read as
/// it is asked while its own parts are, or that has a key too much or too little, or a block's key that another block
/// has. Fails only when out of memory.
pub fn find_misreads(alloc: Global, value: &Value) -> Result<Option<Misreads<'_>>, AllocError>
    ensures { IfOk result (IsFirstFinding (view value.now)) }
{
    match find_misread(alloc, value)? {
        Some(first) => {
            let others = other_misreads(alloc, value, first.path.as_slice())?;
            Ok(Some(Misreads { first, others }))
        }
        None => Ok(None),
    }
}

/// The parts that are found, without the one at the end of this way.
fn other_misreads<'a>(
    alloc: Global,
    whole: &'a Value,
    first: &[Step],
) -> Result<List<Misread<'a>>, AllocError> {
    let mut others = List::new(alloc);
    let mut open = List::new(alloc);
    open.push(whole_misread(alloc, whole))?;
    for _ in 0..MOST_STEPS {
        if others.len() == MOST_OTHERS {
            break;
        }
        let Some(part) = open.pop() else { break };
        let inner = misread_parts(alloc, part.asked, part.value)?;
        let is_found = inner.is_empty() || has_own_mistake(alloc, part.asked, part.value)?;
        push_parts(alloc, &mut open, part.path.as_slice(), inner)?;
        if is_found && part.path.as_slice() != first {
            others.push(part)?;
        }
    }
    Ok(others)
}

/// The whole value, which isn't read as a document.
fn whole_misread(alloc: Global, value: &Value) -> Misread<'_> {
    Misread {
        path: List::new(alloc),
        asked: Asked {
            form: Form::Document,
            is_list: false,
        },
        value,
    }
}

/// Puts the parts of the part at the end of this way onto the parts that are still to be looked at, the first one last.
fn push_parts<'a>(
    alloc: Global,
    open: &mut List<Misread<'a>>,
    way: &[Step],
    mut parts: List<Part<'a>>,
) -> Result<(), AllocError> {
    parts.reverse();
    for part in parts.as_slice() {
        let mut path = List::from_slice(alloc, way)?;
        path.push(part.step)?;
        open.push(Misread {
            path,
            asked: part.asked,
            value: part.value,
        })?;
    }
    Ok(())
}

/// The first parts of a value, up to ten, that aren't read as they are asked.
fn misread_parts(alloc: Global, asked: Asked, value: &Value) -> Result<List<Part<'_>>, AllocError> {
    match (item_form(asked), value.as_array()) {
        (Some(form), Some(items)) => misread_items(alloc, form, items.as_slice()),
        (Some(_), None) => Ok(List::new(alloc)),
        (None, _) => match fields_of(asked.form, tag(value).unwrap_or("")) {
            Some(fields) => misread_fields(alloc, fields, value),
            None => Ok(List::new(alloc)),
        },
    }
}

fn misread_fields<'a>(
    alloc: Global,
    fields: &[Field],
    value: &'a Value,
) -> Result<List<Part<'a>>, AllocError> {
    let mut parts = List::new(alloc);
    for field in fields {
        let asked = Asked {
            form: field.2,
            is_list: field.1.is_list(),
        };
        if let Some(part) = if_misread(alloc, Step::Field(field.0), asked, part_at(field, value))? {
            parts.push(part)?;
        }
    }
    Ok(parts)
}

fn misread_items<'a>(
    alloc: Global,
    form: Form,
    items: &'a [Value],
) -> Result<List<Part<'a>>, AllocError> {
    let asked = Asked {
        form,
        is_list: false,
    };
    let mut parts = List::new(alloc);
    for (index, item) in items.iter().enumerate() {
        if parts.len() > MOST_OTHERS {
            break;
        }
        if let Some(part) = if_misread(alloc, Step::Item(index), asked, Some(item))? {
            parts.push(part)?;
        }
    }
    Ok(parts)
}

/// Whether something is wrong with a part beside its own parts.
fn has_own_mistake(alloc: Global, asked: Asked, value: &Value) -> Result<bool, AllocError> {
    if asked.is_list {
        return Ok(false);
    }
    if asked.form == Form::Blocks {
        return Ok(wrong_key(alloc, value)?.is_some());
    }
    match fields_of(asked.form, tag(value).unwrap_or("")) {
        Some(fields) => {
            Ok(
                unknown_key(fields, asked.form, value).is_some()
                    || missing_key(fields, value).is_some(),
            )
        }
        None => Ok(false),
    }
}
