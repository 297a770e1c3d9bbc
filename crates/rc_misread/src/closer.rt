//! What is wrong in a part whose own parts no reader reads alone: an item of a place or of a span, and a block's key.

use crate::form::{Asked, Form};
use crate::known::EFFECTS;
use crate::misread::{Misread, Step};
use rc_names::List;
use serde_json::Value;
use std::alloc::{AllocError, Global};
use std::collections::BTreeMap;

/// What is wrong.
#[derive(Clone, Copy, Debug)]
pub(crate) enum Wrong<'a> {
    /// The value isn't what is asked.
    Asked(Asked, &'a Value),
    /// The value is no effect of a place.
    Effect(&'a Value),
    /// The value is no key of a block.
    Key(&'a Value),
    /// The block has this key, and the block at this index has it too.
    SameKey(u32, usize),
}

/// Something wrong in a part, and the steps from the part to it.
#[derive(Drop)]
pub(crate) struct Closer<'a> {
    pub steps: List<Step>,
    pub wrong: Wrong<'a>,
}

/// What is wrong in a part.
pub(crate) fn look_closer<'a>(
    alloc: Global,
    found: &Misread<'a>,
) -> Result<Closer<'a>, AllocError> {
    let mut steps = List::new(alloc);
    let inner = match (found.asked.is_list, found.asked.form) {
        (false, Form::Place) => wrong_in_place(found.value),
        (false, Form::Span) => wrong_in_span(found.value),
        (false, Form::Blocks) => wrong_key(alloc, found.value)?,
        _ => None,
    };
    let Some((index, wrong)) = inner else {
        let wrong = Wrong::Asked(found.asked, found.value);
        return Ok(Closer { steps, wrong });
    };
    steps.push(Step::Item(index))?;
    if let Wrong::Key(_) = wrong {
        steps.push(Step::Field("key"))?;
    }
    Ok(Closer { steps, wrong })
}

/// The first item of a long place that is wrong.
fn wrong_in_place(value: &Value) -> Option<(usize, Wrong<'_>)> {
    let count = value.as_array()?.len();
    if count != 3 && count != 4 {
        return None;
    }
    let (number, effect, flag) = (value.get(0)?, value.get(1)?, value.get(2)?);
    if number_of(number).is_none() {
        return Some((0, one(Form::Number, number)));
    }
    if !effect.as_str().is_some_and(is_effect) {
        return Some((1, Wrong::Effect(effect)));
    }
    if !flag.is_boolean() {
        return Some((2, one(Form::Flag, flag)));
    }
    Some((3, one(Form::Span, value.get(3)?)))
}

/// The first item of a span that is wrong.
fn wrong_in_span(value: &Value) -> Option<(usize, Wrong<'_>)> {
    let items = value.as_array()?;
    if items.len() != 2 {
        return None;
    }
    for (index, item) in items.iter().enumerate() {
        if number_of(item).is_none() {
            return Some((index, one(Form::Number, item)));
        }
    }
    None
}

/// The first block whose key is no number, or is that of a block before it. Fails only when out of memory.
pub(crate) fn wrong_key(
    alloc: Global,
    blocks: &Value,
) -> Result<Option<(usize, Wrong<'_>)>, AllocError> {
    let Some(blocks) = blocks.as_array() else {
        return Ok(None);
    };
    let mut seen = BTreeMap::new(alloc);
    for (index, block) in blocks.iter().enumerate() {
        if let Some(key) = bad_key(block) {
            return Ok(Some((index, Wrong::Key(key))));
        }
        let Some(number) = key_of(block) else {
            continue;
        };
        if let Some(before) = seen.insert(number, index)? {
            return Ok(Some((index, Wrong::SameKey(number, before))));
        }
    }
    Ok(None)
}

/// What a block has as `key`, if that isn't null.
fn own_key(block: &Value) -> Option<&Value> {
    match block.get("key") {
        Some(key) if !key.is_null() => Some(key),
        _ => None,
    }
}

/// What a block has as `key`, if that is no number.
fn bad_key(block: &Value) -> Option<&Value> {
    let key = own_key(block)?;
    match number_of(key) {
        Some(_) => None,
        None => Some(key),
    }
}

/// The key of a block, which is its `id` where it has no `key`.
fn key_of(block: &Value) -> Option<u32> {
    match own_key(block) {
        Some(key) => number_of(key),
        None => number_of(block.get("id")?),
    }
}

/// A value that isn't of this form.
fn one(form: Form, value: &Value) -> Wrong<'_> {
    let asked = Asked {
        form,
        is_list: false,
    };
    Wrong::Asked(asked, value)
}

fn is_effect(name: &str) -> bool {
    EFFECTS.iter().any(|effect| *effect == name)
}

/// A whole number below 2^32.
fn number_of(value: &Value) -> Option<u32> {
    u32::try_from(value.as_u64()?).ok()
}
