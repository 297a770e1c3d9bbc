//! What is wrong with a part, in words.

use crate::closer::Wrong;
use crate::fields::fields_of;
use crate::form::{Asked, Field, Form, Need};
use crate::known::{EFFECTS, object_variants, plain_words};
use crate::sentence::Sentence;
use rc_doc::tag;
use rc_names::List;
use serde_json::Value;
use std::alloc::{AllocError, Global};

/// Writes what is wrong. Fails only when out of memory.
pub(crate) fn write_wrong(
    alloc: Global,
    out: &mut Sentence,
    wrong: Wrong<'_>,
) -> Result<(), AllocError> {
    match wrong {
        Wrong::Asked(asked, value) => write_asked(alloc, out, asked, value),
        Wrong::Effect(value) => match value.as_str() {
            Some(word) => out.unknown("effect", word, EFFECTS),
            None => out.expected("the name of an effect", value),
        },
        Wrong::Key(value) => out.expected("a whole number from 0 to 4294967295 or null", value),
        Wrong::SameKey(key, before) => {
            out.push("the key ")?;
            out.number(key as usize)?;
            out.push(" is also that of blocks[")?;
            out.number(before)?;
            out.push("]; where \"key\" is left out, \"id\" is the key")
        }
    }
}

/// What is wrong with a value that isn't what is asked, while each of its own parts is.
fn write_asked(
    alloc: Global,
    out: &mut Sentence,
    asked: Asked,
    value: &Value,
) -> Result<(), AllocError> {
    if asked.is_list || asked.form == Form::Blocks {
        return out.expected("an array", value);
    }
    match asked.form {
        Form::InstructionKind | Form::LogicalOperator | Form::GotoVariant => {
            write_choice(out, asked.form, value)
        }
        form => match name_of(form) {
            Some(name) => out.expected(name, value),
            None => write_object(alloc, out, form, value),
        },
    }
}

/// What is wrong with a value that is asked to be one of the words of a form.
fn write_choice(out: &mut Sentence, form: Form, value: &Value) -> Result<(), AllocError> {
    let words = plain_words(form);
    if let Some(word) = value.as_str() {
        return out.unknown("word", word, words);
    }
    out.push("expected one of ")?;
    out.words(words)?;
    out.push(", found ")?;
    out.value(value)
}

/// What is wrong with a value that is asked to be an object of this form, or one of its words.
fn write_object(
    alloc: Global,
    out: &mut Sentence,
    form: Form,
    value: &Value,
) -> Result<(), AllocError> {
    if let (Some(word), true) = (value.as_str(), has_variants(form)) {
        return write_plain_variant(alloc, out, form, word);
    }
    if !value.is_object() {
        return out.expected("an object", value);
    }
    match (fields_of(form, tag(value).unwrap_or("")), value.get("k")) {
        (Some(fields), _) => write_keys(alloc, out, fields, form, value),
        (None, Some(variant)) => write_variant(alloc, out, form, variant),
        (None, None) => {
            out.push("the key \"k\" is missing; the variants are ")?;
            out.words(object_variants(form))
        }
    }
}

/// What is wrong with a text where a variant of this form is expected.
fn write_plain_variant(
    alloc: Global,
    out: &mut Sentence,
    form: Form,
    word: &str,
) -> Result<(), AllocError> {
    if fields_of(form, word).is_none() {
        return out.unknown("variant", word, variants(alloc, form)?.as_slice());
    }
    out.push("the variant ")?;
    out.quoted(word)?;
    out.push(" is written as an object, whose key \"k\" is its name")
}

/// What is wrong with the name of the variant of an object of this form.
fn write_variant(
    alloc: Global,
    out: &mut Sentence,
    form: Form,
    variant: &Value,
) -> Result<(), AllocError> {
    let Some(word) = variant.as_str() else {
        return out.expected("the name of a variant as \"k\"", variant);
    };
    if !has_word(plain_words(form), word) {
        return out.unknown("variant", word, variants(alloc, form)?.as_slice());
    }
    out.push("the variant ")?;
    out.quoted(word)?;
    out.push(" is written as ")?;
    out.quoted(word)?;
    out.push(", without an object")
}

/// What is wrong with the keys of an object with these fields.
fn write_keys(
    alloc: Global,
    out: &mut Sentence,
    fields: &[Field],
    form: Form,
    value: &Value,
) -> Result<(), AllocError> {
    if let Some(key) = unknown_key(fields, form, value) {
        return write_unknown_key(alloc, out, fields, form, key);
    }
    match missing_key(fields, value) {
        Some(name) => {
            out.push("the key ")?;
            out.quoted(name)?;
            out.push(" is missing")
        }
        None => out.push("expected another value"),
    }
}

/// That no field has this key, and, if it is a key of an object beside it, which one that is.
fn write_unknown_key(
    alloc: Global,
    out: &mut Sentence,
    fields: &[Field],
    form: Form,
    key: &str,
) -> Result<(), AllocError> {
    let mut names = List::new(alloc);
    if has_variants(form) {
        names.push("k")?;
    }
    let mut owner = None;
    for field in fields {
        names.push(field.0)?;
        if owner.is_none() && !field.1.is_list() && has_field(field.2, key) {
            owner = Some(field.0);
        }
    }
    out.unknown("key", key, names.as_slice())?;
    let Some(owner) = owner else { return Ok(()) };
    out.push("; ")?;
    out.quoted(key)?;
    out.push(" is a key of ")?;
    out.quoted(owner)
}

/// The names of the variants of a form: of those that are objects, and of those that are texts.
fn variants(alloc: Global, form: Form) -> Result<List<&'static str>, AllocError> {
    let mut names = List::new(alloc);
    for name in object_variants(form) {
        names.push(*name)?;
    }
    for name in plain_words(form) {
        names.push(*name)?;
    }
    Ok(names)
}

/// Whether an object of this form has the name of its variant.
fn has_variants(form: Form) -> bool {
    !object_variants(form).is_empty()
}

fn has_word(words: &[&'static str], text: &str) -> bool {
    words.iter().any(|word| *word == text)
}

/// Whether an object of this form, which has no variants, has a field with this name.
fn has_field(form: Form, name: &str) -> bool {
    match fields_of(form, "") {
        Some(fields) => is_field(fields, name),
        None => false,
    }
}

/// Whether a field has this name.
fn is_field(fields: &[Field], name: &str) -> bool {
    fields.iter().any(|field| field.0 == name)
}

/// The first key of an object of this form that none of its fields has.
pub(crate) fn unknown_key<'a>(fields: &[Field], form: Form, value: &'a Value) -> Option<&'a str> {
    for (key, _) in value.as_object()? {
        let key = key.as_str();
        if !is_field(fields, key) && !(has_variants(form) && key == "k") {
            return Some(key);
        }
    }
    None
}

/// The first field that must be there and isn't.
pub(crate) fn missing_key(fields: &[Field], value: &Value) -> Option<&'static str> {
    for field in fields {
        if field.1 == Need::Required && value.get(field.0).is_none() {
            return Some(field.0);
        }
    }
    None
}

/// What a value of this form is, if it isn't an object or one of a few words.
fn name_of(form: Form) -> Option<&'static str> {
    match form {
        Form::Number => Some("a whole number from 0 to 4294967295"),
        Form::Flag => Some("true or false"),
        Form::Text => Some("a text"),
        Form::Span => Some("a span, which is an array of two numbers"),
        Form::Place => Some("a place, which is a number or an array of three or four items"),
        _ => None,
    }
}
