//! The document has each type, each variant and each field.

use super::document::DOCUMENT;
use super::parts::{Part, parts, without_option};
use super::types::TYPES;
use serde_json::{Map, Value};
use std::alloc::{AllocError, Global};
use std::test::Fail;

/// The form of a value of a type: the variant of an enum, or the number of items of an array.
fn form(alloc: Global, type_: &str, value: &Value) -> Result<String, AllocError> {
    let name = value.as_str().or(value.get("k").and_then(Value::as_str));
    match (name, value.as_array()) {
        (Some(name), _) => format!(in alloc; "{type_}.{name}"),
        (None, Some(items)) => format!(in alloc; "{type_}.{}", items.len()),
        (None, None) => String::from_str(alloc, type_),
    }
}

/// The form of a part, and that form with each of the part's fields.
fn forms_of(
    alloc: Global,
    part: &Part,
    value: &Value,
    forms: &mut Vec<String>,
) -> Result<(), AllocError> {
    let form = form(alloc, without_option(part.type_.as_str()), value)?;
    if let Some(fields) = value.as_object() {
        for (key, _) in fields {
            forms.push(format!(in alloc; "{form}.{key}")?)?;
        }
    }
    forms.push(form)?;
    Ok(())
}

/// The forms that the document has.
fn forms_used(alloc: Global, types: &Value, document: &Value) -> Result<Vec<String>, AllocError> {
    let mut forms = Vec::new(alloc);
    for part in parts(alloc, types, "Doc", document)?.as_slice() {
        if let Some(value) = document.pointer(part.path.as_str()) {
            forms_of(alloc, part, value, &mut forms)?;
        }
    }
    Ok(forms)
}

/// Whether a form is one of these.
fn is_used(forms: &[String], form: &str) -> bool {
    forms.iter().any(|used| used.as_str() == form)
}

/// Whether each of these fields is used.
fn are_used(
    alloc: Global,
    forms: &[String],
    form: &str,
    fields: &Map<String, Value>,
) -> Result<bool, AllocError> {
    for (key, _) in fields {
        let field = format!(in alloc; "{form}.{key}")?;
        if !is_used(forms, field.as_str()) {
            return Ok(false);
        }
    }
    Ok(true)
}

/// Whether each of these variants of an enum is used, with each of its fields.
fn are_variants_used(
    alloc: Global,
    forms: &[String],
    type_: &str,
    variants: &Map<String, Value>,
) -> Result<bool, AllocError> {
    for (name, fields) in variants {
        let form = format!(in alloc; "{type_}.{name}")?;
        let are_used = match fields.as_object() {
            Some(fields) => are_used(alloc, forms, form.as_str(), fields)?,
            None => true,
        };
        if !are_used || !is_used(forms, form.as_str()) {
            return Ok(false);
        }
    }
    Ok(true)
}

/// The types of that name, `structs` or `enums`, each with its fields or its variants.
fn types_of<'t>(types: &'t Value, name: &str) -> Option<&'t Map<String, Value>> {
    types.get(name)?.as_object()
}

/// The forms that the document with every form has.
fn forms_of_document(alloc: Global, types: &Value) -> Result<Vec<String>, Fail> {
    let document = Value::from_str(alloc, DOCUMENT)?;
    Ok(forms_used(alloc, types, &document)?)
}

/// A struct of which some field isn't used, if there is one.
fn unused_struct(alloc: Global) -> Result<Option<String>, Fail> {
    let types = Value::from_str(alloc, TYPES)?;
    let forms = forms_of_document(alloc, &types)?;
    for (type_, fields) in types_of(&types, "structs").ok_or("no structs")? {
        let fields = fields.as_object().ok_or("no fields")?;
        if !are_used(alloc, forms.as_slice(), type_.as_str(), fields)? {
            return Ok(Some(type_.clone()?));
        }
    }
    Ok(None)
}

/// An enum of which some variant isn't used with each of its fields, if there is one.
fn unused_enum(alloc: Global) -> Result<Option<String>, Fail> {
    let types = Value::from_str(alloc, TYPES)?;
    let forms = forms_of_document(alloc, &types)?;
    for (type_, variants) in types_of(&types, "enums").ok_or("no enums")? {
        let variants = variants.as_object().ok_or("no variants")?;
        if !are_variants_used(alloc, forms.as_slice(), type_.as_str(), variants)? {
            return Ok(Some(type_.clone()?));
        }
    }
    Ok(None)
}

/// Whether the document has that form.
fn is_form_used(alloc: Global, form: &str) -> Result<bool, Fail> {
    let types = Value::from_str(alloc, TYPES)?;
    let forms = forms_of_document(alloc, &types)?;
    Ok(is_used(forms.as_slice(), form))
}

#[test]
fn the_document_has_each_struct_with_each_field(rt: HostRuntime) -> Result<(), Fail> {
    let alloc = rt.alloc();
    assert_eq!(rt; unused_struct(alloc)?, None);
    for form in ["Place", "Place.3", "Place.4", "Span.2"] {
        assert!(rt; is_form_used(alloc, form)?, "of {form}");
    }
    Ok(())
}

#[test]
fn the_document_has_each_variant_with_each_field(rt: HostRuntime) -> Result<(), Fail> {
    assert_eq!(rt; unused_enum(rt.alloc())?, None);
    Ok(())
}
