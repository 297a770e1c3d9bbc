//! Equality of the kinds that are literals, functions and elements.

ghost use Rattle.std.specs.Prelude.{◌≡◌, ◌↔◌, IsTrue};

use crate::Equals;
use rc_hir::{
    ArrayElement, InstructionValue, InstructionValue as Kind, JsxAttribute, JsxTag,
    LoweredFunction, ObjectPropertyOrSpread, Place, PrimitiveValue,
};
use rc_names::{List, Span, Text};

/// Whether a value is a `Primitive` with these parts.
pub(super) fn is_primitive(
    other: &InstructionValue,
    value: &PrimitiveValue,
    span: &Option<Span>,
) -> bool
    ensures { IsTrue result ↔ (other.now ≡ InstructionValue.Primitive value.now span.now) }
{
    match other {
        Kind::Primitive {
            value: its_value,
            span: its_span,
        } => span == its_span && value.equals(its_value),
        _ => false,
    }
}

/// Whether a value is a `JSXText` with these parts.
pub(super) fn is_jsx_text(other: &InstructionValue, value: &Text, span: &Option<Span>) -> bool
    ensures { IsTrue result ↔ (other.now ≡ InstructionValue.JSXText value.now span.now) }
{
    match other {
        Kind::JSXText {
            value: its_value,
            span: its_span,
        } => span == its_span && value.equals(its_value),
        _ => false,
    }
}

/// Whether a value is an `ObjectExpression` with these parts.
pub(super) fn is_object_expression(
    other: &InstructionValue,
    properties: &List<ObjectPropertyOrSpread>,
    span: &Option<Span>,
) -> bool
    ensures { IsTrue result ↔ (other.now ≡ InstructionValue.ObjectExpression properties.now span.now) }
{
    match other {
        Kind::ObjectExpression {
            properties: its_properties,
            span: its_span,
        } => span == its_span && properties.equals(its_properties),
        _ => false,
    }
}

/// Whether a value is an `ObjectMethod` with these parts.
pub(super) fn is_object_method(
    other: &InstructionValue,
    lowered_func: &LoweredFunction,
    span: &Option<Span>,
) -> bool
    ensures { IsTrue result ↔ (other.now ≡ InstructionValue.ObjectMethod lowered_func.now span.now) }
{
    match other {
        Kind::ObjectMethod {
            lowered_func: its_lowered_func,
            span: its_span,
        } => lowered_func == its_lowered_func && span == its_span,
        _ => false,
    }
}

/// Whether a value is a `FunctionExpression` with these parts.
pub(super) fn is_function_expression(
    other: &InstructionValue,
    name: &Option<Text>,
    lowered_func: &LoweredFunction,
    span: &Option<Span>,
) -> bool
    ensures { IsTrue result ↔ (other.now ≡ InstructionValue.FunctionExpression name.now lowered_func.now span.now) }
{
    match other {
        Kind::FunctionExpression {
            name: its_name,
            lowered_func: its_lowered_func,
            span: its_span,
        } => lowered_func == its_lowered_func && span == its_span && name.equals(its_name),
        _ => false,
    }
}

/// Whether a value is an `ArrayExpression` with these parts.
pub(super) fn is_array_expression(
    other: &InstructionValue,
    elements: &List<ArrayElement>,
    span: &Option<Span>,
) -> bool
    ensures { IsTrue result ↔ (other.now ≡ InstructionValue.ArrayExpression elements.now span.now) }
{
    match other {
        Kind::ArrayExpression {
            elements: its_elements,
            span: its_span,
        } => span == its_span && elements.equals(its_elements),
        _ => false,
    }
}

/// Whether a value is a `JsxExpression` with these parts.
pub(super) fn is_jsx_expression(
    other: &InstructionValue,
    tag: &JsxTag,
    props: &List<JsxAttribute>,
    children: &Option<List<Place>>,
    span: &Option<Span>,
) -> bool
    ensures { IsTrue result ↔ (other.now ≡ InstructionValue.JsxExpression tag.now props.now children.now span.now) }
{
    match other {
        Kind::JsxExpression {
            tag: its_tag,
            props: its_props,
            children: its_children,
            span: its_span,
        } => span == its_span
            && tag.equals(its_tag)
            && props.equals(its_props)
            && children.equals(its_children),
        _ => false,
    }
}

/// Whether a value is a `JsxFragment` with these parts.
pub(super) fn is_jsx_fragment(
    other: &InstructionValue,
    children: &List<Place>,
    span: &Option<Span>,
) -> bool
    ensures { IsTrue result ↔ (other.now ≡ InstructionValue.JsxFragment children.now span.now) }
{
    match other {
        Kind::JsxFragment {
            children: its_children,
            span: its_span,
        } => span == its_span && children.equals(its_children),
        _ => false,
    }
}

/// Whether a value is a `RegExpLiteral` with these parts.
pub(super) fn is_regexp_literal(
    other: &InstructionValue,
    pattern: &Text,
    flags: &Text,
    span: &Option<Span>,
) -> bool
    ensures { IsTrue result ↔ (other.now ≡ InstructionValue.RegExpLiteral pattern.now flags.now span.now) }
{
    match other {
        Kind::RegExpLiteral {
            pattern: its_pattern,
            flags: its_flags,
            span: its_span,
        } => span == its_span && pattern.equals(its_pattern) && flags.equals(its_flags),
        _ => false,
    }
}

/// Whether a value is a `MetaProperty` with these parts.
pub(super) fn is_meta_property(
    other: &InstructionValue,
    meta: &Text,
    property: &Text,
    span: &Option<Span>,
) -> bool
    ensures { IsTrue result ↔ (other.now ≡ InstructionValue.MetaProperty meta.now property.now span.now) }
{
    match other {
        Kind::MetaProperty {
            meta: its_meta,
            property: its_property,
            span: its_span,
        } => span == its_span && meta.equals(its_meta) && property.equals(its_property),
        _ => false,
    }
}

/// Whether a value is a `TaggedTemplateExpression` with these parts.
pub(super) fn is_tagged_template_expression(
    other: &InstructionValue,
    tag: &Place,
    quasi: &Text,
    span: &Option<Span>,
) -> bool
    ensures { IsTrue result ↔ (other.now ≡ InstructionValue.TaggedTemplateExpression tag.now quasi.now span.now) }
{
    match other {
        Kind::TaggedTemplateExpression {
            tag: its_tag,
            quasi: its_quasi,
            span: its_span,
        } => tag.equals(its_tag) && span == its_span && quasi.equals(its_quasi),
        _ => false,
    }
}

/// Whether a value is a `TemplateLiteral` with these parts.
pub(super) fn is_template_literal(
    other: &InstructionValue,
    subexprs: &List<Place>,
    quasis: &List<Text>,
    span: &Option<Span>,
) -> bool
    ensures { IsTrue result ↔ (other.now ≡ InstructionValue.TemplateLiteral subexprs.now quasis.now span.now) }
{
    match other {
        Kind::TemplateLiteral {
            subexprs: its_subexprs,
            quasis: its_quasis,
            span: its_span,
        } => span == its_span && subexprs.equals(its_subexprs) && quasis.equals(its_quasis),
        _ => false,
    }
}
