//! The printing form of the kinds that compute a value from texts and operands.

ghost use Rattle.std.specs.Prelude.{OnOk};
ghost use Rattle.rc_hir.specs.declared.instruction.InstructionValue.TheVariants as kinds;
ghost use Rattle.rc_show.specs.ShownKinds.{IsReadBack, value_data};
ghost use Rattle.rc_show.specs.Sending.{Sends};

use crate::fields::{Fields, NoFields};
use rc_hir::{Place, PrimitiveValue};
use rc_names::{List, Span, Text};
use serde::Serializer;

#[tactic(auto, using(crate::proofs::KindsReadBack::Expressions::primitive_again))]
pub(super) fn primitive<S: Serializer>(
    out: &mut S,
    value: &PrimitiveValue,
    span: &Option<Span>,
) -> Result<(), S::Error>
    ensures sends { OnOk result
        (Sends (value_data (kinds.Primitive value.now span.now)) (S.written out.old) (S.written out.new)) }
    ensures again { OnOk result (IsReadBack (kinds.Primitive value.now span.now)) }
{
    NoFields
        .tagged("Primitive")
        .with_some("span", span)
        .with("value", value)
        .send(out)
}

#[tactic(auto, using(crate::proofs::KindsReadBack::Expressions::jsx_text_again))]
pub(super) fn jsx_text<S: Serializer>(
    out: &mut S,
    value: &Text,
    span: &Option<Span>,
) -> Result<(), S::Error>
    ensures sends { OnOk result
        (Sends (value_data (kinds.JSXText value.now span.now)) (S.written out.old) (S.written out.new)) }
    ensures again { OnOk result (IsReadBack (kinds.JSXText value.now span.now)) }
{
    NoFields
        .tagged("JSXText")
        .with_some("span", span)
        .with("value", value)
        .send(out)
}

#[tactic(auto, using(crate::proofs::KindsReadBack::Expressions::binary_expression_again))]
pub(super) fn binary_expression<S: Serializer>(
    out: &mut S,
    operator: &Text,
    left: &Place,
    right: &Place,
    span: &Option<Span>,
) -> Result<(), S::Error>
    ensures sends { OnOk result
        (Sends (value_data (kinds.BinaryExpression operator.now left.now right.now span.now))
        (S.written out.old) (S.written out.new)) }
    ensures again { OnOk result (IsReadBack (kinds.BinaryExpression operator.now left.now right.now span.now)) }
{
    NoFields
        .tagged("BinaryExpression")
        .with("left", left)
        .with("operator", operator)
        .with("right", right)
        .with_some("span", span)
        .send(out)
}

#[tactic(auto, using(crate::proofs::KindsReadBack::Expressions::unary_expression_again))]
pub(super) fn unary_expression<S: Serializer>(
    out: &mut S,
    operator: &Text,
    value: &Place,
    span: &Option<Span>,
) -> Result<(), S::Error>
    ensures sends { OnOk result
        (Sends (value_data (kinds.UnaryExpression operator.now value.now span.now))
        (S.written out.old) (S.written out.new)) }
    ensures again { OnOk result (IsReadBack (kinds.UnaryExpression operator.now value.now span.now)) }
{
    NoFields
        .tagged("UnaryExpression")
        .with("operator", operator)
        .with_some("span", span)
        .with("value", value)
        .send(out)
}

#[tactic(auto, using(crate::proofs::KindsReadBack::Expressions::type_cast_expression_again))]
pub(super) fn type_cast_expression<S: Serializer>(
    out: &mut S,
    value: &Place,
    annotation: &Text,
    span: &Option<Span>,
) -> Result<(), S::Error>
    ensures sends { OnOk result
        (Sends (value_data (kinds.TypeCastExpression value.now annotation.now span.now))
        (S.written out.old) (S.written out.new)) }
    ensures again { OnOk result (IsReadBack (kinds.TypeCastExpression value.now annotation.now span.now)) }
{
    NoFields
        .with("annotation", annotation)
        .tagged("TypeCastExpression")
        .with_some("span", span)
        .with("value", value)
        .send(out)
}

#[tactic(auto, using(crate::proofs::KindsReadBack::Expressions::await_again))]
pub(super) fn await_value<S: Serializer>(
    out: &mut S,
    value: &Place,
    span: &Option<Span>,
) -> Result<(), S::Error>
    ensures sends { OnOk result
        (Sends (value_data (kinds.Await value.now span.now)) (S.written out.old) (S.written out.new)) }
    ensures again { OnOk result (IsReadBack (kinds.Await value.now span.now)) }
{
    NoFields
        .tagged("Await")
        .with_some("span", span)
        .with("value", value)
        .send(out)
}

#[tactic(auto, using(crate::proofs::KindsReadBack::Expressions::regexp_literal_again))]
pub(super) fn regexp_literal<S: Serializer>(
    out: &mut S,
    pattern: &Text,
    flags: &Text,
    span: &Option<Span>,
) -> Result<(), S::Error>
    ensures sends { OnOk result
        (Sends (value_data (kinds.RegExpLiteral pattern.now flags.now span.now))
        (S.written out.old) (S.written out.new)) }
    ensures again { OnOk result (IsReadBack (kinds.RegExpLiteral pattern.now flags.now span.now)) }
{
    NoFields
        .with("flags", flags)
        .tagged("RegExpLiteral")
        .with("pattern", pattern)
        .with_some("span", span)
        .send(out)
}

#[tactic(auto, using(crate::proofs::KindsReadBack::Expressions::meta_property_again))]
pub(super) fn meta_property<S: Serializer>(
    out: &mut S,
    meta: &Text,
    property: &Text,
    span: &Option<Span>,
) -> Result<(), S::Error>
    ensures sends { OnOk result
        (Sends (value_data (kinds.MetaProperty meta.now property.now span.now))
        (S.written out.old) (S.written out.new)) }
    ensures again { OnOk result (IsReadBack (kinds.MetaProperty meta.now property.now span.now)) }
{
    NoFields
        .tagged("MetaProperty")
        .with("meta", meta)
        .with("property", property)
        .with_some("span", span)
        .send(out)
}

#[tactic(auto, using(crate::proofs::KindsReadBack::Expressions::tagged_template_expression_again))]
pub(super) fn tagged_template_expression<S: Serializer>(
    out: &mut S,
    tag: &Place,
    quasi: &Text,
    span: &Option<Span>,
) -> Result<(), S::Error>
    ensures sends { OnOk result
        (Sends (value_data (kinds.TaggedTemplateExpression tag.now quasi.now span.now))
        (S.written out.old) (S.written out.new)) }
    ensures again { OnOk result (IsReadBack (kinds.TaggedTemplateExpression tag.now quasi.now span.now)) }
{
    NoFields
        .tagged("TaggedTemplateExpression")
        .with("quasi", quasi)
        .with_some("span", span)
        .with("tag", tag)
        .send(out)
}

#[tactic(auto, using(crate::proofs::KindsReadBack::Expressions::template_literal_again))]
pub(super) fn template_literal<S: Serializer>(
    out: &mut S,
    subexprs: &List<Place>,
    quasis: &List<Text>,
    span: &Option<Span>,
) -> Result<(), S::Error>
    ensures sends { OnOk result
        (Sends (value_data (kinds.TemplateLiteral subexprs.now quasis.now span.now))
        (S.written out.old) (S.written out.new)) }
    ensures again { OnOk result (IsReadBack (kinds.TemplateLiteral subexprs.now quasis.now span.now)) }
{
    NoFields
        .tagged("TemplateLiteral")
        .with("quasis", quasis)
        .with_some("span", span)
        .with("subexprs", subexprs)
        .send(out)
}

#[tactic(auto, using(crate::proofs::KindsReadBack::Expressions::get_iterator_again))]
pub(super) fn get_iterator<S: Serializer>(
    out: &mut S,
    collection: &Place,
    span: &Option<Span>,
) -> Result<(), S::Error>
    ensures sends { OnOk result
        (Sends (value_data (kinds.GetIterator collection.now span.now)) (S.written out.old) (S.written out.new)) }
    ensures again { OnOk result (IsReadBack (kinds.GetIterator collection.now span.now)) }
{
    NoFields
        .with("collection", collection)
        .tagged("GetIterator")
        .with_some("span", span)
        .send(out)
}

#[tactic(auto, using(crate::proofs::KindsReadBack::Expressions::iterator_next_again))]
pub(super) fn iterator_next<S: Serializer>(
    out: &mut S,
    iterator: &Place,
    collection: &Place,
    span: &Option<Span>,
) -> Result<(), S::Error>
    ensures sends { OnOk result
        (Sends (value_data (kinds.IteratorNext iterator.now collection.now span.now))
        (S.written out.old) (S.written out.new)) }
    ensures again { OnOk result (IsReadBack (kinds.IteratorNext iterator.now collection.now span.now)) }
{
    NoFields
        .with("collection", collection)
        .with("iterator", iterator)
        .tagged("IteratorNext")
        .with_some("span", span)
        .send(out)
}

#[tactic(auto, using(crate::proofs::KindsReadBack::Expressions::next_property_of_again))]
pub(super) fn next_property_of<S: Serializer>(
    out: &mut S,
    value: &Place,
    span: &Option<Span>,
) -> Result<(), S::Error>
    ensures sends { OnOk result
        (Sends (value_data (kinds.NextPropertyOf value.now span.now)) (S.written out.old) (S.written out.new)) }
    ensures again { OnOk result (IsReadBack (kinds.NextPropertyOf value.now span.now)) }
{
    NoFields
        .tagged("NextPropertyOf")
        .with_some("span", span)
        .with("value", value)
        .send(out)
}
