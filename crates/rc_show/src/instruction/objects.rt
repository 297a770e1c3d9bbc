//! The printing form of the kinds that make objects, arrays and JSX, and that reach into them.

ghost use Rattle.std.specs.Prelude.{OnOk};
ghost use Rattle.rc_hir.specs.declared.instruction.InstructionValue.TheVariants as kinds;
ghost use Rattle.rc_show.specs.ShownKinds.{IsReadBack, value_data};
ghost use Rattle.rc_show.specs.Sending.{Sends};

use crate::fields::{Fields, NoFields};
use rc_hir::{ArrayElement, JsxAttribute, JsxTag, ObjectPropertyOrSpread, Place, PropertyLiteral};
use rc_names::{List, Span};
use serde::Serializer;

#[tactic(auto, using(crate::proofs::KindsReadBack::Objects::object_expression_again))]
pub(super) fn object_expression<S: Serializer>(
    out: &mut S,
    properties: &List<ObjectPropertyOrSpread>,
    span: &Option<Span>,
) -> Result<(), S::Error>
    ensures sends { OnOk result
        (Sends (value_data (kinds.ObjectExpression properties.now span.now)) (S.written out.old) (S.written out.new)) }
    ensures again { OnOk result (IsReadBack (kinds.ObjectExpression properties.now span.now)) }
{
    NoFields
        .tagged("ObjectExpression")
        .with("properties", properties)
        .with_some("span", span)
        .send(out)
}

#[tactic(auto, using(crate::proofs::KindsReadBack::Objects::array_expression_again))]
pub(super) fn array_expression<S: Serializer>(
    out: &mut S,
    elements: &List<ArrayElement>,
    span: &Option<Span>,
) -> Result<(), S::Error>
    ensures sends { OnOk result
        (Sends (value_data (kinds.ArrayExpression elements.now span.now)) (S.written out.old) (S.written out.new)) }
    ensures again { OnOk result (IsReadBack (kinds.ArrayExpression elements.now span.now)) }
{
    NoFields
        .with("elements", elements)
        .tagged("ArrayExpression")
        .with_some("span", span)
        .send(out)
}

#[tactic(auto, using(crate::proofs::KindsReadBack::Objects::jsx_expression_again))]
pub(super) fn jsx_expression<S: Serializer>(
    out: &mut S,
    tag: &JsxTag,
    props: &List<JsxAttribute>,
    children: &Option<List<Place>>,
    span: &Option<Span>,
) -> Result<(), S::Error>
    ensures sends { OnOk result
        (Sends (value_data (kinds.JsxExpression tag.now props.now children.now span.now))
        (S.written out.old) (S.written out.new)) }
    ensures again { OnOk result (IsReadBack (kinds.JsxExpression tag.now props.now children.now span.now)) }
{
    NoFields
        .with_some("children", children)
        .tagged("JsxExpression")
        .with("props", props)
        .with_some("span", span)
        .with("tag", tag)
        .send(out)
}

#[tactic(auto, using(crate::proofs::KindsReadBack::Objects::jsx_fragment_again))]
pub(super) fn jsx_fragment<S: Serializer>(
    out: &mut S,
    children: &List<Place>,
    span: &Option<Span>,
) -> Result<(), S::Error>
    ensures sends { OnOk result
        (Sends (value_data (kinds.JsxFragment children.now span.now)) (S.written out.old) (S.written out.new)) }
    ensures again { OnOk result (IsReadBack (kinds.JsxFragment children.now span.now)) }
{
    NoFields
        .with("children", children)
        .tagged("JsxFragment")
        .with_some("span", span)
        .send(out)
}

#[tactic(auto, using(crate::proofs::KindsReadBack::Objects::property_load_again))]
pub(super) fn property_load<S: Serializer>(
    out: &mut S,
    object: &Place,
    property: &PropertyLiteral,
    span: &Option<Span>,
) -> Result<(), S::Error>
    ensures sends { OnOk result
        (Sends (value_data (kinds.PropertyLoad object.now property.now span.now))
        (S.written out.old) (S.written out.new)) }
    ensures again { OnOk result (IsReadBack (kinds.PropertyLoad object.now property.now span.now)) }
{
    NoFields
        .tagged("PropertyLoad")
        .with("object", object)
        .with("property", property)
        .with_some("span", span)
        .send(out)
}

#[tactic(auto, using(crate::proofs::KindsReadBack::Objects::property_delete_again))]
pub(super) fn property_delete<S: Serializer>(
    out: &mut S,
    object: &Place,
    property: &PropertyLiteral,
    span: &Option<Span>,
) -> Result<(), S::Error>
    ensures sends { OnOk result
        (Sends (value_data (kinds.PropertyDelete object.now property.now span.now))
        (S.written out.old) (S.written out.new)) }
    ensures again { OnOk result (IsReadBack (kinds.PropertyDelete object.now property.now span.now)) }
{
    NoFields
        .tagged("PropertyDelete")
        .with("object", object)
        .with("property", property)
        .with_some("span", span)
        .send(out)
}

#[tactic(auto, using(crate::proofs::KindsReadBack::Objects::property_store_again))]
pub(super) fn property_store<S: Serializer>(
    out: &mut S,
    object: &Place,
    property: &PropertyLiteral,
    value: &Place,
    span: &Option<Span>,
) -> Result<(), S::Error>
    ensures sends { OnOk result
        (Sends (value_data (kinds.PropertyStore object.now property.now value.now span.now))
        (S.written out.old) (S.written out.new)) }
    ensures again { OnOk result (IsReadBack (kinds.PropertyStore object.now property.now value.now span.now)) }
{
    NoFields
        .tagged("PropertyStore")
        .with("object", object)
        .with("property", property)
        .with_some("span", span)
        .with("value", value)
        .send(out)
}

#[tactic(auto, using(crate::proofs::KindsReadBack::Objects::computed_load_again))]
pub(super) fn computed_load<S: Serializer>(
    out: &mut S,
    object: &Place,
    property: &Place,
    span: &Option<Span>,
) -> Result<(), S::Error>
    ensures sends { OnOk result
        (Sends (value_data (kinds.ComputedLoad object.now property.now span.now))
        (S.written out.old) (S.written out.new)) }
    ensures again { OnOk result (IsReadBack (kinds.ComputedLoad object.now property.now span.now)) }
{
    NoFields
        .tagged("ComputedLoad")
        .with("object", object)
        .with("property", property)
        .with_some("span", span)
        .send(out)
}

#[tactic(auto, using(crate::proofs::KindsReadBack::Objects::computed_delete_again))]
pub(super) fn computed_delete<S: Serializer>(
    out: &mut S,
    object: &Place,
    property: &Place,
    span: &Option<Span>,
) -> Result<(), S::Error>
    ensures sends { OnOk result
        (Sends (value_data (kinds.ComputedDelete object.now property.now span.now))
        (S.written out.old) (S.written out.new)) }
    ensures again { OnOk result (IsReadBack (kinds.ComputedDelete object.now property.now span.now)) }
{
    NoFields
        .tagged("ComputedDelete")
        .with("object", object)
        .with("property", property)
        .with_some("span", span)
        .send(out)
}

#[tactic(auto, using(crate::proofs::KindsReadBack::Objects::computed_store_again))]
pub(super) fn computed_store<S: Serializer>(
    out: &mut S,
    object: &Place,
    property: &Place,
    value: &Place,
    span: &Option<Span>,
) -> Result<(), S::Error>
    ensures sends { OnOk result
        (Sends (value_data (kinds.ComputedStore object.now property.now value.now span.now))
        (S.written out.old) (S.written out.new)) }
    ensures again { OnOk result (IsReadBack (kinds.ComputedStore object.now property.now value.now span.now)) }
{
    NoFields
        .tagged("ComputedStore")
        .with("object", object)
        .with("property", property)
        .with_some("span", span)
        .with("value", value)
        .send(out)
}
