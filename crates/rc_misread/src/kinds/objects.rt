//! The fields of the kinds that make objects, arrays and JSX, and that reach into them.

ghost use Rattle.std.specs.Prelude.{◌≡◌, map, option_map};
ghost use Rattle.rc_doc.specs.Reading.{named};
ghost use Rattle.rc_misread.specs.Kinds.Objects.{object_fields};
ghost use Rattle.rc_misread.specs.Forms.{row_of};

use crate::form::{Field, Form, Need};

/// The fields of the kind of this family with this name.
pub(super) fn value_fields(tag: &str) -> Option<&'static [Field]>
    ensures { option_map (λ fields. map row_of fields.now) result ≡ named object_fields tag.now }
{
    match tag {
        "ObjectExpression" => Some(&[
            Field("properties", Need::List, Form::Property),
            Field("span", Need::Optional, Form::Span),
        ]),
        "ArrayExpression" => Some(&[
            Field("elements", Need::List, Form::Element),
            Field("span", Need::Optional, Form::Span),
        ]),
        "JsxExpression" => Some(&[
            Field("tag", Need::Required, Form::JsxTag),
            Field("props", Need::List, Form::JsxAttribute),
            Field("children", Need::OptionalList, Form::Place),
            Field("span", Need::Optional, Form::Span),
        ]),
        "JsxFragment" => Some(&[
            Field("children", Need::List, Form::Place),
            Field("span", Need::Optional, Form::Span),
        ]),
        "PropertyLoad" => Some(&[
            Field("object", Need::Required, Form::Place),
            Field("property", Need::Required, Form::PropertyLiteral),
            Field("span", Need::Optional, Form::Span),
        ]),
        "PropertyDelete" => Some(&[
            Field("object", Need::Required, Form::Place),
            Field("property", Need::Required, Form::PropertyLiteral),
            Field("span", Need::Optional, Form::Span),
        ]),
        "PropertyStore" => Some(&[
            Field("object", Need::Required, Form::Place),
            Field("property", Need::Required, Form::PropertyLiteral),
            Field("value", Need::Required, Form::Place),
            Field("span", Need::Optional, Form::Span),
        ]),
        "ComputedLoad" => Some(&[
            Field("object", Need::Required, Form::Place),
            Field("property", Need::Required, Form::Place),
            Field("span", Need::Optional, Form::Span),
        ]),
        "ComputedDelete" => Some(&[
            Field("object", Need::Required, Form::Place),
            Field("property", Need::Required, Form::Place),
            Field("span", Need::Optional, Form::Span),
        ]),
        "ComputedStore" => Some(&[
            Field("object", Need::Required, Form::Place),
            Field("property", Need::Required, Form::Place),
            Field("value", Need::Required, Form::Place),
            Field("span", Need::Optional, Form::Span),
        ]),
        _ => None,
    }
}
