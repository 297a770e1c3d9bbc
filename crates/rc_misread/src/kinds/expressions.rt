//! The fields of the kinds that compute a value from texts and operands.

ghost use Rattle.std.specs.Prelude.{◌≡◌, ◌++◌, map, option_map};
ghost use Rattle.rc_doc.specs.Reading.{named};
ghost use Rattle.rc_misread.specs.Kinds.Expressions.{expression_fields};
ghost use Rattle.rc_misread.specs.Kinds.Calls.{call_fields};
ghost use Rattle.rc_misread.specs.Kinds.Objects.{object_fields};
ghost use Rattle.rc_misread.specs.Forms.{row_of};

use crate::form::{Field, Form, Need};
use crate::kinds::calls;

/// The fields of the kind with this name, of this family or of one after it.
pub(super) fn value_fields(tag: &str) -> Option<&'static [Field]>
    ensures { option_map (λ fields. map row_of fields.now) result ≡ named (expression_fields ++ call_fields ++ object_fields) tag.now }
{
    match tag {
        "Primitive" => Some(&[
            Field("value", Need::Required, Form::PrimitiveValue),
            Field("span", Need::Optional, Form::Span),
        ]),
        "JSXText" => Some(&[
            Field("value", Need::Required, Form::Text),
            Field("span", Need::Optional, Form::Span),
        ]),
        "BinaryExpression" => Some(&[
            Field("operator", Need::Required, Form::Text),
            Field("left", Need::Required, Form::Place),
            Field("right", Need::Required, Form::Place),
            Field("span", Need::Optional, Form::Span),
        ]),
        "UnaryExpression" => Some(&[
            Field("operator", Need::Required, Form::Text),
            Field("value", Need::Required, Form::Place),
            Field("span", Need::Optional, Form::Span),
        ]),
        "TypeCastExpression" => Some(&[
            Field("value", Need::Required, Form::Place),
            Field("annotation", Need::Required, Form::Text),
            Field("span", Need::Optional, Form::Span),
        ]),
        "Await" => Some(&[
            Field("value", Need::Required, Form::Place),
            Field("span", Need::Optional, Form::Span),
        ]),
        "RegExpLiteral" => Some(&[
            Field("pattern", Need::Required, Form::Text),
            Field("flags", Need::Required, Form::Text),
            Field("span", Need::Optional, Form::Span),
        ]),
        "MetaProperty" => Some(&[
            Field("meta", Need::Required, Form::Text),
            Field("property", Need::Required, Form::Text),
            Field("span", Need::Optional, Form::Span),
        ]),
        "TaggedTemplateExpression" => Some(&[
            Field("tag", Need::Required, Form::Place),
            Field("quasi", Need::Required, Form::Text),
            Field("span", Need::Optional, Form::Span),
        ]),
        "TemplateLiteral" => Some(&[
            Field("subexprs", Need::List, Form::Place),
            Field("quasis", Need::List, Form::Text),
            Field("span", Need::Optional, Form::Span),
        ]),
        "GetIterator" => Some(&[
            Field("collection", Need::Required, Form::Place),
            Field("span", Need::Optional, Form::Span),
        ]),
        "IteratorNext" => Some(&[
            Field("iterator", Need::Required, Form::Place),
            Field("collection", Need::Required, Form::Place),
            Field("span", Need::Optional, Form::Span),
        ]),
        "NextPropertyOf" => Some(&[
            Field("value", Need::Required, Form::Place),
            Field("span", Need::Optional, Form::Span),
        ]),
        _ => calls::value_fields(tag),
    }
}
