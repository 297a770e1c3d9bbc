//! The fields of the kinds that read, declare and write variables.

ghost use Rattle.std.specs.Prelude.{◌≡◌, map, option_map};
ghost use Rattle.rc_misread.specs.Kinds.{value_fields};
ghost use Rattle.rc_misread.specs.Forms.{row_of};

use crate::form::{Field, Form, Need};
use crate::kinds::expressions;

/// The fields of the kind with this name, of this family or of one after it.
pub(crate) fn value_fields(tag: &str) -> Option<&'static [Field]>
    ensures { option_map (λ fields. map row_of fields.now) result ≡ value_fields tag.now }
{
    match tag {
        "LoadLocal" => Some(&[
            Field("place", Need::Required, Form::Place),
            Field("span", Need::Optional, Form::Span),
        ]),
        "LoadContext" => Some(&[
            Field("place", Need::Required, Form::Place),
            Field("span", Need::Optional, Form::Span),
        ]),
        "DeclareLocal" => Some(&[
            Field("lvalue", Need::Required, Form::LValue),
            Field("span", Need::Optional, Form::Span),
        ]),
        "DeclareContext" => Some(&[
            Field("lvalue", Need::Required, Form::LValue),
            Field("span", Need::Optional, Form::Span),
        ]),
        "StoreLocal" => Some(&[
            Field("lvalue", Need::Required, Form::LValue),
            Field("value", Need::Required, Form::Place),
            Field("span", Need::Optional, Form::Span),
        ]),
        "StoreContext" => Some(&[
            Field("lvalue", Need::Required, Form::LValue),
            Field("value", Need::Required, Form::Place),
            Field("span", Need::Optional, Form::Span),
        ]),
        "Destructure" => Some(&[
            Field("lvalue", Need::Required, Form::LValuePattern),
            Field("value", Need::Required, Form::Place),
            Field("span", Need::Optional, Form::Span),
        ]),
        "LoadGlobal" => Some(&[
            Field("binding", Need::Required, Form::Binding),
            Field("span", Need::Optional, Form::Span),
        ]),
        "StoreGlobal" => Some(&[
            Field("name", Need::Required, Form::Text),
            Field("value", Need::Required, Form::Place),
            Field("span", Need::Optional, Form::Span),
        ]),
        "PrefixUpdate" => Some(&[
            Field("lvalue", Need::Required, Form::Place),
            Field("operation", Need::Required, Form::Text),
            Field("value", Need::Required, Form::Place),
            Field("span", Need::Optional, Form::Span),
        ]),
        "PostfixUpdate" => Some(&[
            Field("lvalue", Need::Required, Form::Place),
            Field("operation", Need::Required, Form::Text),
            Field("value", Need::Required, Form::Place),
            Field("span", Need::Optional, Form::Span),
        ]),
        _ => expressions::value_fields(tag),
    }
}
