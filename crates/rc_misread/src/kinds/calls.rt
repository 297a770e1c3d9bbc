//! The fields of the kinds that call, that make functions, and that mark a place in the source.

ghost use Rattle.std.specs.Prelude.{◌≡◌, ◌++◌, map, option_map};
ghost use Rattle.rc_doc.specs.Reading.{named};
ghost use Rattle.rc_misread.specs.Kinds.Calls.{call_fields};
ghost use Rattle.rc_misread.specs.Kinds.Objects.{object_fields};
ghost use Rattle.rc_misread.specs.Forms.{row_of};

use crate::form::{Field, Form, Need};
use crate::kinds::objects;

/// The fields of the kind with this name, of this family or of one after it.
pub(super) fn value_fields(tag: &str) -> Option<&'static [Field]>
    ensures { option_map (λ fields. map row_of fields.now) result ≡ named (call_fields ++ object_fields) tag.now }
{
    match tag {
        "NewExpression" => Some(&[
            Field("callee", Need::Required, Form::Place),
            Field("args", Need::List, Form::Argument),
            Field("span", Need::Optional, Form::Span),
        ]),
        "CallExpression" => Some(&[
            Field("callee", Need::Required, Form::Place),
            Field("args", Need::List, Form::Argument),
            Field("span", Need::Optional, Form::Span),
        ]),
        "MethodCall" => Some(&[
            Field("receiver", Need::Required, Form::Place),
            Field("property", Need::Required, Form::Place),
            Field("args", Need::List, Form::Argument),
            Field("span", Need::Optional, Form::Span),
        ]),
        "ObjectMethod" => Some(&[
            Field("lowered_func", Need::Required, Form::LoweredFunction),
            Field("span", Need::Optional, Form::Span),
        ]),
        "FunctionExpression" => Some(&[
            Field("name", Need::Optional, Form::Text),
            Field("lowered_func", Need::Required, Form::LoweredFunction),
            Field("span", Need::Optional, Form::Span),
        ]),
        "Debugger" => Some(&[Field("span", Need::Optional, Form::Span)]),
        "StartMemoize" => Some(&[
            Field("manual_memo_id", Need::Required, Form::Number),
            Field("deps", Need::List, Form::Place),
            Field("span", Need::Optional, Form::Span),
        ]),
        "FinishMemoize" => Some(&[
            Field("manual_memo_id", Need::Required, Form::Number),
            Field("decl", Need::Required, Form::Place),
            Field("pruned", Need::Flag, Form::Flag),
            Field("span", Need::Optional, Form::Span),
        ]),
        _ => objects::value_fields(tag),
    }
}
