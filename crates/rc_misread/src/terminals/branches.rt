//! The fields of the terminals that choose between blocks.

ghost use Rattle.std.specs.Prelude.{◌≡◌, map, option_map};
ghost use Rattle.rc_misread.specs.Terminals.{terminal_fields};
ghost use Rattle.rc_misread.specs.Forms.{row_of};

use crate::form::{Field, Form, Need};
use crate::terminals::loops;

/// The fields of the terminal with this name, of this family or of one after it.
pub(crate) fn terminal_fields(tag: &str) -> Option<&'static [Field]>
    ensures { option_map (λ fields. map row_of fields.now) result ≡ terminal_fields tag.now }
{
    match tag {
        "If" => Some(&[
            Field("test", Need::Required, Form::Place),
            Field("consequent", Need::Required, Form::Number),
            Field("alternate", Need::Required, Form::Number),
            Field("fallthrough", Need::Required, Form::Number),
            Field("id", Need::Required, Form::Number),
            Field("span", Need::Optional, Form::Span),
        ]),
        "Branch" => Some(&[
            Field("test", Need::Required, Form::Place),
            Field("consequent", Need::Required, Form::Number),
            Field("alternate", Need::Required, Form::Number),
            Field("id", Need::Required, Form::Number),
            Field("span", Need::Optional, Form::Span),
        ]),
        "Logical" => Some(&[
            Field("operator", Need::Required, Form::LogicalOperator),
            Field("test", Need::Required, Form::Number),
            Field("fallthrough", Need::Required, Form::Number),
            Field("id", Need::Required, Form::Number),
            Field("span", Need::Optional, Form::Span),
        ]),
        "Ternary" => Some(&[
            Field("test", Need::Required, Form::Number),
            Field("fallthrough", Need::Required, Form::Number),
            Field("id", Need::Required, Form::Number),
            Field("span", Need::Optional, Form::Span),
        ]),
        "Optional" => Some(&[
            Field("optional", Need::Flag, Form::Flag),
            Field("test", Need::Required, Form::Number),
            Field("fallthrough", Need::Required, Form::Number),
            Field("id", Need::Required, Form::Number),
            Field("span", Need::Optional, Form::Span),
        ]),
        "Switch" => Some(&[
            Field("test", Need::Required, Form::Place),
            Field("cases", Need::List, Form::Case),
            Field("fallthrough", Need::Required, Form::Number),
            Field("id", Need::Required, Form::Number),
            Field("span", Need::Optional, Form::Span),
        ]),
        _ => loops::terminal_fields(tag),
    }
}
