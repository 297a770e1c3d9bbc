//! The fields of the terminals that hold a block.

ghost use Rattle.std.specs.Prelude.{◌≡◌, map, option_map};
ghost use Rattle.rc_doc.specs.Reading.{named};
ghost use Rattle.rc_misread.specs.Terminals.Blocks.{block_fields};
ghost use Rattle.rc_misread.specs.Forms.{row_of};

use crate::form::{Field, Form, Need};

/// The fields of the terminal of this family with this name.
pub(super) fn terminal_fields(tag: &str) -> Option<&'static [Field]>
    ensures { option_map (λ fields. map row_of fields.now) result ≡ named block_fields tag.now }
{
    match tag {
        "Sequence" => Some(&[
            Field("block", Need::Required, Form::Number),
            Field("fallthrough", Need::Required, Form::Number),
            Field("id", Need::Required, Form::Number),
            Field("span", Need::Optional, Form::Span),
        ]),
        "Label" => Some(&[
            Field("block", Need::Required, Form::Number),
            Field("fallthrough", Need::Required, Form::Number),
            Field("id", Need::Required, Form::Number),
            Field("span", Need::Optional, Form::Span),
        ]),
        "Scope" => Some(&[
            Field("fallthrough", Need::Required, Form::Number),
            Field("block", Need::Required, Form::Number),
            Field("scope", Need::Required, Form::Number),
            Field("id", Need::Required, Form::Number),
            Field("span", Need::Optional, Form::Span),
        ]),
        "PrunedScope" => Some(&[
            Field("fallthrough", Need::Required, Form::Number),
            Field("block", Need::Required, Form::Number),
            Field("scope", Need::Required, Form::Number),
            Field("id", Need::Required, Form::Number),
            Field("span", Need::Optional, Form::Span),
        ]),
        "Try" => Some(&[
            Field("block", Need::Required, Form::Number),
            Field("handler_binding", Need::Optional, Form::Place),
            Field("handler", Need::Required, Form::Number),
            Field("fallthrough", Need::Required, Form::Number),
            Field("id", Need::Required, Form::Number),
            Field("span", Need::Optional, Form::Span),
        ]),
        _ => None,
    }
}
