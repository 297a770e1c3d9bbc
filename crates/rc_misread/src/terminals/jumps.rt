//! The fields of the terminals that jump or end a run, and of the one that may throw.

ghost use Rattle.std.specs.Prelude.{◌≡◌, ◌++◌, map, option_map};
ghost use Rattle.rc_doc.specs.Reading.{named};
ghost use Rattle.rc_misread.specs.Terminals.Jumps.{jump_fields};
ghost use Rattle.rc_misread.specs.Terminals.Blocks.{block_fields};
ghost use Rattle.rc_misread.specs.Forms.{row_of};

use crate::form::{Field, Form, Need};
use crate::terminals::blocks;

/// The fields of the terminal with this name, of this family or of one after it.
pub(super) fn terminal_fields(tag: &str) -> Option<&'static [Field]>
    ensures { option_map (λ fields. map row_of fields.now) result ≡ named (jump_fields ++ block_fields) tag.now }
{
    match tag {
        "Throw" => Some(&[
            Field("value", Need::Required, Form::Place),
            Field("id", Need::Required, Form::Number),
            Field("span", Need::Optional, Form::Span),
        ]),
        "Return" => Some(&[
            Field("value", Need::Required, Form::Place),
            Field("id", Need::Required, Form::Number),
            Field("span", Need::Optional, Form::Span),
        ]),
        "Goto" => Some(&[
            Field("block", Need::Required, Form::Number),
            Field("variant", Need::Required, Form::GotoVariant),
            Field("id", Need::Required, Form::Number),
            Field("span", Need::Optional, Form::Span),
        ]),
        "Unreachable" => Some(&[
            Field("id", Need::Required, Form::Number),
            Field("span", Need::Optional, Form::Span),
        ]),
        "MaybeThrow" => Some(&[
            Field("continuation", Need::Required, Form::Number),
            Field("handler", Need::Optional, Form::Number),
            Field("id", Need::Required, Form::Number),
            Field("span", Need::Optional, Form::Span),
        ]),
        _ => blocks::terminal_fields(tag),
    }
}
