//! The fields of the loops.

ghost use Rattle.std.specs.Prelude.{◌≡◌, ◌++◌, map, option_map};
ghost use Rattle.rc_doc.specs.Reading.{named};
ghost use Rattle.rc_misread.specs.Terminals.Loops.{loop_fields};
ghost use Rattle.rc_misread.specs.Terminals.Jumps.{jump_fields};
ghost use Rattle.rc_misread.specs.Terminals.Blocks.{block_fields};
ghost use Rattle.rc_misread.specs.Forms.{row_of};

use crate::form::{Field, Form, Need};
use crate::terminals::jumps;

/// The fields of the terminal with this name, of this family or of one after it.
pub(super) fn terminal_fields(tag: &str) -> Option<&'static [Field]>
    ensures { option_map (λ fields. map row_of fields.now) result ≡ named (loop_fields ++ jump_fields ++ block_fields) tag.now }
{
    match tag {
        "DoWhile" => Some(&[
            Field("loop_block", Need::Required, Form::Number),
            Field("test", Need::Required, Form::Number),
            Field("fallthrough", Need::Required, Form::Number),
            Field("id", Need::Required, Form::Number),
            Field("span", Need::Optional, Form::Span),
        ]),
        "While" => Some(&[
            Field("test", Need::Required, Form::Number),
            Field("loop_block", Need::Required, Form::Number),
            Field("fallthrough", Need::Required, Form::Number),
            Field("id", Need::Required, Form::Number),
            Field("span", Need::Optional, Form::Span),
        ]),
        "For" => Some(&[
            Field("init", Need::Required, Form::Number),
            Field("test", Need::Required, Form::Number),
            Field("update", Need::Optional, Form::Number),
            Field("loop_block", Need::Required, Form::Number),
            Field("fallthrough", Need::Required, Form::Number),
            Field("id", Need::Required, Form::Number),
            Field("span", Need::Optional, Form::Span),
        ]),
        "ForOf" => Some(&[
            Field("init", Need::Required, Form::Number),
            Field("test", Need::Required, Form::Number),
            Field("loop_block", Need::Required, Form::Number),
            Field("fallthrough", Need::Required, Form::Number),
            Field("id", Need::Required, Form::Number),
            Field("span", Need::Optional, Form::Span),
        ]),
        "ForIn" => Some(&[
            Field("init", Need::Required, Form::Number),
            Field("loop_block", Need::Required, Form::Number),
            Field("fallthrough", Need::Required, Form::Number),
            Field("id", Need::Required, Form::Number),
            Field("span", Need::Optional, Form::Span),
        ]),
        _ => jumps::terminal_fields(tag),
    }
}
