//! The printing form of terminals that leave a block for good, or jump.

ghost use Rattle.std.specs.Prelude.{OnOk};
ghost use Rattle.rc_hir.specs.declared.terminal.Terminal.TheVariants as terminals;
ghost use Rattle.rc_show.specs.Sending.{Sends};
ghost use Rattle.rc_flat.specs.ShownGraph.{terminal_data};
ghost use Rattle.rc_answer.specs.inside.Terminals.{IsTerminalAgain};

use crate::parts::PartFields;
use rc_hir::{GotoVariant, Place};
use rc_names::{BlockId, EvaluationOrder, Span};
use rc_show::{Fields, NoFields};
use serde::Serializer;

#[tactic(auto, using(crate::proofs::Cited::terminal_again), unfolding(crate::specs::inside::Cited::terminal_data))]
pub(super) fn throw_terminal<S: Serializer>(
    out: &mut S,
    value: &Place,
    id: &EvaluationOrder,
    span: &Option<Span>,
) -> Result<(), S::Error>
    ensures sends { OnOk result
        (Sends (terminal_data (terminals.Throw value.now id.now span.now))
        (S.written out.old) (S.written out.new)) }
    ensures again { OnOk result
        (IsTerminalAgain (terminals.Throw value.now id.now span.now)) }
{
    NoFields
        .with("id", id)
        .tagged("Throw")
        .with_some("span", span)
        .with("value", value)
        .send(out)
}

#[tactic(auto, using(crate::proofs::Cited::terminal_again), unfolding(crate::specs::inside::Cited::terminal_data))]
pub(super) fn return_terminal<S: Serializer>(
    out: &mut S,
    value: &Place,
    id: &EvaluationOrder,
    span: &Option<Span>,
) -> Result<(), S::Error>
    ensures sends { OnOk result
        (Sends (terminal_data (terminals.Return value.now id.now span.now))
        (S.written out.old) (S.written out.new)) }
    ensures again { OnOk result
        (IsTerminalAgain (terminals.Return value.now id.now span.now)) }
{
    NoFields
        .with("id", id)
        .tagged("Return")
        .with_some("span", span)
        .with("value", value)
        .send(out)
}

#[tactic(auto, using(crate::proofs::Cited::terminal_again), unfolding(crate::specs::inside::Cited::terminal_data))]
pub(super) fn goto_terminal<S: Serializer>(
    out: &mut S,
    block: &BlockId,
    variant: &GotoVariant,
    id: &EvaluationOrder,
    span: &Option<Span>,
) -> Result<(), S::Error>
    ensures sends { OnOk result
        (Sends (terminal_data (terminals.Goto block.now variant.now id.now span.now))
        (S.written out.old) (S.written out.new)) }
    ensures again { OnOk result
        (IsTerminalAgain (terminals.Goto block.now variant.now id.now span.now)) }
{
    NoFields
        .with("block", block)
        .with("id", id)
        .tagged("Goto")
        .with_some("span", span)
        .with_part("variant", variant)
        .send(out)
}

#[tactic(auto, using(crate::proofs::Cited::terminal_again), unfolding(crate::specs::inside::Cited::terminal_data))]
pub(super) fn unreachable_terminal<S: Serializer>(
    out: &mut S,
    id: &EvaluationOrder,
    span: &Option<Span>,
) -> Result<(), S::Error>
    ensures sends { OnOk result
        (Sends (terminal_data (terminals.Unreachable id.now span.now))
        (S.written out.old) (S.written out.new)) }
    ensures again { OnOk result
        (IsTerminalAgain (terminals.Unreachable id.now span.now)) }
{
    NoFields
        .with("id", id)
        .tagged("Unreachable")
        .with_some("span", span)
        .send(out)
}

#[tactic(auto, using(crate::proofs::Cited::terminal_again), unfolding(crate::specs::inside::Cited::terminal_data))]
pub(super) fn maybe_throw_terminal<S: Serializer>(
    out: &mut S,
    continuation: &BlockId,
    handler: &Option<BlockId>,
    id: &EvaluationOrder,
    span: &Option<Span>,
) -> Result<(), S::Error>
    ensures sends { OnOk result
        (Sends (terminal_data (terminals.MaybeThrow continuation.now handler.now id.now span.now))
        (S.written out.old) (S.written out.new)) }
    ensures again { OnOk result
        (IsTerminalAgain (terminals.MaybeThrow continuation.now handler.now id.now span.now)) }
{
    NoFields
        .with("continuation", continuation)
        .with_some("handler", handler)
        .with("id", id)
        .tagged("MaybeThrow")
        .with_some("span", span)
        .send(out)
}
