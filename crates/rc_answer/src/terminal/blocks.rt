//! The printing form of terminals that open a block.

ghost use Rattle.std.specs.Prelude.{OnOk};
ghost use Rattle.rc_hir.specs.declared.terminal.Terminal.TheVariants as terminals;
ghost use Rattle.rc_show.specs.Sending.{Sends};
ghost use Rattle.rc_flat.specs.ShownGraph.{terminal_data};
ghost use Rattle.rc_answer.specs.inside.Terminals.{IsTerminalAgain};

use rc_hir::Place;
use rc_names::{BlockId, EvaluationOrder, ScopeId, Span};
use rc_show::{Fields, NoFields};
use serde::Serializer;

#[tactic(auto, using(crate::proofs::Cited::terminal_again), unfolding(crate::specs::inside::Cited::terminal_data))]
pub(super) fn sequence_terminal<S: Serializer>(
    out: &mut S,
    block: &BlockId,
    fallthrough: &BlockId,
    id: &EvaluationOrder,
    span: &Option<Span>,
) -> Result<(), S::Error>
    ensures sends { OnOk result
        (Sends (terminal_data (terminals.Sequence block.now fallthrough.now id.now span.now))
        (S.written out.old) (S.written out.new)) }
    ensures again { OnOk result
        (IsTerminalAgain (terminals.Sequence block.now fallthrough.now id.now span.now)) }
{
    NoFields
        .with("block", block)
        .with("fallthrough", fallthrough)
        .with("id", id)
        .tagged("Sequence")
        .with_some("span", span)
        .send(out)
}

#[tactic(auto, using(crate::proofs::Cited::terminal_again), unfolding(crate::specs::inside::Cited::terminal_data))]
pub(super) fn label_terminal<S: Serializer>(
    out: &mut S,
    block: &BlockId,
    fallthrough: &BlockId,
    id: &EvaluationOrder,
    span: &Option<Span>,
) -> Result<(), S::Error>
    ensures sends { OnOk result
        (Sends (terminal_data (terminals.Label block.now fallthrough.now id.now span.now))
        (S.written out.old) (S.written out.new)) }
    ensures again { OnOk result
        (IsTerminalAgain (terminals.Label block.now fallthrough.now id.now span.now)) }
{
    NoFields
        .with("block", block)
        .with("fallthrough", fallthrough)
        .with("id", id)
        .tagged("Label")
        .with_some("span", span)
        .send(out)
}

#[tactic(auto, using(crate::proofs::Cited::terminal_again), unfolding(crate::specs::inside::Cited::terminal_data))]
pub(super) fn scope_terminal<S: Serializer>(
    out: &mut S,
    fallthrough: &BlockId,
    block: &BlockId,
    scope: &ScopeId,
    id: &EvaluationOrder,
    span: &Option<Span>,
) -> Result<(), S::Error>
    ensures sends { OnOk result
        (Sends (terminal_data (terminals.Scope fallthrough.now block.now scope.now id.now span.now))
        (S.written out.old) (S.written out.new)) }
    ensures again { OnOk result
        (IsTerminalAgain (terminals.Scope fallthrough.now block.now scope.now id.now span.now)) }
{
    NoFields
        .with("block", block)
        .with("fallthrough", fallthrough)
        .with("id", id)
        .tagged("Scope")
        .with("scope", scope)
        .with_some("span", span)
        .send(out)
}

#[tactic(auto, using(crate::proofs::Cited::terminal_again), unfolding(crate::specs::inside::Cited::terminal_data))]
pub(super) fn pruned_scope_terminal<S: Serializer>(
    out: &mut S,
    fallthrough: &BlockId,
    block: &BlockId,
    scope: &ScopeId,
    id: &EvaluationOrder,
    span: &Option<Span>,
) -> Result<(), S::Error>
    ensures sends { OnOk result
        (Sends (terminal_data (terminals.PrunedScope fallthrough.now block.now scope.now id.now span.now))
        (S.written out.old) (S.written out.new)) }
    ensures again { OnOk result
        (IsTerminalAgain (terminals.PrunedScope fallthrough.now block.now scope.now id.now span.now)) }
{
    NoFields
        .with("block", block)
        .with("fallthrough", fallthrough)
        .with("id", id)
        .tagged("PrunedScope")
        .with("scope", scope)
        .with_some("span", span)
        .send(out)
}

#[tactic(auto, using(crate::proofs::Cited::terminal_again), unfolding(crate::specs::inside::Cited::terminal_data))]
pub(super) fn try_terminal<S: Serializer>(
    out: &mut S,
    block: &BlockId,
    handler_binding: &Option<Place>,
    handler: &BlockId,
    fallthrough: &BlockId,
    id: &EvaluationOrder,
    span: &Option<Span>,
) -> Result<(), S::Error>
    ensures sends { OnOk result
        (Sends (terminal_data (terminals.Try block.now handler_binding.now handler.now fallthrough.now id.now span.now))
        (S.written out.old) (S.written out.new)) }
    ensures again { OnOk result
        (IsTerminalAgain (terminals.Try block.now handler_binding.now handler.now fallthrough.now id.now span.now)) }
{
    NoFields
        .with("block", block)
        .with("fallthrough", fallthrough)
        .with("handler", handler)
        .with_some("handler_binding", handler_binding)
        .with("id", id)
        .tagged("Try")
        .with_some("span", span)
        .send(out)
}
