//! The printing form of terminals that choose where to go on.

ghost use Rattle.std.specs.Prelude.{OnOk};
ghost use Rattle.rc_hir.specs.declared.terminal.Terminal.TheVariants as terminals;
ghost use Rattle.rc_show.specs.Sending.{Sends};
ghost use Rattle.rc_flat.specs.ShownGraph.{terminal_data};
ghost use Rattle.rc_answer.specs.inside.Terminals.{IsTerminalAgain};

use crate::parts::PartFields;
use rc_hir::{Case, LogicalOperator, Place};
use rc_names::{BlockId, EvaluationOrder, List, Span};
use rc_show::{Fields, NoFields};
use serde::Serializer;

#[tactic(auto, using(crate::proofs::Cited::terminal_again), unfolding(crate::specs::inside::Cited::terminal_data))]
pub(super) fn if_terminal<S: Serializer>(
    out: &mut S,
    test: &Place,
    consequent: &BlockId,
    alternate: &BlockId,
    fallthrough: &BlockId,
    id: &EvaluationOrder,
    span: &Option<Span>,
) -> Result<(), S::Error>
    ensures sends { OnOk result
        (Sends (terminal_data (terminals.If test.now consequent.now alternate.now fallthrough.now id.now span.now))
        (S.written out.old) (S.written out.new)) }
    ensures again { OnOk result
        (IsTerminalAgain (terminals.If test.now consequent.now alternate.now fallthrough.now id.now span.now)) }
{
    NoFields
        .with("alternate", alternate)
        .with("consequent", consequent)
        .with("fallthrough", fallthrough)
        .with("id", id)
        .tagged("If")
        .with_some("span", span)
        .with("test", test)
        .send(out)
}

#[tactic(auto, using(crate::proofs::Cited::terminal_again), unfolding(crate::specs::inside::Cited::terminal_data))]
pub(super) fn branch_terminal<S: Serializer>(
    out: &mut S,
    test: &Place,
    consequent: &BlockId,
    alternate: &BlockId,
    id: &EvaluationOrder,
    span: &Option<Span>,
) -> Result<(), S::Error>
    ensures sends { OnOk result
        (Sends (terminal_data (terminals.Branch test.now consequent.now alternate.now id.now span.now))
        (S.written out.old) (S.written out.new)) }
    ensures again { OnOk result
        (IsTerminalAgain (terminals.Branch test.now consequent.now alternate.now id.now span.now)) }
{
    NoFields
        .with("alternate", alternate)
        .with("consequent", consequent)
        .with("id", id)
        .tagged("Branch")
        .with_some("span", span)
        .with("test", test)
        .send(out)
}

#[tactic(auto, using(crate::proofs::Cited::terminal_again), unfolding(crate::specs::inside::Cited::terminal_data))]
pub(super) fn logical_terminal<S: Serializer>(
    out: &mut S,
    operator: &LogicalOperator,
    test: &BlockId,
    fallthrough: &BlockId,
    id: &EvaluationOrder,
    span: &Option<Span>,
) -> Result<(), S::Error>
    ensures sends { OnOk result
        (Sends (terminal_data (terminals.Logical operator.now test.now fallthrough.now id.now span.now))
        (S.written out.old) (S.written out.new)) }
    ensures again { OnOk result
        (IsTerminalAgain (terminals.Logical operator.now test.now fallthrough.now id.now span.now)) }
{
    NoFields
        .with("fallthrough", fallthrough)
        .with("id", id)
        .tagged("Logical")
        .with_part("operator", operator)
        .with_some("span", span)
        .with("test", test)
        .send(out)
}

#[tactic(auto, using(crate::proofs::Cited::terminal_again), unfolding(crate::specs::inside::Cited::terminal_data))]
pub(super) fn ternary_terminal<S: Serializer>(
    out: &mut S,
    test: &BlockId,
    fallthrough: &BlockId,
    id: &EvaluationOrder,
    span: &Option<Span>,
) -> Result<(), S::Error>
    ensures sends { OnOk result
        (Sends (terminal_data (terminals.Ternary test.now fallthrough.now id.now span.now))
        (S.written out.old) (S.written out.new)) }
    ensures again { OnOk result
        (IsTerminalAgain (terminals.Ternary test.now fallthrough.now id.now span.now)) }
{
    NoFields
        .with("fallthrough", fallthrough)
        .with("id", id)
        .tagged("Ternary")
        .with_some("span", span)
        .with("test", test)
        .send(out)
}

#[tactic(auto, using(crate::proofs::Cited::terminal_again), unfolding(crate::specs::inside::Cited::terminal_data))]
pub(super) fn optional_terminal<S: Serializer>(
    out: &mut S,
    optional: &bool,
    test: &BlockId,
    fallthrough: &BlockId,
    id: &EvaluationOrder,
    span: &Option<Span>,
) -> Result<(), S::Error>
    ensures sends { OnOk result
        (Sends (terminal_data (terminals.Optional optional.now test.now fallthrough.now id.now span.now))
        (S.written out.old) (S.written out.new)) }
    ensures again { OnOk result
        (IsTerminalAgain (terminals.Optional optional.now test.now fallthrough.now id.now span.now)) }
{
    NoFields
        .with("fallthrough", fallthrough)
        .with("id", id)
        .tagged("Optional")
        .with("optional", optional)
        .with_some("span", span)
        .with("test", test)
        .send(out)
}

#[tactic(auto, using(crate::proofs::Cited::terminal_again), unfolding(crate::specs::inside::Cited::terminal_data))]
pub(super) fn switch_terminal<S: Serializer>(
    out: &mut S,
    test: &Place,
    cases: &List<Case>,
    fallthrough: &BlockId,
    id: &EvaluationOrder,
    span: &Option<Span>,
) -> Result<(), S::Error>
    ensures sends { OnOk result
        (Sends (terminal_data (terminals.Switch test.now cases.now fallthrough.now id.now span.now))
        (S.written out.old) (S.written out.new)) }
    ensures again { OnOk result
        (IsTerminalAgain (terminals.Switch test.now cases.now fallthrough.now id.now span.now)) }
{
    NoFields
        .with_part("cases", cases)
        .with("fallthrough", fallthrough)
        .with("id", id)
        .tagged("Switch")
        .with_some("span", span)
        .with("test", test)
        .send(out)
}
