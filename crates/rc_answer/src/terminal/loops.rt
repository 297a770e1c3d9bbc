//! The printing form of terminals of loops.

ghost use Rattle.std.specs.Prelude.{OnOk};
ghost use Rattle.rc_hir.specs.declared.terminal.Terminal.TheVariants as terminals;
ghost use Rattle.rc_show.specs.Sending.{Sends};
ghost use Rattle.rc_flat.specs.ShownGraph.{terminal_data};
ghost use Rattle.rc_answer.specs.inside.Terminals.{IsTerminalAgain};

use rc_names::{BlockId, EvaluationOrder, Span};
use rc_show::{Fields, NoFields};
use serde::Serializer;

#[tactic(auto, using(crate::proofs::Cited::terminal_again), unfolding(crate::specs::inside::Cited::terminal_data))]
pub(super) fn do_while_terminal<S: Serializer>(
    out: &mut S,
    loop_block: &BlockId,
    test: &BlockId,
    fallthrough: &BlockId,
    id: &EvaluationOrder,
    span: &Option<Span>,
) -> Result<(), S::Error>
    ensures sends { OnOk result
        (Sends (terminal_data (terminals.DoWhile loop_block.now test.now fallthrough.now id.now span.now))
        (S.written out.old) (S.written out.new)) }
    ensures again { OnOk result
        (IsTerminalAgain (terminals.DoWhile loop_block.now test.now fallthrough.now id.now span.now)) }
{
    NoFields
        .with("fallthrough", fallthrough)
        .with("id", id)
        .tagged("DoWhile")
        .with("loop_block", loop_block)
        .with_some("span", span)
        .with("test", test)
        .send(out)
}

#[tactic(auto, using(crate::proofs::Cited::terminal_again), unfolding(crate::specs::inside::Cited::terminal_data))]
pub(super) fn while_terminal<S: Serializer>(
    out: &mut S,
    test: &BlockId,
    loop_block: &BlockId,
    fallthrough: &BlockId,
    id: &EvaluationOrder,
    span: &Option<Span>,
) -> Result<(), S::Error>
    ensures sends { OnOk result
        (Sends (terminal_data (terminals.While test.now loop_block.now fallthrough.now id.now span.now))
        (S.written out.old) (S.written out.new)) }
    ensures again { OnOk result
        (IsTerminalAgain (terminals.While test.now loop_block.now fallthrough.now id.now span.now)) }
{
    NoFields
        .with("fallthrough", fallthrough)
        .with("id", id)
        .tagged("While")
        .with("loop_block", loop_block)
        .with_some("span", span)
        .with("test", test)
        .send(out)
}

#[tactic(auto, using(crate::proofs::Cited::terminal_again), unfolding(crate::specs::inside::Cited::terminal_data))]
pub(super) fn for_terminal<S: Serializer>(
    out: &mut S,
    init: &BlockId,
    test: &BlockId,
    update: &Option<BlockId>,
    loop_block: &BlockId,
    fallthrough: &BlockId,
    id: &EvaluationOrder,
    span: &Option<Span>,
) -> Result<(), S::Error>
    ensures sends { OnOk result
        (Sends (terminal_data (terminals.For init.now test.now update.now loop_block.now fallthrough.now id.now span.now))
        (S.written out.old) (S.written out.new)) }
    ensures again { OnOk result
        (IsTerminalAgain (terminals.For init.now test.now update.now loop_block.now fallthrough.now id.now span.now)) }
{
    NoFields
        .with("fallthrough", fallthrough)
        .with("id", id)
        .with("init", init)
        .tagged("For")
        .with("loop_block", loop_block)
        .with_some("span", span)
        .with("test", test)
        .with_some("update", update)
        .send(out)
}

#[tactic(auto, using(crate::proofs::Cited::terminal_again), unfolding(crate::specs::inside::Cited::terminal_data))]
pub(super) fn for_of_terminal<S: Serializer>(
    out: &mut S,
    init: &BlockId,
    test: &BlockId,
    loop_block: &BlockId,
    fallthrough: &BlockId,
    id: &EvaluationOrder,
    span: &Option<Span>,
) -> Result<(), S::Error>
    ensures sends { OnOk result
        (Sends (terminal_data (terminals.ForOf init.now test.now loop_block.now fallthrough.now id.now span.now))
        (S.written out.old) (S.written out.new)) }
    ensures again { OnOk result
        (IsTerminalAgain (terminals.ForOf init.now test.now loop_block.now fallthrough.now id.now span.now)) }
{
    NoFields
        .with("fallthrough", fallthrough)
        .with("id", id)
        .with("init", init)
        .tagged("ForOf")
        .with("loop_block", loop_block)
        .with_some("span", span)
        .with("test", test)
        .send(out)
}

#[tactic(auto, using(crate::proofs::Cited::terminal_again), unfolding(crate::specs::inside::Cited::terminal_data))]
pub(super) fn for_in_terminal<S: Serializer>(
    out: &mut S,
    init: &BlockId,
    loop_block: &BlockId,
    fallthrough: &BlockId,
    id: &EvaluationOrder,
    span: &Option<Span>,
) -> Result<(), S::Error>
    ensures sends { OnOk result
        (Sends (terminal_data (terminals.ForIn init.now loop_block.now fallthrough.now id.now span.now))
        (S.written out.old) (S.written out.new)) }
    ensures again { OnOk result
        (IsTerminalAgain (terminals.ForIn init.now loop_block.now fallthrough.now id.now span.now)) }
{
    NoFields
        .with("fallthrough", fallthrough)
        .with("id", id)
        .with("init", init)
        .tagged("ForIn")
        .with("loop_block", loop_block)
        .with_some("span", span)
        .send(out)
}
