//! Terminals of the table of blocks. A block is named by its number.

ghost use Rattle.std.specs.Prelude.{◌≡◌};
ghost use Rattle.rc_flat.specs.ReadingFlat.Terminals.{flat_case_of, flat_terminal_of, target_kind_of};
ghost use Rattle.rc_flat.specs.ShownFlat.{flat_case_data, flat_terminal_data, target_kind_data};
ghost use Rattle.rc_answer.specs.inside.TerminalViews.{terminal_seen};
ghost use Rattle.rc_answer.specs.NotNull.{no_null_flat_terminal};

use crate::parts::{Part, PartFields};
use crate::view::value::ValueView;
use rc_flat::FlatSwitchCase;
use rc_hir::Place;
use rc_names::{BlockId, EvaluationOrder, List, Span};
use rc_show::{Fields, NoFields, Show};
use rc_tree::ReactiveTerminalTargetKind;
use serde::Serializer;
use std::marker::Model;

impl Part for ReactiveTerminalTargetKind {
    ghost reads = { target_kind_of };

    ghost shows = { target_kind_data };

    #[tactic(auto, using(crate::proofs::Cited::target_kind_again, crate::proofs::Cited::text_sent), unfolding(crate::specs::inside::Cited::target_kind_data))]
    fn send<S: Serializer>(&self, out: &mut S) -> Result<(), S::Error> {
        match self {
            ReactiveTerminalTargetKind::Implicit => out.str("Implicit"),
            ReactiveTerminalTargetKind::Labeled => out.str("Labeled"),
            ReactiveTerminalTargetKind::Unlabeled => out.str("Unlabeled"),
        }
    }
}

impl Part for FlatSwitchCase {
    ghost reads = { flat_case_of };

    ghost shows = { flat_case_data };

    #[tactic(auto, using(crate::proofs::Cited::flat_case_again), unfolding(crate::specs::inside::Cited::flat_case_data))]
    fn send<S: Serializer>(&self, out: &mut S) -> Result<(), S::Error> {
        NoFields
            .with_some("block", &self.block)
            .with_some("test", &self.test)
            .send(out)
    }
}

/// A terminal.
#[derive(Drop)]
pub struct TerminalView<'a> {
    form: TerminalForm<'a>,
}

/// A terminal by its variant.
#[derive(Drop)]
pub enum TerminalForm<'a> {
    Break {
        target: BlockId,
        target_kind: ReactiveTerminalTargetKind,
        id: EvaluationOrder,
    },
    Continue {
        target: BlockId,
        target_kind: ReactiveTerminalTargetKind,
        id: EvaluationOrder,
    },
    Return {
        value: &'a Place,
        id: EvaluationOrder,
    },
    Throw {
        value: &'a Place,
        id: EvaluationOrder,
    },
    Switch {
        test: &'a Place,
        cases: List<FlatSwitchCase>,
        id: EvaluationOrder,
    },
    DoWhile {
        loop_block: u32,
        test: ValueView<'a>,
        id: EvaluationOrder,
    },
    While {
        test: ValueView<'a>,
        loop_block: u32,
        id: EvaluationOrder,
    },
    For {
        init: ValueView<'a>,
        test: ValueView<'a>,
        update: Option<ValueView<'a>>,
        loop_block: u32,
        id: EvaluationOrder,
    },
    ForOf {
        init: ValueView<'a>,
        test: ValueView<'a>,
        loop_block: u32,
        span: Option<Span>,
        id: EvaluationOrder,
    },
    ForIn {
        init: ValueView<'a>,
        loop_block: u32,
        span: Option<Span>,
        id: EvaluationOrder,
    },
    If {
        test: &'a Place,
        consequent: u32,
        alternate: Option<u32>,
        id: EvaluationOrder,
    },
    Label {
        block: u32,
        id: EvaluationOrder,
    },
    Try {
        block: u32,
        handler_binding: &'a Option<Place>,
        handler: u32,
        id: EvaluationOrder,
    },
}

impl<'a> Model for TerminalView<'a> {
    ghost use Rattle.rc_flat.specs.Model.{FlatTerminal};
    ghost use Rattle.rc_answer.specs.inside.TerminalViews.{terminal_seen};

    ghost Value = { FlatTerminal };

    ghost view = { λ it. terminal_seen it.form };
}

impl<'a> TerminalView<'a> {
    /// A terminal of that form.
    pub fn new(form: TerminalForm<'a>) -> TerminalView<'a>
        ensures { result ≡ terminal_seen form.entry }
    {
        TerminalView { form }
    }
}

impl Show for TerminalView<'_> {
    ghost reads = { flat_terminal_of };

    ghost shows = { flat_terminal_data };

    #[tactic(auto, using(crate::proofs::Cited::flat_terminal_again), unfolding(crate::specs::inside::Cited::flat_terminal_data))]
    fn send<S: Serializer>(&self, out: &mut S) -> Result<(), S::Error> {
        match &self.form {
            TerminalForm::Break {
                target,
                target_kind,
                id,
            } => {
                NoFields
                    .with("id", id)
                    .tagged("Break")
                    .with("target", target)
                    .with_part("target_kind", target_kind)
                    .send(out)
            }
            TerminalForm::Continue {
                target,
                target_kind,
                id,
            } => {
                NoFields
                    .with("id", id)
                    .tagged("Continue")
                    .with("target", target)
                    .with_part("target_kind", target_kind)
                    .send(out)
            }
            TerminalForm::Return { value, id } => {
                NoFields
                    .with("id", id)
                    .tagged("Return")
                    .with("value", *value)
                    .send(out)
            }
            TerminalForm::Throw { value, id } => {
                NoFields
                    .with("id", id)
                    .tagged("Throw")
                    .with("value", *value)
                    .send(out)
            }
            TerminalForm::Switch { test, cases, id } => {
                NoFields
                    .with_part("cases", cases)
                    .with("id", id)
                    .tagged("Switch")
                    .with("test", *test)
                    .send(out)
            }
            TerminalForm::DoWhile {
                loop_block,
                test,
                id,
            } => {
                NoFields
                    .with("id", id)
                    .tagged("DoWhile")
                    .with("loop_block", loop_block)
                    .with("test", test)
                    .send(out)
            }
            TerminalForm::While {
                test,
                loop_block,
                id,
            } => {
                NoFields
                    .with("id", id)
                    .tagged("While")
                    .with("loop_block", loop_block)
                    .with("test", test)
                    .send(out)
            }
            TerminalForm::For {
                init,
                test,
                update,
                loop_block,
                id,
            } => {
                NoFields
                    .with("id", id)
                    .with("init", init)
                    .tagged("For")
                    .with("loop_block", loop_block)
                    .with("test", test)
                    .with_some("update", update)
                    .send(out)
            }
            TerminalForm::ForOf {
                init,
                test,
                loop_block,
                span,
                id,
            } => {
                NoFields
                    .with("id", id)
                    .with("init", init)
                    .tagged("ForOf")
                    .with("loop_block", loop_block)
                    .with_some("span", span)
                    .with("test", test)
                    .send(out)
            }
            TerminalForm::ForIn {
                init,
                loop_block,
                span,
                id,
            } => {
                NoFields
                    .with("id", id)
                    .with("init", init)
                    .tagged("ForIn")
                    .with("loop_block", loop_block)
                    .with_some("span", span)
                    .send(out)
            }
            TerminalForm::If {
                test,
                consequent,
                alternate,
                id,
            } => {
                NoFields
                    .with_some("alternate", alternate)
                    .with("consequent", consequent)
                    .with("id", id)
                    .tagged("If")
                    .with("test", *test)
                    .send(out)
            }
            TerminalForm::Label { block, id } => {
                NoFields
                    .with("block", block)
                    .with("id", id)
                    .tagged("Label")
                    .send(out)
            }
            TerminalForm::Try {
                block,
                handler_binding,
                handler,
                id,
            } => {
                NoFields
                    .with("block", block)
                    .with("handler", handler)
                    .with_some("handler_binding", *handler_binding)
                    .with("id", id)
                    .tagged("Try")
                    .send(out)
            }
        }
    }

    ghost not_null = { no_null_flat_terminal };
}
