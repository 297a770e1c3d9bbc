//! Statements of the table of blocks.

ghost use Rattle.std.specs.Prelude.{◌≡◌};
ghost use Rattle.rc_flat.specs.ReadingFlat.{label_of, scope_block_of, statement_of, terminal_statement_of};
ghost use Rattle.rc_flat.specs.ShownFlat.{label_data, scope_block_data, statement_data, terminal_statement_data};
ghost use Rattle.rc_answer.specs.inside.StatementViews.{statement_seen};
ghost use Rattle.rc_answer.specs.inside.TerminalViews.{terminal_statement_seen};
ghost use Rattle.rc_answer.specs.NotNull.{no_null_statement, no_null_terminal_statement};

use crate::parts::{Part, PartFields, send_part_variant};
use crate::view::terminal::TerminalView;
use crate::view::value::RowView;
use rc_flat::FlatScopeBlock;
use rc_show::{Fields, NoFields, Show, send_variant};
use rc_tree::ReactiveLabel;
use serde::Serializer;
use std::marker::Model;

impl Part for ReactiveLabel {
    ghost reads = { label_of };

    ghost shows = { label_data };

    #[tactic(auto, using(crate::proofs::Cited::label_again), unfolding(crate::specs::inside::Cited::label_data))]
    fn send<S: Serializer>(&self, out: &mut S) -> Result<(), S::Error> {
        NoFields
            .with("id", &self.id)
            .with("implicit", &self.implicit)
            .send(out)
    }
}

impl Part for FlatScopeBlock {
    ghost reads = { scope_block_of };

    ghost shows = { scope_block_data };

    #[tactic(auto, using(crate::proofs::Cited::scope_block_again), unfolding(crate::specs::inside::Cited::scope_block_data))]
    fn send<S: Serializer>(&self, out: &mut S) -> Result<(), S::Error> {
        NoFields
            .with("instructions", &self.instructions)
            .with("scope", &self.scope)
            .send(out)
    }
}

/// A terminal with its label.
#[derive(Drop)]
pub struct TerminalStatementView<'a> {
    terminal: TerminalView<'a>,
    label: &'a Option<ReactiveLabel>,
}

impl<'a> Model for TerminalStatementView<'a> {
    ghost use Rattle.rc_flat.specs.Model.{FlatTerminalStatement};
    ghost use Rattle.rc_answer.specs.inside.TerminalViews.{terminal_statement_seen};

    ghost Value = { FlatTerminalStatement };

    ghost view = { λ it. terminal_statement_seen it.terminal it.label.now };
}

impl<'a> TerminalStatementView<'a> {
    /// A terminal with that label, if it has one.
    pub fn new(
        terminal: TerminalView<'a>,
        label: &'a Option<ReactiveLabel>,
    ) -> TerminalStatementView<'a>
        ensures { result ≡ terminal_statement_seen terminal.entry label.now }
    {
        TerminalStatementView { terminal, label }
    }
}

impl Show for TerminalStatementView<'_> {
    ghost reads = { terminal_statement_of };

    ghost shows = { terminal_statement_data };

    #[tactic(auto, using(crate::proofs::Cited::terminal_statement_again), unfolding(crate::specs::inside::Cited::terminal_statement_data))]
    fn send<S: Serializer>(&self, out: &mut S) -> Result<(), S::Error> {
        NoFields
            .with_some_part("label", self.label)
            .with("terminal", &self.terminal)
            .send(out)
    }

    ghost not_null = { no_null_terminal_statement };
}

/// A statement.
#[derive(Drop)]
pub struct StatementView<'a> {
    form: StatementForm<'a>,
}

/// A statement by its variant.
#[derive(Drop)]
pub enum StatementForm<'a> {
    Instruction(RowView<'a>),
    Terminal(TerminalStatementView<'a>),
    Scope(FlatScopeBlock),
    PrunedScope(FlatScopeBlock),
}

impl<'a> Model for StatementView<'a> {
    ghost use Rattle.rc_flat.specs.Model.{FlatStatement};
    ghost use Rattle.rc_answer.specs.inside.StatementViews.{statement_seen};

    ghost Value = { FlatStatement };

    ghost view = { λ it. statement_seen it.form };
}

impl<'a> StatementView<'a> {
    /// A statement of that form.
    pub fn new(form: StatementForm<'a>) -> StatementView<'a>
        ensures { result ≡ statement_seen form.entry }
    {
        StatementView { form }
    }
}

impl Show for StatementView<'_> {
    ghost reads = { statement_of };

    ghost shows = { statement_data };

    #[tactic(auto, using(crate::proofs::Cited::statement_again), unfolding(crate::specs::inside::Cited::statement_data))]
    fn send<S: Serializer>(&self, out: &mut S) -> Result<(), S::Error> {
        match &self.form {
            StatementForm::Instruction(row) => send_variant(out, "Instruction", row),
            StatementForm::Terminal(terminal) => send_variant(out, "Terminal", terminal),
            StatementForm::Scope(block) => send_part_variant(out, "Scope", block),
            StatementForm::PrunedScope(block) => send_part_variant(out, "PrunedScope", block),
        }
    }

    ghost not_null = { no_null_statement };
}
