//! Terminals with the numbers of the blocks and values inside.

ghost use Rattle.std.specs.Prelude.{◌≡◌, IfOk, OnOk};
ghost use Rattle.rc_tree.specs.declared.statement.ReactiveStatement.TheOpen as layer;
ghost use Rattle.rc_tree.specs.declared.terminal.ReactiveTerminal.{out-ReactiveTerminal};
ghost use Rattle.rc_flat.specs.Blocks.{blocks_in_terminal, flat_terminal, values_in_terminal};
ghost use Rattle.rc_answer.specs.inside.Numbering.{next_of, Grows};
ghost use Rattle.rc_answer.specs.inside.TerminalViews.{terminal_seen};

use crate::numbering::statements::Numbering;
use crate::view::terminal::{TerminalForm, TerminalView};
use rc_hir::Place;
use rc_names::{Boxed, EvaluationOrder, Span};
use rc_tree::{ReactiveBlock, ReactiveTerminal, ReactiveValue};
use std::alloc::AllocError;

impl<'a> Numbering<'a> {
    /// Returns a terminal with the numbers of the blocks and values inside.
    pub fn terminal(
        &mut self,
        terminal: &'a ReactiveTerminal,
    ) -> Result<TerminalView<'a>, AllocError>
        ensures terminal { IfOk result
            (λ view. view ≡ flat_terminal (next_of self.old) (out-ReactiveTerminal terminal.now)) }
        ensures blocks { OnOk result
            (Grows (blocks_in_terminal (out-ReactiveTerminal terminal.now)) self.old.blocks self.new.blocks) }
        ensures values { OnOk result
            (Grows (values_in_terminal (out-ReactiveTerminal terminal.now)) self.old.values self.new.values) }
    {
        Ok(TerminalView::new(self.form(terminal)?))
    }

    /// Returns the form of a terminal.
    #[tactic(auto, using(crate::proofs::NumberingLemmas::grows_none))]
    fn form(&mut self, terminal: &'a ReactiveTerminal) -> Result<TerminalForm<'a>, AllocError>
        ensures terminal { IfOk result (λ form.
            terminal_seen form ≡ flat_terminal (next_of self.old) (out-ReactiveTerminal terminal.now)) }
        ensures blocks { OnOk result
            (Grows (blocks_in_terminal (out-ReactiveTerminal terminal.now)) self.old.blocks self.new.blocks) }
        ensures values { OnOk result
            (Grows (values_in_terminal (out-ReactiveTerminal terminal.now)) self.old.values self.new.values) }
    {
        match terminal {
            ReactiveTerminal::Break {
                target,
                target_kind,
                id,
            } => Ok(TerminalForm::Break {
                target: *target,
                target_kind: *target_kind,
                id: *id,
            }),
            ReactiveTerminal::Continue {
                target,
                target_kind,
                id,
            } => Ok(TerminalForm::Continue {
                target: *target,
                target_kind: *target_kind,
                id: *id,
            }),
            ReactiveTerminal::Return { value, id } => Ok(TerminalForm::Return { value, id: *id }),
            ReactiveTerminal::Throw { value, id } => Ok(TerminalForm::Throw { value, id: *id }),
            ReactiveTerminal::Switch { test, cases, id } => Ok(TerminalForm::Switch {
                test,
                cases: self.blocks.cases(self.alloc, cases.as_slice())?,
                id: *id,
            }),
            ReactiveTerminal::DoWhile {
                loop_block,
                test,
                id,
            } => self.do_while_form(loop_block, test, *id),
            ReactiveTerminal::While {
                test,
                loop_block,
                id,
            } => self.while_form(test, loop_block, *id),
            ReactiveTerminal::For {
                init,
                test,
                update,
                loop_block,
                id,
            } => self.for_form(init, test, update, loop_block, *id),
            ReactiveTerminal::ForOf {
                init,
                test,
                loop_block,
                span,
                id,
            } => self.for_of_form(init, test, loop_block, *span, *id),
            ReactiveTerminal::ForIn {
                init,
                loop_block,
                span,
                id,
            } => self.for_in_form(init, loop_block, *span, *id),
            ReactiveTerminal::If {
                test,
                consequent,
                alternate,
                id,
            } => self.if_form(test, consequent, alternate, *id),
            ReactiveTerminal::Label { block, id } => Ok(TerminalForm::Label {
                block: self.blocks.number(block)?,
                id: *id,
            }),
            ReactiveTerminal::Try {
                block,
                handler_binding,
                handler,
                id,
            } => self.try_form(block, handler_binding, handler, *id),
        }
    }

    /// Returns the form of a `DoWhile`.
    #[tactic(auto, using(crate::proofs::NumberingLemmas::grows_none, crate::proofs::NumberingLemmas::grows_then))]
    fn do_while_form(
        &mut self,
        loop_block: &'a ReactiveBlock,
        test: &'a Boxed<ReactiveValue>,
        id: EvaluationOrder,
    ) -> Result<TerminalForm<'a>, AllocError>
        ensures terminal { IfOk result (λ form. terminal_seen form
            ≡ flat_terminal (next_of self.old) (layer.DoWhile loop_block.now test.now id)) }
        ensures blocks { OnOk result
            (Grows (blocks_in_terminal (layer.DoWhile loop_block.now test.now id))
            self.old.blocks self.new.blocks) }
        ensures values { OnOk result
            (Grows (values_in_terminal (layer.DoWhile loop_block.now test.now id))
            self.old.values self.new.values) }
    {
        Ok(TerminalForm::DoWhile {
            loop_block: self.blocks.number(loop_block)?,
            test: self.values.value(test.get())?,
            id,
        })
    }

    /// Returns the form of a `While`.
    #[tactic(auto, using(crate::proofs::NumberingLemmas::grows_none, crate::proofs::NumberingLemmas::grows_then))]
    fn while_form(
        &mut self,
        test: &'a Boxed<ReactiveValue>,
        loop_block: &'a ReactiveBlock,
        id: EvaluationOrder,
    ) -> Result<TerminalForm<'a>, AllocError>
        ensures terminal { IfOk result (λ form. terminal_seen form
            ≡ flat_terminal (next_of self.old) (layer.While test.now loop_block.now id)) }
        ensures blocks { OnOk result
            (Grows (blocks_in_terminal (layer.While test.now loop_block.now id))
            self.old.blocks self.new.blocks) }
        ensures values { OnOk result
            (Grows (values_in_terminal (layer.While test.now loop_block.now id))
            self.old.values self.new.values) }
    {
        Ok(TerminalForm::While {
            test: self.values.value(test.get())?,
            loop_block: self.blocks.number(loop_block)?,
            id,
        })
    }

    /// Returns the form of a `For`. The numbers of the values rise from the init to the update.
    #[tactic(auto, using(crate::proofs::NumberingLemmas::grows_none, crate::proofs::NumberingLemmas::grows_then))]
    fn for_form(
        &mut self,
        init: &'a Boxed<ReactiveValue>,
        test: &'a Boxed<ReactiveValue>,
        update: &'a Option<Boxed<ReactiveValue>>,
        loop_block: &'a ReactiveBlock,
        id: EvaluationOrder,
    ) -> Result<TerminalForm<'a>, AllocError>
        ensures terminal { IfOk result (λ form. terminal_seen form
            ≡ flat_terminal (next_of self.old) (layer.For init.now test.now update.now loop_block.now id)) }
        ensures blocks { OnOk result
            (Grows (blocks_in_terminal (layer.For init.now test.now update.now loop_block.now id))
            self.old.blocks self.new.blocks) }
        ensures values { OnOk result
            (Grows (values_in_terminal (layer.For init.now test.now update.now loop_block.now id))
            self.old.values self.new.values) }
    {
        Ok(TerminalForm::For {
            init: self.values.value(init.get())?,
            test: self.values.value(test.get())?,
            update: self.values.value_if(update)?,
            loop_block: self.blocks.number(loop_block)?,
            id,
        })
    }

    /// Returns the form of a `ForOf`.
    #[tactic(auto, using(crate::proofs::NumberingLemmas::grows_none, crate::proofs::NumberingLemmas::grows_then))]
    fn for_of_form(
        &mut self,
        init: &'a Boxed<ReactiveValue>,
        test: &'a Boxed<ReactiveValue>,
        loop_block: &'a ReactiveBlock,
        span: Option<Span>,
        id: EvaluationOrder,
    ) -> Result<TerminalForm<'a>, AllocError>
        ensures terminal { IfOk result (λ form. terminal_seen form
            ≡ flat_terminal (next_of self.old) (layer.ForOf init.now test.now loop_block.now span id)) }
        ensures blocks { OnOk result
            (Grows (blocks_in_terminal (layer.ForOf init.now test.now loop_block.now span id))
            self.old.blocks self.new.blocks) }
        ensures values { OnOk result
            (Grows (values_in_terminal (layer.ForOf init.now test.now loop_block.now span id))
            self.old.values self.new.values) }
    {
        Ok(TerminalForm::ForOf {
            init: self.values.value(init.get())?,
            test: self.values.value(test.get())?,
            loop_block: self.blocks.number(loop_block)?,
            span,
            id,
        })
    }

    /// Returns the form of a `ForIn`.
    #[tactic(auto, using(crate::proofs::NumberingLemmas::grows_none, crate::proofs::NumberingLemmas::grows_then))]
    fn for_in_form(
        &mut self,
        init: &'a Boxed<ReactiveValue>,
        loop_block: &'a ReactiveBlock,
        span: Option<Span>,
        id: EvaluationOrder,
    ) -> Result<TerminalForm<'a>, AllocError>
        ensures terminal { IfOk result (λ form. terminal_seen form
            ≡ flat_terminal (next_of self.old) (layer.ForIn init.now loop_block.now span id)) }
        ensures blocks { OnOk result
            (Grows (blocks_in_terminal (layer.ForIn init.now loop_block.now span id))
            self.old.blocks self.new.blocks) }
        ensures values { OnOk result
            (Grows (values_in_terminal (layer.ForIn init.now loop_block.now span id))
            self.old.values self.new.values) }
    {
        Ok(TerminalForm::ForIn {
            init: self.values.value(init.get())?,
            loop_block: self.blocks.number(loop_block)?,
            span,
            id,
        })
    }

    /// Returns the form of a `If`. The alternate comes before the consequent in the text.
    #[tactic(auto, using(crate::proofs::NumberingLemmas::grows_none, crate::proofs::NumberingLemmas::grows_then))]
    fn if_form(
        &mut self,
        test: &'a Place,
        consequent: &'a ReactiveBlock,
        alternate: &'a Option<ReactiveBlock>,
        id: EvaluationOrder,
    ) -> Result<TerminalForm<'a>, AllocError>
        ensures terminal { IfOk result (λ form. terminal_seen form
            ≡ flat_terminal (next_of self.old) (layer.If test.now consequent.now alternate.now id)) }
        ensures blocks { OnOk result
            (Grows (blocks_in_terminal (layer.If test.now consequent.now alternate.now id))
            self.old.blocks self.new.blocks) }
        ensures values { OnOk result
            (Grows (values_in_terminal (layer.If test.now consequent.now alternate.now id))
            self.old.values self.new.values) }
    {
        Ok(TerminalForm::If {
            test,
            alternate: self.blocks.number_if(alternate)?,
            consequent: self.blocks.number(consequent)?,
            id,
        })
    }

    /// Returns the form of a `Try`.
    #[tactic(auto, using(crate::proofs::NumberingLemmas::grows_none, crate::proofs::NumberingLemmas::grows_then))]
    fn try_form(
        &mut self,
        block: &'a ReactiveBlock,
        handler_binding: &'a Option<Place>,
        handler: &'a ReactiveBlock,
        id: EvaluationOrder,
    ) -> Result<TerminalForm<'a>, AllocError>
        ensures terminal { IfOk result (λ form. terminal_seen form
            ≡ flat_terminal (next_of self.old) (layer.Try block.now handler_binding.now handler.now id)) }
        ensures blocks { OnOk result
            (Grows (blocks_in_terminal (layer.Try block.now handler_binding.now handler.now id))
            self.old.blocks self.new.blocks) }
        ensures values { OnOk result
            (Grows (values_in_terminal (layer.Try block.now handler_binding.now handler.now id))
            self.old.values self.new.values) }
    {
        Ok(TerminalForm::Try {
            block: self.blocks.number(block)?,
            handler_binding,
            handler: self.blocks.number(handler)?,
            id,
        })
    }
}
