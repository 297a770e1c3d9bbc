//! The printing form of the terminals of a graph: one function a terminal, in families.

mod blocks;
mod branches;
mod jumps;
mod loops;

ghost use Rattle.rc_doc.specs.Terminals.{terminal_of};
ghost use Rattle.rc_doc.specs.Terminals.Branches.{case_of};
ghost use Rattle.rc_doc.specs.Terminals.Jumps.{goto_variant_of};
ghost use Rattle.rc_flat.specs.ShownGraph.{case_data, goto_variant_data, terminal_data};

use crate::parts::Part;
use rc_hir::{Case, GotoVariant, Terminal};
use rc_show::{Fields, NoFields};
use serde::Serializer;

impl Part for Case {
    ghost reads = { case_of };

    ghost shows = { case_data };

    #[tactic(auto, using(crate::proofs::Cited::case_again), unfolding(crate::specs::inside::Cited::case_data))]
    fn send<S: Serializer>(&self, out: &mut S) -> Result<(), S::Error> {
        NoFields
            .with("block", &self.block)
            .with_some("test", &self.test)
            .send(out)
    }
}

impl Part for GotoVariant {
    ghost reads = { goto_variant_of };

    ghost shows = { goto_variant_data };

    #[tactic(auto, using(crate::proofs::Cited::goto_variant_again, crate::proofs::Cited::text_sent), unfolding(crate::specs::inside::Cited::goto_variant_data))]
    fn send<S: Serializer>(&self, out: &mut S) -> Result<(), S::Error> {
        match self {
            GotoVariant::Break => out.str("Break"),
            GotoVariant::Continue => out.str("Continue"),
            GotoVariant::Try => out.str("Try"),
        }
    }
}

impl Part for Terminal {
    ghost reads = { terminal_of };

    ghost shows = { terminal_data };

    fn send<S: Serializer>(&self, out: &mut S) -> Result<(), S::Error> {
        match self {
            Terminal::If {
                test,
                consequent,
                alternate,
                fallthrough,
                id,
                span,
            } => branches::if_terminal(out, test, consequent, alternate, fallthrough, id, span),
            Terminal::Branch {
                test,
                consequent,
                alternate,
                id,
                span,
            } => branches::branch_terminal(out, test, consequent, alternate, id, span),
            Terminal::Logical {
                operator,
                test,
                fallthrough,
                id,
                span,
            } => branches::logical_terminal(out, operator, test, fallthrough, id, span),
            Terminal::Ternary {
                test,
                fallthrough,
                id,
                span,
            } => branches::ternary_terminal(out, test, fallthrough, id, span),
            Terminal::Optional {
                optional,
                test,
                fallthrough,
                id,
                span,
            } => branches::optional_terminal(out, optional, test, fallthrough, id, span),
            Terminal::Sequence {
                block,
                fallthrough,
                id,
                span,
            } => blocks::sequence_terminal(out, block, fallthrough, id, span),
            Terminal::Throw { value, id, span } => jumps::throw_terminal(out, value, id, span),
            Terminal::Return { value, id, span } => jumps::return_terminal(out, value, id, span),
            Terminal::Goto {
                block,
                variant,
                id,
                span,
            } => jumps::goto_terminal(out, block, variant, id, span),
            Terminal::Switch {
                test,
                cases,
                fallthrough,
                id,
                span,
            } => branches::switch_terminal(out, test, cases, fallthrough, id, span),
            Terminal::DoWhile {
                loop_block,
                test,
                fallthrough,
                id,
                span,
            } => loops::do_while_terminal(out, loop_block, test, fallthrough, id, span),
            Terminal::While {
                test,
                loop_block,
                fallthrough,
                id,
                span,
            } => loops::while_terminal(out, test, loop_block, fallthrough, id, span),
            Terminal::For {
                init,
                test,
                update,
                loop_block,
                fallthrough,
                id,
                span,
            } => loops::for_terminal(out, init, test, update, loop_block, fallthrough, id, span),
            Terminal::ForOf {
                init,
                test,
                loop_block,
                fallthrough,
                id,
                span,
            } => loops::for_of_terminal(out, init, test, loop_block, fallthrough, id, span),
            Terminal::ForIn {
                init,
                loop_block,
                fallthrough,
                id,
                span,
            } => loops::for_in_terminal(out, init, loop_block, fallthrough, id, span),
            Terminal::Label {
                block,
                fallthrough,
                id,
                span,
            } => blocks::label_terminal(out, block, fallthrough, id, span),
            Terminal::Unreachable { id, span } => jumps::unreachable_terminal(out, id, span),
            Terminal::MaybeThrow {
                continuation,
                handler,
                id,
                span,
            } => jumps::maybe_throw_terminal(out, continuation, handler, id, span),
            Terminal::Scope {
                fallthrough,
                block,
                scope,
                id,
                span,
            } => blocks::scope_terminal(out, fallthrough, block, scope, id, span),
            Terminal::PrunedScope {
                fallthrough,
                block,
                scope,
                id,
                span,
            } => blocks::pruned_scope_terminal(out, fallthrough, block, scope, id, span),
            Terminal::Try {
                block,
                handler_binding,
                handler,
                fallthrough,
                id,
                span,
            } => blocks::try_terminal(out, block, handler_binding, handler, fallthrough, id, span),
        }
    }
}
