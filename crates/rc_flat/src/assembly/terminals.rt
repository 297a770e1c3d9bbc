//! Terminals: one function for each that has a part which may have waited.

ghost use Rattle.rc_doc.specs.Reading.{IsRead};
ghost use Rattle.rc_flat.specs.inside.Assembly.{case_from, if_there, terminal_from, value_from};

use crate::assembly::Assemble;
use crate::assembly::values::boxed;
use crate::found::Found;
use crate::terminal::{FlatSwitchCase, FlatTerminal};
use crate::value::FlatValue;
use rc_doc::Refusal;
use rc_hir::Place;
use rc_names::{Boxed, EvaluationOrder, List, Span};
use rc_tree::{ReactiveSwitchCase, ReactiveTerminal, ReactiveValue};
use std::alloc::Global;

impl Assemble for FlatSwitchCase {
    type Tree = ReactiveSwitchCase;

    ghost takes = { case_from };

    fn assemble(
        self,
        _alloc: Global,
        found: Found,
    ) -> Result<(ReactiveSwitchCase, Found), Refusal> {
        let (block, found) = found.take_block_if(self.block)?;
        Ok((
            ReactiveSwitchCase {
                test: self.test,
                block,
            },
            found,
        ))
    }
}

fn switch(
    alloc: Global,
    test: Place,
    cases: List<FlatSwitchCase>,
    id: EvaluationOrder,
    found: Found,
) -> Result<(ReactiveTerminal, Found), Refusal>
    ensures { IsRead result (terminal_from (FlatTerminal.Switch test cases id) found) }
{
    let (cases, found) = cases.assemble(alloc, found)?;
    Ok((ReactiveTerminal::Switch { test, cases, id }, found))
}

fn do_while(
    alloc: Global,
    loop_block: u32,
    test: FlatValue,
    id: EvaluationOrder,
    found: Found,
) -> Result<(ReactiveTerminal, Found), Refusal>
    ensures { IsRead result (terminal_from (FlatTerminal.DoWhile loop_block test id) found) }
{
    let (test, found) = boxed(alloc, test, found)?;
    let (loop_block, found) = found.take_block(loop_block)?;
    Ok((
        ReactiveTerminal::DoWhile {
            loop_block,
            test,
            id,
        },
        found,
    ))
}

fn while_loop(
    alloc: Global,
    test: FlatValue,
    loop_block: u32,
    id: EvaluationOrder,
    found: Found,
) -> Result<(ReactiveTerminal, Found), Refusal>
    ensures { IsRead result (terminal_from (FlatTerminal.While test loop_block id) found) }
{
    let (test, found) = boxed(alloc, test, found)?;
    let (loop_block, found) = found.take_block(loop_block)?;
    Ok((
        ReactiveTerminal::While {
            test,
            loop_block,
            id,
        },
        found,
    ))
}

/// An update on the heap, if there is one.
fn boxed_if(
    alloc: Global,
    value: Option<FlatValue>,
    found: Found,
) -> Result<(Option<Boxed<ReactiveValue>>, Found), Refusal>
    ensures { IsRead result (if_there value_from value found) }
{
    match value {
        Some(value) => {
            let (value, found) = boxed(alloc, value, found)?;
            Ok((Some(value), found))
        }
        None => Ok((None, found)),
    }
}

fn for_loop(
    alloc: Global,
    init: FlatValue,
    test: FlatValue,
    update: Option<FlatValue>,
    loop_block: u32,
    id: EvaluationOrder,
    found: Found,
) -> Result<(ReactiveTerminal, Found), Refusal>
    ensures { IsRead result (terminal_from (FlatTerminal.For init test update loop_block id) found) }
{
    let (update, found) = boxed_if(alloc, update, found)?;
    let (test, found) = boxed(alloc, test, found)?;
    let (loop_block, found) = found.take_block(loop_block)?;
    let (init, found) = boxed(alloc, init, found)?;
    Ok((
        ReactiveTerminal::For {
            init,
            test,
            update,
            loop_block,
            id,
        },
        found,
    ))
}

fn for_of(
    alloc: Global,
    init: FlatValue,
    test: FlatValue,
    loop_block: u32,
    span: Option<Span>,
    id: EvaluationOrder,
    found: Found,
) -> Result<(ReactiveTerminal, Found), Refusal>
    ensures { IsRead result (terminal_from (FlatTerminal.ForOf init test loop_block span id) found) }
{
    let (test, found) = boxed(alloc, test, found)?;
    let (loop_block, found) = found.take_block(loop_block)?;
    let (init, found) = boxed(alloc, init, found)?;
    Ok((
        ReactiveTerminal::ForOf {
            init,
            test,
            loop_block,
            span,
            id,
        },
        found,
    ))
}

fn for_in(
    alloc: Global,
    init: FlatValue,
    loop_block: u32,
    span: Option<Span>,
    id: EvaluationOrder,
    found: Found,
) -> Result<(ReactiveTerminal, Found), Refusal>
    ensures { IsRead result (terminal_from (FlatTerminal.ForIn init loop_block span id) found) }
{
    let (loop_block, found) = found.take_block(loop_block)?;
    let (init, found) = boxed(alloc, init, found)?;
    Ok((
        ReactiveTerminal::ForIn {
            init,
            loop_block,
            span,
            id,
        },
        found,
    ))
}

fn if_terminal(
    test: Place,
    consequent: u32,
    alternate: Option<u32>,
    id: EvaluationOrder,
    found: Found,
) -> Result<(ReactiveTerminal, Found), Refusal>
    ensures { IsRead result (terminal_from (FlatTerminal.If test consequent alternate id) found) }
{
    let (consequent, found) = found.take_block(consequent)?;
    let (alternate, found) = found.take_block_if(alternate)?;
    Ok((
        ReactiveTerminal::If {
            test,
            consequent,
            alternate,
            id,
        },
        found,
    ))
}

fn labeled(
    block: u32,
    id: EvaluationOrder,
    found: Found,
) -> Result<(ReactiveTerminal, Found), Refusal>
    ensures { IsRead result (terminal_from (FlatTerminal.Label block id) found) }
{
    let (block, found) = found.take_block(block)?;
    Ok((ReactiveTerminal::Label { block, id }, found))
}

fn try_terminal(
    block: u32,
    handler_binding: Option<Place>,
    handler: u32,
    id: EvaluationOrder,
    found: Found,
) -> Result<(ReactiveTerminal, Found), Refusal>
    ensures { IsRead result (terminal_from (FlatTerminal.Try block handler_binding handler id) found) }
{
    let (handler, found) = found.take_block(handler)?;
    let (block, found) = found.take_block(block)?;
    Ok((
        ReactiveTerminal::Try {
            block,
            handler_binding,
            handler,
            id,
        },
        found,
    ))
}

impl Assemble for FlatTerminal {
    type Tree = ReactiveTerminal;

    ghost takes = { terminal_from };

    fn assemble(self, alloc: Global, found: Found) -> Result<(ReactiveTerminal, Found), Refusal> {
        match self {
            FlatTerminal::Break {
                target,
                target_kind,
                id,
            } => Ok((
                ReactiveTerminal::Break {
                    target,
                    target_kind,
                    id,
                },
                found,
            )),
            FlatTerminal::Continue {
                target,
                target_kind,
                id,
            } => Ok((
                ReactiveTerminal::Continue {
                    target,
                    target_kind,
                    id,
                },
                found,
            )),
            FlatTerminal::Return { value, id } => Ok((
                ReactiveTerminal::Return { value, id },
                found,
            )),
            FlatTerminal::Throw { value, id } => Ok((ReactiveTerminal::Throw { value, id }, found)),
            FlatTerminal::Switch { test, cases, id } => switch(alloc, test, cases, id, found),
            FlatTerminal::DoWhile {
                loop_block,
                test,
                id,
            } => do_while(alloc, loop_block, test, id, found),
            FlatTerminal::While {
                test,
                loop_block,
                id,
            } => while_loop(alloc, test, loop_block, id, found),
            FlatTerminal::For {
                init,
                test,
                update,
                loop_block,
                id,
            } => for_loop(alloc, init, test, update, loop_block, id, found),
            FlatTerminal::ForOf {
                init,
                test,
                loop_block,
                span,
                id,
            } => for_of(alloc, init, test, loop_block, span, id, found),
            FlatTerminal::ForIn {
                init,
                loop_block,
                span,
                id,
            } => for_in(alloc, init, loop_block, span, id, found),
            FlatTerminal::If {
                test,
                consequent,
                alternate,
                id,
            } => if_terminal(test, consequent, alternate, id, found),
            FlatTerminal::Label { block, id } => labeled(block, id, found),
            FlatTerminal::Try {
                block,
                handler_binding,
                handler,
                id,
            } => try_terminal(block, handler_binding, handler, id, found),
        }
    }
}
