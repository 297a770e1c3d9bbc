//! Copies of blocks, statements, terminals and scopes, and of a whole function.
//!
//! In the copy of a terminal each arm has at most one `?`, since a `match` with some twenty of them outgrows the
//! checker's memory. So seven helpers copy the values and build the copy.

ghost use Rattle.std.specs.Prelude.{◌≡◌, IfOk};

use crate::copies::value::boxed_copy;
use crate::function::ReactiveFunction;
use crate::scope::{PrunedReactiveScopeBlock, ReactiveScopeBlock};
use crate::statement::{ReactiveBlock, ReactiveStatement};
use crate::terminal::{ReactiveSwitchCase, ReactiveTerminal, ReactiveTerminalStatement};
use crate::value::ReactiveValue;
use rc_hir::Place;
use rc_names::{Boxed, CloneIn, EvaluationOrder, List, Span};
use std::alloc::{AllocError, Global};

impl CloneIn for ReactiveBlock {
    #[cycle(copy_tree)]
    fn clone_in(&self, alloc: Global) -> Result<ReactiveBlock, AllocError> {
        let mut statements = List::new(alloc);
        for statement in self.statements.as_slice() {
            statements.push(statement.clone_in(alloc)?)?;
        }
        Ok(ReactiveBlock { statements })
    }
}

impl CloneIn for ReactiveStatement {
    #[cycle(copy_tree)]
    fn clone_in(&self, alloc: Global) -> Result<ReactiveStatement, AllocError> {
        match self {
            ReactiveStatement::Instruction(instruction) => {
                Ok(ReactiveStatement::Instruction(instruction.clone_in(alloc)?))
            }
            ReactiveStatement::Terminal(stmt) => Ok(ReactiveStatement::Terminal(Boxed::new(
                alloc,
                stmt.get().clone_in(alloc)?,
            )?)),
            ReactiveStatement::Scope(scope) => Ok(ReactiveStatement::Scope(scope.clone_in(alloc)?)),
            ReactiveStatement::PrunedScope(scope) => {
                Ok(ReactiveStatement::PrunedScope(scope.clone_in(alloc)?))
            }
        }
    }
}

impl CloneIn for ReactiveScopeBlock {
    #[cycle(copy_tree)]
    fn clone_in(&self, alloc: Global) -> Result<ReactiveScopeBlock, AllocError> {
        Ok(ReactiveScopeBlock {
            scope: self.scope,
            instructions: self.instructions.clone_in(alloc)?,
        })
    }
}

impl CloneIn for PrunedReactiveScopeBlock {
    #[cycle(copy_tree)]
    fn clone_in(&self, alloc: Global) -> Result<PrunedReactiveScopeBlock, AllocError> {
        Ok(PrunedReactiveScopeBlock {
            scope: self.scope,
            instructions: self.instructions.clone_in(alloc)?,
        })
    }
}

impl CloneIn for ReactiveTerminalStatement {
    #[cycle(copy_tree)]
    fn clone_in(&self, alloc: Global) -> Result<ReactiveTerminalStatement, AllocError> {
        Ok(ReactiveTerminalStatement {
            terminal: self.terminal.clone_in(alloc)?,
            label: self.label,
        })
    }
}

impl CloneIn for ReactiveTerminal {
    #[cycle(copy_tree)]
    fn clone_in(&self, alloc: Global) -> Result<ReactiveTerminal, AllocError> {
        match self {
            ReactiveTerminal::Break {
                target,
                target_kind,
                id,
            } => Ok(ReactiveTerminal::Break {
                target: *target,
                target_kind: *target_kind,
                id: *id,
            }),
            ReactiveTerminal::Continue {
                target,
                target_kind,
                id,
            } => Ok(ReactiveTerminal::Continue {
                target: *target,
                target_kind: *target_kind,
                id: *id,
            }),
            ReactiveTerminal::Return { value, id } => Ok(ReactiveTerminal::Return {
                value: *value,
                id: *id,
            }),
            ReactiveTerminal::Throw { value, id } => Ok(ReactiveTerminal::Throw {
                value: *value,
                id: *id,
            }),
            ReactiveTerminal::Switch { test, cases, id } => Ok(ReactiveTerminal::Switch {
                test: *test,
                cases: copied_cases(alloc, cases)?,
                id: *id,
            }),
            ReactiveTerminal::DoWhile {
                loop_block,
                test,
                id,
            } => do_while_copy(alloc, loop_block.clone_in(alloc)?, test, *id),
            ReactiveTerminal::While {
                test,
                loop_block,
                id,
            } => while_copy(alloc, test, loop_block.clone_in(alloc)?, *id),
            ReactiveTerminal::For {
                init,
                test,
                update,
                loop_block,
                id,
            } => for_copy(alloc, init, test, update, loop_block.clone_in(alloc)?, *id),
            ReactiveTerminal::ForOf {
                init,
                test,
                loop_block,
                span,
                id,
            } => for_of_copy(alloc, init, test, loop_block.clone_in(alloc)?, *span, *id),
            ReactiveTerminal::ForIn {
                init,
                loop_block,
                span,
                id,
            } => for_in_copy(alloc, init, loop_block.clone_in(alloc)?, *span, *id),
            ReactiveTerminal::If {
                test,
                consequent,
                alternate,
                id,
            } => if_copy(alloc, alternate, *test, consequent.clone_in(alloc)?, *id),
            ReactiveTerminal::Label { block, id } => Ok(ReactiveTerminal::Label {
                block: block.clone_in(alloc)?,
                id: *id,
            }),
            ReactiveTerminal::Try {
                block,
                handler_binding,
                handler,
                id,
            } => try_copy(
                alloc,
                handler,
                block.clone_in(alloc)?,
                *handler_binding,
                *id,
            ),
        }
    }
}

impl CloneIn for ReactiveSwitchCase {
    #[cycle(copy_tree)]
    fn clone_in(&self, alloc: Global) -> Result<ReactiveSwitchCase, AllocError> {
        Ok(ReactiveSwitchCase {
            test: self.test,
            block: copied_block(alloc, &self.block)?,
        })
    }
}

/// A copy of an optional block.
#[cycle(copy_tree)]
fn copied_block(
    alloc: Global,
    block: &Option<ReactiveBlock>,
) -> Result<Option<ReactiveBlock>, AllocError>
    ensures { IfOk result (λ copy. copy ≡ block.now) }
{
    match block {
        Some(block) => Ok(Some(block.clone_in(alloc)?)),
        None => Ok(None),
    }
}

/// A copy of each case of a switch.
#[cycle(copy_tree)]
fn copied_cases(
    alloc: Global,
    cases: &List<ReactiveSwitchCase>,
) -> Result<List<ReactiveSwitchCase>, AllocError>
    ensures { IfOk result (λ copies. copies ≡ cases.now) }
{
    let mut copies = List::new(alloc);
    for case in cases.as_slice() {
        copies.push(case.clone_in(alloc)?)?;
    }
    Ok(copies)
}

/// An `If` that has the copy of its consequent.
#[cycle(copy_tree)]
fn if_copy(
    alloc: Global,
    alternate: &Option<ReactiveBlock>,
    test: Place,
    consequent: ReactiveBlock,
    id: EvaluationOrder,
) -> Result<ReactiveTerminal, AllocError>
    ensures { IfOk result (λ copy. copy ≡ ReactiveTerminal.If test consequent alternate.now id) }
{
    let alternate = copied_block(alloc, alternate)?;
    Ok(ReactiveTerminal::If {
        test,
        consequent,
        alternate,
        id,
    })
}

/// A `Try` that has the copy of its block.
#[cycle(copy_tree)]
fn try_copy(
    alloc: Global,
    handler: &ReactiveBlock,
    block: ReactiveBlock,
    handler_binding: Option<Place>,
    id: EvaluationOrder,
) -> Result<ReactiveTerminal, AllocError>
    ensures { IfOk result (λ copy. copy ≡ ReactiveTerminal.Try block handler_binding handler.now id) }
{
    let handler = handler.clone_in(alloc)?;
    Ok(ReactiveTerminal::Try {
        block,
        handler_binding,
        handler,
        id,
    })
}

/// A `DoWhile` that has the copy of its block.
fn do_while_copy(
    alloc: Global,
    loop_block: ReactiveBlock,
    test: &Boxed<ReactiveValue>,
    id: EvaluationOrder,
) -> Result<ReactiveTerminal, AllocError>
    ensures { IfOk result (λ copy. copy ≡ ReactiveTerminal.DoWhile loop_block test.now id) }
{
    let test = boxed_copy(alloc, test.get())?;
    Ok(ReactiveTerminal::DoWhile {
        loop_block,
        test,
        id,
    })
}

/// A `While` that has the copy of its block.
fn while_copy(
    alloc: Global,
    test: &Boxed<ReactiveValue>,
    loop_block: ReactiveBlock,
    id: EvaluationOrder,
) -> Result<ReactiveTerminal, AllocError>
    ensures { IfOk result (λ copy. copy ≡ ReactiveTerminal.While test.now loop_block id) }
{
    let test = boxed_copy(alloc, test.get())?;
    Ok(ReactiveTerminal::While {
        test,
        loop_block,
        id,
    })
}

/// A `For` that has the copy of its block.
fn for_copy(
    alloc: Global,
    init: &Boxed<ReactiveValue>,
    test: &Boxed<ReactiveValue>,
    update: &Option<Boxed<ReactiveValue>>,
    loop_block: ReactiveBlock,
    id: EvaluationOrder,
) -> Result<ReactiveTerminal, AllocError>
    ensures { IfOk result (λ copy. copy ≡ ReactiveTerminal.For init.now test.now update.now loop_block id) }
{
    let update = copied_value(alloc, update)?;
    let (init, test) = copied_pair(alloc, init, test)?;
    Ok(ReactiveTerminal::For {
        init,
        test,
        update,
        loop_block,
        id,
    })
}

/// A `ForOf` that has the copy of its block.
fn for_of_copy(
    alloc: Global,
    init: &Boxed<ReactiveValue>,
    test: &Boxed<ReactiveValue>,
    loop_block: ReactiveBlock,
    span: Option<Span>,
    id: EvaluationOrder,
) -> Result<ReactiveTerminal, AllocError>
    ensures { IfOk result (λ copy. copy ≡ ReactiveTerminal.ForOf init.now test.now loop_block span id) }
{
    let (init, test) = copied_pair(alloc, init, test)?;
    Ok(ReactiveTerminal::ForOf {
        init,
        test,
        loop_block,
        span,
        id,
    })
}

/// A `ForIn` that has the copy of its block.
fn for_in_copy(
    alloc: Global,
    init: &Boxed<ReactiveValue>,
    loop_block: ReactiveBlock,
    span: Option<Span>,
    id: EvaluationOrder,
) -> Result<ReactiveTerminal, AllocError>
    ensures { IfOk result (λ copy. copy ≡ ReactiveTerminal.ForIn init.now loop_block span id) }
{
    let init = boxed_copy(alloc, init.get())?;
    Ok(ReactiveTerminal::ForIn {
        init,
        loop_block,
        span,
        id,
    })
}

/// A copy of an optional value.
fn copied_value(
    alloc: Global,
    value: &Option<Boxed<ReactiveValue>>,
) -> Result<Option<Boxed<ReactiveValue>>, AllocError>
    ensures { IfOk result (λ copy. copy ≡ value.now) }
{
    match value {
        Some(value) => Ok(Some(boxed_copy(alloc, value.get())?)),
        None => Ok(None),
    }
}

/// Copies of two values.
fn copied_pair(
    alloc: Global,
    first: &Boxed<ReactiveValue>,
    second: &Boxed<ReactiveValue>,
) -> Result<(Boxed<ReactiveValue>, Boxed<ReactiveValue>), AllocError>
    ensures { IfOk result (λ copies. copies ≡ (first.now, second.now)) }
{
    let first = boxed_copy(alloc, first.get())?;
    let second = boxed_copy(alloc, second.get())?;
    Ok((first, second))
}

impl CloneIn for ReactiveFunction {
    fn clone_in(&self, alloc: Global) -> Result<ReactiveFunction, AllocError> {
        Ok(ReactiveFunction {
            span: self.span,
            id: self.id.clone_in(alloc)?,
            name_hint: self.name_hint.clone_in(alloc)?,
            params: self.params.copy_in(alloc)?,
            generator: self.generator,
            is_async: self.is_async,
            body: self.body.clone_in(alloc)?,
            directives: self.directives.clone_in(alloc)?,
        })
    }
}
