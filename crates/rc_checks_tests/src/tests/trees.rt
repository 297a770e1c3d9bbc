//! Parts of small trees: rows, terminals that are statements, scope blocks, lists of statements, functions.

use rc_hir::{Effect, InstructionValue, Place};
use rc_names::{BlockId, Boxed, EvaluationOrder, IdentifierId, List, ScopeId};
use rc_tree::{
    PrunedReactiveScopeBlock, ReactiveBlock, ReactiveFunction, ReactiveInstruction, ReactiveLabel,
    ReactiveScopeBlock, ReactiveStatement, ReactiveSwitchCase, ReactiveTerminal,
    ReactiveTerminalStatement, ReactiveTerminalTargetKind, ReactiveValue,
};
use std::alloc::{AllocError, Global};

/// A place that is read.
fn place(number: u32) -> Place {
    Place {
        identifier: IdentifierId::new(number),
        effect: Effect::Read,
        reactive: false,
        span: None,
    }
}

/// A value that loads a place.
fn loaded(number: u32) -> ReactiveValue {
    ReactiveValue::Instruction(InstructionValue::LoadLocal {
        place: place(number),
        span: None,
    })
}

/// A row without a target.
fn row_of(id: u32, value: ReactiveValue) -> ReactiveStatement {
    ReactiveStatement::Instruction(ReactiveInstruction {
        id: EvaluationOrder::new(id),
        lvalue: None,
        value,
        span: None,
    })
}

/// A row that does nothing.
pub fn row(id: u32) -> ReactiveStatement {
    let value = InstructionValue::Debugger { span: None };
    row_of(id, ReactiveValue::Instruction(value))
}

/// A row that loads a place.
pub fn load(id: u32, number: u32) -> ReactiveStatement {
    row_of(id, loaded(number))
}

/// The statement of a terminal, with a label of that number where there is one, which isn't implicit.
pub fn statement(
    alloc: Global,
    terminal: ReactiveTerminal,
    label: Option<u32>,
) -> Result<ReactiveStatement, AllocError> {
    let stmt = ReactiveTerminalStatement {
        terminal,
        label: label.map(|number| ReactiveLabel {
            id: BlockId::new(number),
            implicit: false,
        }),
    };
    Ok(ReactiveStatement::Terminal(Boxed::new(alloc, stmt)?))
}

/// A block of statements.
pub fn block(statements: List<ReactiveStatement>) -> ReactiveBlock {
    ReactiveBlock { statements }
}

/// A break.
pub fn break_to(
    alloc: Global,
    id: u32,
    target: u32,
    target_kind: ReactiveTerminalTargetKind,
) -> Result<ReactiveStatement, AllocError> {
    let terminal = ReactiveTerminal::Break {
        target: BlockId::new(target),
        target_kind,
        id: EvaluationOrder::new(id),
    };
    statement(alloc, terminal, None)
}

/// A labeled continue.
pub fn continue_to(alloc: Global, id: u32, target: u32) -> Result<ReactiveStatement, AllocError> {
    let terminal = ReactiveTerminal::Continue {
        target: BlockId::new(target),
        target_kind: ReactiveTerminalTargetKind::Labeled,
        id: EvaluationOrder::new(id),
    };
    statement(alloc, terminal, None)
}

/// A return of a place.
pub fn return_of(alloc: Global, id: u32, number: u32) -> Result<ReactiveStatement, AllocError> {
    let terminal = ReactiveTerminal::Return {
        value: place(number),
        id: EvaluationOrder::new(id),
    };
    statement(alloc, terminal, None)
}

/// A return of `$0`.
pub fn return_at(alloc: Global, id: u32) -> Result<ReactiveStatement, AllocError> {
    return_of(alloc, id, 0)
}

/// A `Label` around statements.
pub fn label_around(
    alloc: Global,
    id: u32,
    label: Option<u32>,
    statements: List<ReactiveStatement>,
) -> Result<ReactiveStatement, AllocError> {
    let terminal = ReactiveTerminal::Label {
        block: block(statements),
        id: EvaluationOrder::new(id),
    };
    statement(alloc, terminal, label)
}

/// An if without an alternate.
pub fn if_then(
    alloc: Global,
    id: u32,
    label: Option<u32>,
    statements: List<ReactiveStatement>,
) -> Result<ReactiveStatement, AllocError> {
    let terminal = ReactiveTerminal::If {
        test: place(0),
        consequent: block(statements),
        alternate: None,
        id: EvaluationOrder::new(id),
    };
    statement(alloc, terminal, label)
}

/// A while around statements.
pub fn while_around(
    alloc: Global,
    id: u32,
    label: u32,
    statements: List<ReactiveStatement>,
) -> Result<ReactiveStatement, AllocError> {
    let terminal = ReactiveTerminal::While {
        test: Boxed::new(alloc, loaded(0))?,
        loop_block: block(statements),
        id: EvaluationOrder::new(id),
    };
    statement(alloc, terminal, Some(label))
}

/// A switch whose one case holds the statements.
pub fn switch_around(
    alloc: Global,
    id: u32,
    label: u32,
    statements: List<ReactiveStatement>,
) -> Result<ReactiveStatement, AllocError> {
    let mut cases = List::new(alloc);
    cases.push(ReactiveSwitchCase {
        test: None,
        block: Some(block(statements)),
    })?;
    let terminal = ReactiveTerminal::Switch {
        test: place(0),
        cases,
        id: EvaluationOrder::new(id),
    };
    statement(alloc, terminal, Some(label))
}

/// A scope block around statements.
pub fn scope_around(number: u32, statements: List<ReactiveStatement>) -> ReactiveStatement {
    ReactiveStatement::Scope(ReactiveScopeBlock {
        scope: ScopeId::new(number),
        instructions: block(statements),
    })
}

/// A pruned scope block around statements.
pub fn pruned_scope_around(number: u32, statements: List<ReactiveStatement>) -> ReactiveStatement {
    ReactiveStatement::PrunedScope(PrunedReactiveScopeBlock {
        scope: ScopeId::new(number),
        instructions: block(statements),
    })
}

/// A list of one statement.
pub fn only(
    alloc: Global,
    statement: ReactiveStatement,
) -> Result<List<ReactiveStatement>, AllocError> {
    let mut statements = List::new(alloc);
    statements.push(statement)?;
    Ok(statements)
}

/// A list with one more statement after the others.
pub fn behind(
    mut statements: List<ReactiveStatement>,
    last: ReactiveStatement,
) -> Result<List<ReactiveStatement>, AllocError> {
    statements.push(last)?;
    Ok(statements)
}

/// A list of two statements.
pub fn both(
    alloc: Global,
    first: ReactiveStatement,
    second: ReactiveStatement,
) -> Result<List<ReactiveStatement>, AllocError> {
    behind(only(alloc, first)?, second)
}

/// A function with that body and nothing else.
pub fn function(alloc: Global, statements: List<ReactiveStatement>) -> ReactiveFunction {
    ReactiveFunction {
        span: None,
        id: None,
        name_hint: None,
        params: List::new(alloc),
        generator: false,
        is_async: false,
        body: block(statements),
        directives: List::new(alloc),
    }
}
