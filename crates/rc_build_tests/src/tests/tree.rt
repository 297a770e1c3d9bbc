//! The tree that the graph spells, or one that differs from it in one place.

use super::graph::{LOOP_SPAN, ROW_SPAN, iterator, next_value, params, place, property};
use rc_hir::{Effect, InstructionValue, Place, PrimitiveValue};
use rc_names::{BlockId, Boxed, EvaluationOrder, List, Span};
use rc_tree::{
    ReactiveBlock, ReactiveFunction, ReactiveInstruction, ReactiveLabel, ReactiveStatement,
    ReactiveSwitchCase, ReactiveTerminal, ReactiveTerminalStatement,
    ReactiveTerminalTargetKind as Kind, ReactiveValue,
};
use std::alloc::{AllocError, Global};

/// The place in which a tree differs.
#[derive(Clone, Copy, Debug, PartialEq, Eq)]
pub enum Change {
    Nothing,
    /// The label of the switch names another block.
    Label,
    /// No labeled jump is said to name the label of the switch.
    ImplicitLabel,
    /// The loop has no label.
    NoLabel,
    /// The first row has another id.
    RowId,
    /// The switch has another id.
    TerminalId,
    /// The row that flattening adds has another id.
    FlatRowId,
    /// The sequence of the loop's test has another id.
    SequenceId,
    /// The first row has no span.
    RowSpan,
    /// The loop has no span.
    LoopSpan,
    /// The row that flattening adds has no span.
    FlatRowSpan,
    /// The value after the rows of the loop's init has no span.
    UndefinedSpan,
    /// The labeled break is unlabeled.
    BreakKind,
    /// The implicit continue is unlabeled.
    ContinueKind,
    /// The labeled break leaves the loop.
    BreakTarget,
    /// The case of the test has no row.
    DroppedRow,
    /// The return is left out.
    DroppedReturn,
    /// The two cases are in the other order.
    ExchangedCases,
    /// The default has no block.
    NoBlock,
    /// The default has a test.
    CaseTest,
    /// The first row loads another property.
    Text,
    /// The row in the case is of another kind.
    Instruction,
    /// The first row has no target.
    NoTarget,
    /// The return gives another name.
    Identifier,
    /// The place that is returned has another effect.
    Effect,
    /// The place that is returned is marked reactive.
    Reactive,
    /// The place that is returned has a span.
    PlaceSpan,
    /// The function is a generator.
    Header,
    /// The function has no parameters.
    Parameters,
}

impl Change {
    /// The second number where the tree differs here, and otherwise the first.
    fn number(self, here: Change, number: u32, other: u32) -> u32 {
        if self == here { other } else { number }
    }

    /// An id.
    fn id(self, here: Change, number: u32, other: u32) -> EvaluationOrder {
        EvaluationOrder::new(self.number(here, number, other))
    }

    /// The span, or none where the tree differs here.
    fn span(self, here: Change, span: Option<Span>) -> Option<Span> {
        if self == here { None } else { span }
    }

    /// The kind, or `Unlabeled` where the tree differs here.
    fn kind(self, here: Change, kind: Kind) -> Kind {
        if self == here { Kind::Unlabeled } else { kind }
    }
}

/// A row.
pub fn row(
    id: EvaluationOrder,
    lvalue: Option<Place>,
    value: InstructionValue,
    span: Option<Span>,
) -> ReactiveInstruction {
    ReactiveInstruction {
        id,
        lvalue,
        value: ReactiveValue::Instruction(value),
        span,
    }
}

/// The statement of a terminal.
pub fn statement(
    alloc: Global,
    terminal: ReactiveTerminal,
    label: Option<ReactiveLabel>,
) -> Result<ReactiveStatement, AllocError> {
    let stmt = ReactiveTerminalStatement { terminal, label };
    Ok(ReactiveStatement::Terminal(Boxed::new(alloc, stmt)?))
}

/// The row before the switch.
fn first_row(alloc: Global, change: Change) -> Result<ReactiveStatement, AllocError> {
    let value = property(alloc, if change == Change::Text { "c" } else { "b" })?;
    let target = if change == Change::NoTarget {
        None
    } else {
        Some(place(2))
    };
    let id = change.id(Change::RowId, 1, 13);
    let span = change.span(Change::RowSpan, ROW_SPAN);
    Ok(ReactiveStatement::Instruction(row(id, target, value, span)))
}

/// A break.
pub fn break_to(
    alloc: Global,
    target: u32,
    target_kind: Kind,
    id: u32,
) -> Result<ReactiveStatement, AllocError> {
    let terminal = ReactiveTerminal::Break {
        target: BlockId::new(target),
        target_kind,
        id: EvaluationOrder::new(id),
    };
    statement(alloc, terminal, None)
}

/// The row in the case of a test.
fn row_in_case(change: Change) -> ReactiveStatement {
    let value = if change == Change::Instruction {
        InstructionValue::LoadLocal {
            place: place(0),
            span: None,
        }
    } else {
        InstructionValue::Debugger { span: None }
    };
    ReactiveStatement::Instruction(row(EvaluationOrder::new(3), Some(place(3)), value, None))
}

/// The case of a test: a row, and a break that is inside the frame of the default too.
fn tested_case(alloc: Global, change: Change) -> Result<ReactiveSwitchCase, AllocError> {
    let mut statements = List::new(alloc);
    if change != Change::DroppedRow {
        statements.push(row_in_case(change))?;
    }
    let target = change.number(Change::BreakTarget, 3, 7);
    let kind = change.kind(Change::BreakKind, Kind::Labeled);
    statements.push(break_to(alloc, target, kind, 4)?)?;
    Ok(ReactiveSwitchCase {
        test: Some(place(1)),
        block: Some(ReactiveBlock { statements }),
    })
}

/// The default: a break.
fn default_case(alloc: Global, change: Change) -> Result<ReactiveSwitchCase, AllocError> {
    if change == Change::NoBlock {
        return Ok(ReactiveSwitchCase {
            test: None,
            block: None,
        });
    }
    let mut statements = List::new(alloc);
    statements.push(break_to(alloc, 3, Kind::Implicit, 5)?)?;
    Ok(ReactiveSwitchCase {
        test: if change == Change::CaseTest {
            Some(place(1))
        } else {
            None
        },
        block: Some(ReactiveBlock { statements }),
    })
}

/// The cases of the switch.
fn cases(alloc: Global, change: Change) -> Result<List<ReactiveSwitchCase>, AllocError> {
    let mut cases = List::new(alloc);
    cases.push(tested_case(alloc, change)?)?;
    cases.push(default_case(alloc, change)?)?;
    if change == Change::ExchangedCases {
        cases.reverse();
    }
    Ok(cases)
}

/// The switch.
fn switch(alloc: Global, change: Change) -> Result<ReactiveStatement, AllocError> {
    let cases = cases(alloc, change)?;
    let terminal = ReactiveTerminal::Switch {
        test: place(0),
        cases,
        id: change.id(Change::TerminalId, 2, 13),
    };
    let label = ReactiveLabel {
        id: BlockId::new(change.number(Change::Label, 3, 4)),
        implicit: change == Change::ImplicitLabel,
    };
    statement(alloc, terminal, Some(label))
}

/// A sequence of one row, which has no value of its own.
fn flat(
    alloc: Global,
    row: ReactiveInstruction,
    id: EvaluationOrder,
    span: Option<Span>,
) -> Result<Boxed<ReactiveValue>, AllocError> {
    let mut instructions = List::new(alloc);
    instructions.push(row)?;
    let undefined = InstructionValue::Primitive {
        value: PrimitiveValue::Undefined,
        span,
    };
    let value = ReactiveValue::SequenceExpression {
        instructions,
        id,
        value: Boxed::new(alloc, ReactiveValue::Instruction(undefined))?,
    };
    Boxed::new(alloc, value)
}

/// The init of the loop: its row is the one that flattening adds.
fn init(alloc: Global, change: Change) -> Result<Boxed<ReactiveValue>, AllocError> {
    let id = change.id(Change::FlatRowId, 7, 13);
    let span = change.span(Change::FlatRowSpan, LOOP_SPAN);
    let behind = change.span(Change::UndefinedSpan, LOOP_SPAN);
    let added = row(id, Some(place(4)), iterator(), span);
    flat(alloc, added, EvaluationOrder::new(7), behind)
}

/// The test of the loop.
fn test(alloc: Global, change: Change) -> Result<Boxed<ReactiveValue>, AllocError> {
    let added = row(
        EvaluationOrder::new(9),
        Some(place(5)),
        next_value(),
        LOOP_SPAN,
    );
    flat(
        alloc,
        added,
        change.id(Change::SequenceId, 9, 13),
        LOOP_SPAN,
    )
}

/// The body of the loop: a continue.
fn body(alloc: Global, change: Change) -> Result<ReactiveBlock, AllocError> {
    let terminal = ReactiveTerminal::Continue {
        target: BlockId::new(7),
        target_kind: change.kind(Change::ContinueKind, Kind::Implicit),
        id: EvaluationOrder::new(11),
    };
    let mut statements = List::new(alloc);
    statements.push(statement(alloc, terminal, None)?)?;
    Ok(ReactiveBlock { statements })
}

/// The label of the loop.
fn loop_label(change: Change) -> Option<ReactiveLabel> {
    if change == Change::NoLabel {
        return None;
    }
    Some(ReactiveLabel {
        id: BlockId::new(7),
        implicit: false,
    })
}

/// The loop.
fn for_of(alloc: Global, change: Change) -> Result<ReactiveStatement, AllocError> {
    let loop_block = body(alloc, change)?;
    let init = init(alloc, change)?;
    let terminal = ReactiveTerminal::ForOf {
        init,
        test: test(alloc, change)?,
        loop_block,
        span: change.span(Change::LoopSpan, LOOP_SPAN),
        id: EvaluationOrder::new(6),
    };
    statement(alloc, terminal, loop_label(change))
}

/// The place that is returned.
fn returned(change: Change) -> Place {
    let mut returned = place(change.number(Change::Identifier, 3, 2));
    if change == Change::Effect {
        returned.effect = Effect::Freeze;
    }
    returned.reactive = change == Change::Reactive;
    if change == Change::PlaceSpan {
        returned.span = ROW_SPAN;
    }
    returned
}

/// The return.
fn end(alloc: Global, change: Change) -> Result<ReactiveStatement, AllocError> {
    let terminal = ReactiveTerminal::Return {
        value: returned(change),
        id: EvaluationOrder::new(12),
    };
    statement(alloc, terminal, None)
}

/// The statements of the tree.
fn statements(alloc: Global, change: Change) -> Result<List<ReactiveStatement>, AllocError> {
    let mut statements = List::new(alloc);
    statements.push(first_row(alloc, change)?)?;
    statements.push(switch(alloc, change)?)?;
    statements.push(for_of(alloc, change)?)?;
    if change != Change::DroppedReturn {
        statements.push(end(alloc, change)?)?;
    }
    Ok(statements)
}

/// A function of these statements, with the two parameters.
pub fn function_of(
    alloc: Global,
    statements: List<ReactiveStatement>,
) -> Result<ReactiveFunction, AllocError> {
    let params = params(alloc)?;
    Ok(ReactiveFunction {
        span: None,
        id: None,
        name_hint: None,
        params,
        generator: false,
        is_async: false,
        body: ReactiveBlock { statements },
        directives: List::new(alloc),
    })
}

/// The tree that the graph spells, but for that change.
pub fn tree(alloc: Global, change: Change) -> Result<ReactiveFunction, AllocError> {
    let mut func = function_of(alloc, statements(alloc, change)?)?;
    if change == Change::Parameters {
        func.params = List::new(alloc);
    }
    func.generator = change == Change::Header;
    Ok(func)
}

/// A tree for each place in which it may differ.
pub const CHANGES: [Change; 28] = [
    Change::Label,
    Change::ImplicitLabel,
    Change::NoLabel,
    Change::RowId,
    Change::TerminalId,
    Change::FlatRowId,
    Change::SequenceId,
    Change::RowSpan,
    Change::LoopSpan,
    Change::FlatRowSpan,
    Change::UndefinedSpan,
    Change::BreakKind,
    Change::ContinueKind,
    Change::BreakTarget,
    Change::DroppedRow,
    Change::DroppedReturn,
    Change::ExchangedCases,
    Change::NoBlock,
    Change::CaseTest,
    Change::Text,
    Change::Instruction,
    Change::NoTarget,
    Change::Identifier,
    Change::Effect,
    Change::Reactive,
    Change::PlaceSpan,
    Change::Header,
    Change::Parameters,
];
