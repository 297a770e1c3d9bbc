//! Rows and values, each beside the visits of its inside.

use crate::tests::parts::Written;
use crate::tests::recorder::{Part, Visit};
use crate::tests::trees::{SPAN, load, load_visits, place, row};
use rc_hir::{
    ArrayPatternElement, InstructionKind, InstructionValue, LValue, LValuePattern, LogicalOperator,
    Pattern, PlaceOrSpread, SpreadPattern,
};
use rc_names::{Boxed, EvaluationOrder, List, Text};
use rc_tree::ReactiveValue;
use std::alloc::{AllocError, Global};

/// A store: the id, the row's target, the store's, then the value.
pub fn put_store(written: &mut Written) -> Result<(), AllocError> {
    let store = InstructionValue::StoreLocal {
        lvalue: LValue {
            kind: InstructionKind::Const,
            place: place(3),
        },
        value: place(1),
        span: SPAN,
    };
    let mut store = row(40, ReactiveValue::Instruction(store));
    store.lvalue = Some(place(2));
    let targets = [Visit::Id(40), Visit::Target(40, 2), Visit::Target(40, 3)];
    written.put_row(store, &[&targets, &load_visits(40, 1)])
}

/// A pattern writes each of its places, and no hole.
pub fn put_destructure(alloc: Global, written: &mut Written) -> Result<(), AllocError> {
    let items = [
        ArrayPatternElement::Place(place(4)),
        ArrayPatternElement::Hole,
        ArrayPatternElement::Spread(SpreadPattern { place: place(5) }),
    ];
    let destructure = InstructionValue::Destructure {
        lvalue: LValuePattern {
            kind: InstructionKind::Let,
            pattern: Pattern::Array {
                items: List::from_slice(alloc, &items)?,
            },
        },
        value: place(1),
        span: SPAN,
    };
    let targets = [Visit::Id(41), Visit::Target(41, 4), Visit::Target(41, 5)];
    written.put_row(
        row(41, ReactiveValue::Instruction(destructure)),
        &[&targets, &load_visits(41, 1)],
    )
}

/// A declaration has a target and no operand; a store into a context has its target among its operands.
pub fn put_contexts(written: &mut Written) -> Result<(), AllocError> {
    let lvalue = LValue {
        kind: InstructionKind::Let,
        place: place(6),
    };
    let declare = InstructionValue::DeclareLocal { lvalue, span: SPAN };
    let value = [Visit::Enter(Part::Value(42)), Visit::Leave(Part::Value(42))];
    written.put_row(
        row(42, ReactiveValue::Instruction(declare)),
        &[&[Visit::Id(42), Visit::Target(42, 6)], &value],
    )?;

    let store = InstructionValue::StoreContext {
        lvalue,
        value: place(1),
        span: SPAN,
    };
    let value = [
        Visit::Enter(Part::Value(43)),
        Visit::Operand(43, 6),
        Visit::Operand(43, 1),
        Visit::Leave(Part::Value(43)),
    ];
    written.put_row(
        row(43, ReactiveValue::Instruction(store)),
        &[&[Visit::Id(43), Visit::Target(43, 6)], &value],
    )
}

/// An update writes one place and reads another.
pub fn put_update(alloc: Global, written: &mut Written) -> Result<(), AllocError> {
    let update = InstructionValue::PrefixUpdate {
        lvalue: place(3),
        operation: Text::from_str(alloc, "++")?,
        value: place(4),
        span: SPAN,
    };
    written.put_row(
        row(44, ReactiveValue::Instruction(update)),
        &[&[Visit::Id(44), Visit::Target(44, 3)], &load_visits(44, 4)],
    )
}

/// A call reads its callee and then its arguments, a spread as its place.
pub fn put_call(alloc: Global, written: &mut Written) -> Result<(), AllocError> {
    let args = [
        PlaceOrSpread::Place(place(2)),
        PlaceOrSpread::Spread(SpreadPattern { place: place(3) }),
    ];
    let call = InstructionValue::CallExpression {
        callee: place(1),
        args: List::from_slice(alloc, &args)?,
        span: SPAN,
    };
    let value = [
        Visit::Enter(Part::Value(45)),
        Visit::Operand(45, 1),
        Visit::Operand(45, 2),
        Visit::Operand(45, 3),
        Visit::Leave(Part::Value(45)),
    ];
    written.put_row(
        row(45, ReactiveValue::Instruction(call)),
        &[&[Visit::Id(45)], &value],
    )
}

/// A logical, a conditional and an optional walk their parts at the given id.
pub fn put_expressions(alloc: Global, written: &mut Written) -> Result<(), AllocError> {
    let logical = ReactiveValue::LogicalExpression {
        operator: LogicalOperator::Coalesce,
        left: Boxed::new(alloc, load(1))?,
        right: Boxed::new(alloc, load(2))?,
    };
    let conditional = ReactiveValue::ConditionalExpression {
        test: Boxed::new(alloc, logical)?,
        consequent: Boxed::new(alloc, load(3))?,
        alternate: Boxed::new(alloc, load(4))?,
    };
    let optional = ReactiveValue::OptionalExpression {
        value: Boxed::new(alloc, conditional)?,
        optional: true,
    };
    let enter = Visit::Enter(Part::Value(46));
    let leave = Visit::Leave(Part::Value(46));
    written.put_row(
        row(46, optional),
        &[
            &[Visit::Id(46), enter, enter, enter],
            &load_visits(46, 1),
            &load_visits(46, 2),
            &[leave],
            &load_visits(46, 3),
            &load_visits(46, 4),
            &[leave, leave],
        ],
    )
}

/// A sequence walks its rows, and then its value at its own id.
pub fn put_sequence(alloc: Global, written: &mut Written) -> Result<(), AllocError> {
    let mut instructions = List::new(alloc);
    instructions.push(row(48, load(1)))?;
    let sequence = ReactiveValue::SequenceExpression {
        instructions,
        id: EvaluationOrder::new(49),
        value: Boxed::new(alloc, load(2))?,
    };
    written.put_row(
        row(47, sequence),
        &[
            &[Visit::Id(47), Visit::Enter(Part::Value(47))],
            &[Visit::Enter(Part::Row(48)), Visit::Id(48)],
            &load_visits(48, 1),
            &[Visit::Leave(Part::Row(48))],
            &load_visits(49, 2),
            &[Visit::Leave(Part::Value(47))],
        ],
    )
}
