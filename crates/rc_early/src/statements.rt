//! The statements of an early return.

ghost use Rattle.std.specs.Prelude.{◌≡◌, ◌+◌, ◌<◌, ◌≤◌, ◌^◌, IfOk, Some};
ghost use Rattle.rc_early.specs.Statements as spec;

use crate::early_return::Sentinel;
use rc_hir::{
    Effect, InstructionKind, InstructionValue, LValue, NonLocalBinding, Place, PlaceOrSpread,
    PrimitiveValue, PropertyLiteral, ReactiveScopeEarlyReturn,
};
use rc_names::{Boxed, EvaluationOrder, IdentifierId, List, Span, Text};
use rc_tree::{
    ReactiveBlock, ReactiveInstruction, ReactiveLabel, ReactiveStatement, ReactiveTerminal,
    ReactiveTerminalStatement, ReactiveTerminalTargetKind, ReactiveValue,
};
use std::alloc::{AllocError, Global};

/// Offsets of the temporaries' numbers from the variable's: its first value, `Symbol`, `Symbol.for`, and the argument.
const SENTINEL: u32 = 1;

const SYMBOL: u32 = 2;

const FOR: u32 = 3;

const ARGUMENT: u32 = 4;

/// The statements in the place of a `Return`: a store to the variable, and a jump to the label.
pub(crate) fn stored_return(
    alloc: Global,
    entry: ReactiveScopeEarlyReturn,
    place: Place,
) -> Result<List<ReactiveStatement>, AllocError>
    ensures { IfOk result (λ list. list ≡ spec.stored_return entry place) }
{
    let jump = ReactiveTerminalStatement {
        terminal: ReactiveTerminal::Break {
            target: entry.label,
            target_kind: ReactiveTerminalTargetKind::Labeled,
            id: EvaluationOrder::UNSET,
        },
        label: None,
    };
    let kind = InstructionKind::Reassign;
    let store = store(kind, Effect::Capture, entry.value, place.span, place);
    let mut list = List::with_capacity(alloc, 2)?;
    list.push(store)?;
    list.push(ReactiveStatement::Terminal(Boxed::new(alloc, jump)?))?;
    Ok(list)
}

/// The new statements of a block: a store of the sentinel into the variable, then the old statements under the label.
pub(crate) fn after_sentinel(
    alloc: Global,
    sentinel: &Sentinel,
    block: ReactiveBlock,
) -> Result<List<ReactiveStatement>, AllocError>
    ensures { IfOk result (λ list. list ≡ spec.after_sentinel sentinel.now block) }
{
    let entry = sentinel.entry();
    let value = temporary(sentinel, SENTINEL);
    let kind = InstructionKind::Let;
    let effect = Effect::ConditionallyMutate;
    let mut list = List::with_capacity(alloc, 6)?;
    list.push(load_symbol(alloc, sentinel)?)?;
    list.push(load_for(alloc, sentinel)?)?;
    list.push(load_argument(alloc, sentinel)?)?;
    list.push(call(alloc, sentinel)?)?;
    list.push(store(kind, effect, entry.value, entry.span, value))?;
    list.push(labeled(alloc, entry, block)?)?;
    Ok(list)
}

/// The row that loads `Symbol`.
fn load_symbol(alloc: Global, sentinel: &Sentinel) -> Result<ReactiveStatement, AllocError>
    ensures { IfOk result (λ row. row ≡ spec.load_symbol sentinel.now) }
{
    let span = sentinel.entry().span;
    let name = Text::from_str(alloc, "Symbol")?;
    let value = InstructionValue::LoadGlobal {
        binding: NonLocalBinding::Global { name },
        span,
    };
    Ok(added_row(span, Some(temporary(sentinel, SYMBOL)), value))
}

/// The row that loads the property `for` of `Symbol`.
fn load_for(alloc: Global, sentinel: &Sentinel) -> Result<ReactiveStatement, AllocError>
    ensures { IfOk result (λ row. row ≡ spec.load_for sentinel.now) }
{
    let span = sentinel.entry().span;
    let value = InstructionValue::PropertyLoad {
        object: temporary(sentinel, SYMBOL),
        property: PropertyLiteral::String(Text::from_str(alloc, "for")?),
        span,
    };
    Ok(added_row(span, Some(temporary(sentinel, FOR)), value))
}

/// The row with the argument of the call, the sentinel's name.
fn load_argument(alloc: Global, sentinel: &Sentinel) -> Result<ReactiveStatement, AllocError>
    ensures { IfOk result (λ row. row ≡ spec.load_argument sentinel.now) }
{
    let span = sentinel.entry().span;
    let name = Text::from_str(alloc, "react.early_return_sentinel")?;
    let value = InstructionValue::Primitive {
        value: PrimitiveValue::String(name),
        span,
    };
    Ok(added_row(span, Some(temporary(sentinel, ARGUMENT)), value))
}

/// The row that calls `Symbol.for`.
fn call(alloc: Global, sentinel: &Sentinel) -> Result<ReactiveStatement, AllocError>
    ensures { IfOk result (λ row. row ≡ spec.call sentinel.now) }
{
    let span = sentinel.entry().span;
    let mut args = List::with_capacity(alloc, 1)?;
    args.push(PlaceOrSpread::Place(temporary(sentinel, ARGUMENT)))?;
    let value = InstructionValue::MethodCall {
        receiver: temporary(sentinel, SYMBOL),
        property: temporary(sentinel, FOR),
        args,
        span,
    };
    Ok(added_row(span, Some(temporary(sentinel, SENTINEL)), value))
}

/// The statements of a block under the label.
fn labeled(
    alloc: Global,
    entry: ReactiveScopeEarlyReturn,
    block: ReactiveBlock,
) -> Result<ReactiveStatement, AllocError>
    ensures { IfOk result (λ statement. statement ≡ spec.labeled entry block) }
{
    let statement = ReactiveTerminalStatement {
        terminal: ReactiveTerminal::Label {
            block,
            id: EvaluationOrder::UNSET,
        },
        label: Some(ReactiveLabel {
            id: entry.label,
            implicit: false,
        }),
    };
    Ok(ReactiveStatement::Terminal(Boxed::new(alloc, statement)?))
}

/// The place of a temporary.
fn temporary(sentinel: &Sentinel, step: u32) -> Place
    requires { step ≤ 4 }
    ensures { result ≡ spec.temporary sentinel.now.value step }
{
    let variable = sentinel.entry().value;
    Place {
        identifier: IdentifierId::new(variable.0 + step),
        effect: Effect::Unknown,
        reactive: false,
        span: None,
    }
}

/// A row that stores a place to the variable.
fn store(
    kind: InstructionKind,
    effect: Effect,
    variable: IdentifierId,
    span: Option<Span>,
    from: Place,
) -> ReactiveStatement
    ensures { result ≡ spec.store kind effect variable span from }
{
    let place = Place {
        identifier: variable,
        effect,
        reactive: true,
        span,
    };
    let value = InstructionValue::StoreLocal {
        lvalue: LValue { kind, place },
        value: from,
        span,
    };
    added_row(span, None, value)
}

/// A row that the pass adds.
fn added_row(
    span: Option<Span>,
    target: Option<Place>,
    value: InstructionValue,
) -> ReactiveStatement
    ensures { result ≡ spec.added_row span target value }
{
    ReactiveStatement::Instruction(ReactiveInstruction {
        id: EvaluationOrder::UNSET,
        lvalue: target,
        value: ReactiveValue::Instruction(value),
        span,
    })
}
