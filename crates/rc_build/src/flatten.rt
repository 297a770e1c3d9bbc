//! Flattening of a loop's part: its rows and its value are put in one sequence, whose own value is `undefined`.
//!
//! After the loops of oxc's build_reactive_function.

ghost use Rattle.std.specs.Prelude.{◌≡◌, ◌++◌, IfOk};
ghost use Rattle.rc_runs.specs.Flattened as spec;
ghost use Rattle.rc_runs.specs.PlainTree.{Base, Value};
ghost use Rattle.rc_runs.specs.TreeOf.{instructions_of, value_of};

use crate::value_rows::base_value;
use rc_hir::{InstructionValue, Place, PrimitiveValue};
use rc_names::{Boxed, EvaluationOrder, List, Span};
use rc_tree::{Opened, ReactiveInstruction, ReactiveValue};
use std::alloc::{AllocError, Global};

/// The value flattened, in a loop with that span. The only error is out of memory.
pub fn flattened(
    alloc: Global,
    value: Boxed<ReactiveValue>,
    answer: Place,
    id: EvaluationOrder,
    span: Option<Span>,
) -> Result<Boxed<ReactiveValue>, AllocError>
    ensures { (plain : Value) → value ≡ value_of plain → IfOk result (λ whole.
        whole ≡ value_of (spec.flattened answer id span plain)) }
{
    let flat = flat_rows(alloc, value)?;
    let instructions = with_final_row(flat, answer, id, span)?;
    let undefined = InstructionValue::Primitive {
        value: PrimitiveValue::Undefined,
        span,
    };
    let sequence = ReactiveValue::SequenceExpression {
        instructions,
        id,
        value: base_value(alloc, undefined)?,
    };
    Boxed::new(alloc, sequence)
}

/// The rows of nested sequences, and the value after all of them.
#[derive(Drop)]
struct FlatValue {
    rows: List<ReactiveInstruction>,
    value: ReactiveValue,
}

/// The rows of a value's sequence, those of the sequence that is its value, and so on. The only error is out of memory.
fn flat_rows(alloc: Global, value: Boxed<ReactiveValue>) -> Result<FlatValue, AllocError>
    ensures { (plain : Value) → value ≡ value_of plain → IfOk result (λ flat.
        (flat.rows ≡ instructions_of (spec.flat_rows plain)) × (flat.value ≡ value_of (spec.final_value plain))) }
{
    let mut rows = List::new(alloc);
    let mut value = value.into_inner();
    'rows: loop {
        match value.open_sequence() {
            Opened::Sequence {
                mut instructions,
                behind,
            } => {
                rows.take_from(&mut instructions)?;
                value = behind.into_inner();
            }
            Opened::Last { value } => return Ok(FlatValue { rows, value }),
        }
    }
}

/// The rows, and one more for the value, unless that only loads the answer place. The only error is out of memory.
fn with_final_row(
    flat: FlatValue,
    answer: Place,
    id: EvaluationOrder,
    span: Option<Span>,
) -> Result<List<ReactiveInstruction>, AllocError>
    ensures { (plain : Value) → flat.value ≡ value_of plain → IfOk result (λ made.
        made ≡ flat.rows ++ instructions_of (spec.final_row answer id span plain)) }
{
    let FlatValue { mut rows, value } = flat;
    if loads_own(answer, &value) {
        return Ok(rows);
    }
    rows.push(ReactiveInstruction {
        id,
        lvalue: Some(answer),
        value,
        span,
    })?;
    Ok(rows)
}

/// Whether the value loads the place's own identifier.
fn loads_own(answer: Place, value: &ReactiveValue) -> bool
    ensures { (plain : Value) → value.now ≡ value_of plain → result ≡ spec.loads_own answer plain }
{
    match value {
        ReactiveValue::Instruction(value) => is_load_of(answer, value),
        _ => false,
    }
}

/// Whether the instruction loads the place's own identifier.
fn is_load_of(answer: Place, value: &InstructionValue) -> bool
    ensures { result ≡ spec.loads_own answer (Base value.now) }
{
    match value {
        InstructionValue::LoadLocal { place, .. } => answer.identifier == place.identifier,
        _ => false,
    }
}
