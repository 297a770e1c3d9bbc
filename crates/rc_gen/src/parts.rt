//! The small parts that units are made of.

ghost use Rattle.std.specs.Prelude.{◌≡◌, ◌∷◌, [], IfOk};
ghost use Rattle.rc_gen.specs.Units as spec;

use rc_hir::{ArrayElement, Effect, Instruction, InstructionValue, Place};
use rc_names::{EvaluationOrder, IdentifierId, List};
use std::alloc::{AllocError, Global};

/// A place that reads an identifier.
pub fn place(number: u32, reactive: bool) -> Place
    ensures { result ≡ spec.place number reactive }
{
    Place {
        identifier: IdentifierId::new(number),
        effect: Effect::Read,
        reactive,
        span: None,
    }
}

/// An array of one place, which is reactive.
pub fn array_of(alloc: Global, number: u32) -> Result<InstructionValue, AllocError>
    ensures { IfOk result (λ value. value ≡ spec.array_of number) }
{
    let elements = List::from_slice(alloc, &[ArrayElement::Place(place(number, true))])?;
    Ok(InstructionValue::ArrayExpression {
        elements,
        span: None,
    })
}

/// A row with an id and a target.
pub fn row(id: u32, target: u32, value: InstructionValue) -> Instruction
    ensures { result ≡ spec.row id target value }
{
    Instruction {
        id: EvaluationOrder::new(id),
        lvalue: place(target, false),
        value,
        span: None,
    }
}
