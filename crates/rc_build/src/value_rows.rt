//! The rows of a value's last block: the last one is the value, and the earlier ones are in a sequence before it.

ghost use Rattle.std.specs.Prelude.{◌≡◌, ◌∷◌, [], List as Items, None, IfOk, IfErr, slice_get, map};
ghost use Rattle.std.specs.List.{list_any};
ghost use Rattle.rc_hir.specs.Model.{Instruction as Row};
ghost use Rattle.rc_hir.specs.declared.instruction.InstructionValue.TheVariants as kinds;
ghost use Rattle.rc_tree.specs.Model.{ReactiveInstruction as Made};
ghost use Rattle.rc_runs.specs.LastRow as spec;
ghost use Rattle.rc_runs.specs.Silent as silent;
ghost use Rattle.rc_runs.specs.PlainTree.{Base};
ghost use Rattle.rc_runs.specs.TreeOf.{value_of};
ghost use Rattle.rc_build.specs.RuleFacts.{FaultFact};
ghost use Rattle.rc_build.specs.inside.Built.{IfRefused};
ghost use Rattle.rc_build.specs.inside.ValueRows.{AreListed, HasRow, HasRows, behind_rows, naming_of, row_of};

use crate::builder::malformed;
use crate::rows::find_row;
use rc_hir::{Environment, Fault, HirFunction, Instruction, InstructionValue, Place, Rule};
use rc_names::{BlockId, Boxed, CloneIn, EvaluationOrder, InstructionId, List};
use rc_tree::{ReactiveInstruction, ReactiveValue};
use std::alloc::{AllocError, Global};

/// The row of a number that the block under the key lists, where it has an id.
///
/// - `Malformed` with `UnsetId`: it has none.
/// - `BadName`: it isn't there.
pub fn row_with_id(
    hir: &HirFunction,
    key: BlockId,
    number: InstructionId,
) -> Result<&Instruction, Fault>
    requires { AreListed hir.now key (number ∷ []) }
    ensures ok { IfOk result (λ row. HasRow hir.now number row.now) }
    ensures refused { IfRefused result ((row : Row) → HasRow hir.now number row → ⊥) }
    ensures facts { IfErr result (FaultFact hir.now) }
{
    let row = find_row(hir, number)?;
    if row.id.0 == 0 {
        return Err(malformed(key, Rule::UnsetId));
    }
    Ok(row)
}

/// The rows of these numbers, which the block under the key lists, as rows of a sequence.
///
/// - `Malformed` with `UnsetId`: one has no id.
/// - `BadName`: one isn't there.
pub fn sequence_rows(
    alloc: Global,
    hir: &HirFunction,
    key: BlockId,
    numbers: &[InstructionId],
) -> Result<List<ReactiveInstruction>, Fault>
    requires { AreListed hir.now key numbers.now }
    ensures ok { IfOk result (λ rows. HasRows hir.now numbers.now rows) }
    ensures refused { IfRefused result ((rows : Items Made) → HasRows hir.now numbers.now rows → ⊥) }
    ensures facts { IfErr result (FaultFact hir.now) }
{
    let mut rows = List::new(alloc);
    for number in numbers {
        let row = row_with_id(hir, key, *number)?;
        let row = sequence_row(alloc, row)?;
        rows.push(row)?;
    }
    Ok(rows)
}

/// A row of a sequence. The only error is out of memory.
fn sequence_row(alloc: Global, row: &Instruction) -> Result<ReactiveInstruction, AllocError>
    ensures { IfOk result (λ made. made ≡ row_of row.now) }
{
    Ok(ReactiveInstruction {
        id: row.id,
        lvalue: Some(row.lvalue),
        value: ReactiveValue::Instruction(row.value.clone_in(alloc)?),
        span: row.span,
    })
}

/// A value with rows before it: a sequence, if there are any. The only error is out of memory.
pub fn after_rows(
    alloc: Global,
    rows: List<ReactiveInstruction>,
    id: EvaluationOrder,
    value: Boxed<ReactiveValue>,
) -> Result<Boxed<ReactiveValue>, AllocError>
    ensures { IfOk result (λ whole. whole ≡ behind_rows rows id value) }
{
    if rows.is_empty() {
        return Ok(value);
    }
    let sequence = ReactiveValue::SequenceExpression {
        instructions: rows,
        id,
        value,
    };
    Boxed::new(alloc, sequence)
}

/// The value of a last row: a store into an identifier without a name is a load of what it stores. The only error is
/// out of memory.
pub fn last_value(
    alloc: Global,
    env: &Environment,
    row: &Instruction,
) -> Result<Boxed<ReactiveValue>, AllocError>
    ensures { IfOk result (λ value. value ≡ value_of (Base (spec.last_value env.now row.now.value))) }
{
    match names_value(env, &row.value) {
        Some(naming) => load(alloc, naming.stored),
        None => base_value(alloc, row.value.clone_in(alloc)?),
    }
}

/// The place with which a last row answers: its target, or what such a store writes.
pub fn last_answer(env: &Environment, row: &Instruction) -> Place
    ensures { result ≡ spec.last_answer env.now row.now.lvalue row.now.value }
{
    match names_value(env, &row.value) {
        Some(naming) => naming.written,
        None => row.lvalue,
    }
}

/// A load of a place. The only error is out of memory.
pub fn load(alloc: Global, place: Place) -> Result<Boxed<ReactiveValue>, AllocError>
    ensures { IfOk result (λ value. value ≡ value_of (Base (kinds.LoadLocal place place.span))) }
{
    base_value(
        alloc,
        InstructionValue::LoadLocal {
            place,
            span: place.span,
        },
    )
}

/// A value without other values in it. The only error is out of memory.
pub fn base_value(
    alloc: Global,
    value: InstructionValue,
) -> Result<Boxed<ReactiveValue>, AllocError>
    ensures { IfOk result (λ made. made ≡ value_of (Base value)) }
{
    Boxed::new(alloc, ReactiveValue::Instruction(value))
}

/// A store into an identifier without a name, which only names a value.
#[derive(Clone, Copy)]
struct NamingStore {
    stored: Place,
    written: Place,
}

/// The places of the value, if it is a store into an identifier without a name.
fn names_value(env: &Environment, value: &InstructionValue) -> Option<NamingStore>
    ensures { result ≡ naming_of env.now value.now }
{
    match value {
        InstructionValue::StoreLocal { lvalue, value, .. } => {
            if is_unnamed(env, lvalue.place) {
                Some(NamingStore {
                    stored: *value,
                    written: lvalue.place,
                })
            } else {
                None
            }
        }
        _ => None,
    }
}

/// Whether the place's identifier has no name.
pub fn is_unnamed(env: &Environment, place: Place) -> bool
    ensures { result ≡ silent.is_unnamed env.now place }
{
    match env.identifiers.get(place.identifier) {
        Some(identifier) => identifier.name.is_none(),
        None => false,
    }
}
