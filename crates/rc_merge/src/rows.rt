//! A row as merging reads it: whether it passes, the names that it writes, and what it copies.

ghost use Rattle.std.specs.Prelude.{◌≡◌, ◌++◌, map, Some, IfOk, OnOk};
ghost use Rattle.rc_hir.specs.Operands.{value_targets};
ghost use Rattle.rc_hir.specs.TerminalOperands.{perhaps_place};
ghost use Rattle.rc_tree.specs.CollectedValues.{instruction_of};
ghost use Rattle.rc_tree.specs.ReadSteps.{targets_of};
ghost use Rattle.rc_merge.specs.Places as spec;
ghost use Rattle.rc_merge.specs.inside.Rows as rows;

use crate::input::declaration_of;
use rc_hir::{Environment, InstructionKind, InstructionValue, Place, Places, borrowed_lvalues};
use rc_names::{DeclarationId, Keyed, List};
use rc_tree::{ReactiveInstruction, ReactiveValue};
use std::alloc::{AllocError, Global};

/// Which name each name copies.
pub(crate) type Copies = Keyed<DeclarationId, DeclarationId>;

/// Returns whether merging passes over the row.
pub(crate) fn row_passes(row: &ReactiveInstruction) -> bool
    ensures { result ≡ rows.row_passes row.now }
{
    match &row.value {
        ReactiveValue::Instruction(value) => passes(value),
        _ => false,
    }
}

/// Returns whether rows of this kind pass.
fn passes(value: &InstructionValue) -> bool
    ensures { result ≡ spec.passes value.now }
{
    match value {
        InstructionValue::BinaryExpression { .. }
        | InstructionValue::ComputedLoad { .. }
        | InstructionValue::JSXText { .. }
        | InstructionValue::LoadGlobal { .. }
        | InstructionValue::LoadLocal { .. }
        | InstructionValue::Primitive { .. }
        | InstructionValue::PropertyLoad { .. }
        | InstructionValue::TemplateLiteral { .. }
        | InstructionValue::UnaryExpression { .. } => true,
        InstructionValue::StoreLocal { lvalue, .. } => is_const(lvalue.kind),
        _ => false,
    }
}

fn is_const(kind: InstructionKind) -> bool
    ensures { result ≡ spec.is_const kind }
{
    match kind {
        InstructionKind::Const => true,
        _ => false,
    }
}

/// Adds the names that a row writes. Fails only when out of memory.
pub(crate) fn add_names(
    alloc: Global,
    env: &Environment,
    row: &ReactiveInstruction,
    names: &mut List<DeclarationId>,
) -> Result<(), AllocError>
    ensures { OnOk result (names.new ≡ names.old ++ rows.names_of_row env.now row.now) }
{
    add_target(env, row.lvalue, names)?;
    add_targets(alloc, env, &row.value, names)
}

fn add_target(
    env: &Environment,
    target: Option<Place>,
    names: &mut List<DeclarationId>,
) -> Result<(), AllocError>
    ensures { OnOk result (names.new ≡ names.old ++ map (spec.name_of env.now) (perhaps_place target)) }
{
    match target {
        Some(place) => names.push(declaration_of(env, place.identifier)),
        None => Ok(()),
    }
}

fn add_targets(
    alloc: Global,
    env: &Environment,
    value: &ReactiveValue,
    names: &mut List<DeclarationId>,
) -> Result<(), AllocError>
    ensures { OnOk result (names.new ≡ names.old ++ map (spec.name_of env.now) (targets_of value.now)) }
{
    match value {
        ReactiveValue::Instruction(value) => {
            let targets = value_targets(alloc, value)?;
            add_places(env, targets.as_slice(), names)
        }
        _ => Ok(()),
    }
}

/// Returns the places that a value writes for its row. Fails only when out of memory.
fn value_targets(alloc: Global, value: &InstructionValue) -> Result<Places<'_>, AllocError>
    ensures { IfOk result (λ places. places ≡ value_targets value.now) }
{
    match borrowed_lvalues(alloc, value) {
        Ok(places) => Ok(places),
        Err(_) => Err(AllocError),
    }
}

fn add_places(
    env: &Environment,
    places: &[Place],
    names: &mut List<DeclarationId>,
) -> Result<(), AllocError>
    ensures { OnOk result (names.new ≡ names.old ++ map (spec.name_of env.now) places.now) }
{
    for place in places {
        names.push(declaration_of(env, place.identifier))?;
    }
    Ok(())
}

/// Notes the copy that a row makes, if it makes one. Fails only when out of memory.
pub(crate) fn note_copy(
    env: &Environment,
    row: &ReactiveInstruction,
    copies: &mut Copies,
) -> Result<(), AllocError>
    ensures { OnOk result (copies.new ≡ rows.noted copies.old (rows.copy_of_row env.now row.now)) }
{
    match &row.value {
        ReactiveValue::Instruction(value) => note_value(env, row.lvalue, value, copies),
        _ => Ok(()),
    }
}

fn note_value(
    env: &Environment,
    target: Option<Place>,
    value: &InstructionValue,
    copies: &mut Copies,
) -> Result<(), AllocError>
    ensures { OnOk result (copies.new ≡ rows.noted copies.old (spec.copy_of env.now target value.now)) }
{
    match value {
        InstructionValue::LoadLocal { place, .. } => note_load(env, target, *place, copies),
        InstructionValue::StoreLocal { lvalue, value, .. } => {
            note_store(env, lvalue.place, *value, copies)
        }
        _ => Ok(()),
    }
}

/// A load copies the name that it loads.
fn note_load(
    env: &Environment,
    target: Option<Place>,
    place: Place,
    copies: &mut Copies,
) -> Result<(), AllocError>
    ensures { OnOk result (copies.new ≡ rows.noted copies.old (rows.loaded env.now target place)) }
{
    if let Some(target) = target {
        let name = declaration_of(env, target.identifier);
        copies.insert(name, declaration_of(env, place.identifier))?;
    }
    Ok(())
}

/// A store copies the source of its value, if the value is a copy, and else the value.
fn note_store(
    env: &Environment,
    target: Place,
    value: Place,
    copies: &mut Copies,
) -> Result<(), AllocError>
    ensures { OnOk result (copies.new ≡ rows.noted copies.old
        (Some (spec.Stores (spec.name_of env.now target) (spec.name_of env.now value)))) }
{
    let name = declaration_of(env, value.identifier);
    let source = copies.get(name).copied().unwrap_or(name);
    copies.insert(declaration_of(env, target.identifier), source)?;
    Ok(())
}
