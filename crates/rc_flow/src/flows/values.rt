//! The walk over rows, and over the rows in values.
#![tactic(auto, using(crate::proofs::ValuesLemmas::value_forms))]

ghost use Rattle.std.specs.Prelude.{◌≡◌, [], ◌∷◌, ◌++◌, map, IfOk, OnOk};
ghost use Rattle.rc_hir.specs.Operands.{pattern_places};
ghost use Rattle.rc_names.specs.Numbers.{EvaluationOrder as Order};
ghost use Rattle.rc_tree.specs.Joining.{all_of, lists};
ghost use Rattle.rc_flow.specs.Flows.Values as spec;
ghost use Rattle.rc_flow.specs.declared.step.Step.TheVariants.{Carries};
ghost use Rattle.rc_flow.specs.inside.PartFlows as parts;

use crate::flows::PruneVisitor;
use crate::step::Step;
use crate::types::is_stable;
use rc_hir::{
    Environment, InstructionValue as Kind, Pattern, Place, Places, borrowed_pattern_operands,
};
use rc_names::{Boxed, IdentifierId, List};
use rc_tree::{ReactiveInstruction, ReactiveValue};
use std::alloc::{AllocError, Global};

impl<'a> PruneVisitor<'a> {
    /// Adds the steps of the rows in a value.
    #[cycle(value_flows)]
    fn add_value(&self, steps: &mut List<Step>, value: &ReactiveValue) -> Result<(), AllocError>
        ensures { OnOk result
            ((id : Order) → steps.new ≡ steps.old ++ parts.steps_of_value self.now.env.now id value.now) }
    {
        match value {
            ReactiveValue::Instruction(_) => Ok(()),
            ReactiveValue::LogicalExpression { left, right, .. } => {
                self.add_value(steps, left.get())?;
                self.add_value(steps, right.get())
            }
            ReactiveValue::ConditionalExpression {
                test,
                consequent,
                alternate,
            } => {
                self.add_value(steps, test.get())?;
                self.add_value(steps, consequent.get())?;
                self.add_value(steps, alternate.get())
            }
            ReactiveValue::SequenceExpression {
                instructions,
                value,
                ..
            } => {
                self.add_rows(steps, instructions.as_slice())?;
                self.add_value(steps, value.get())
            }
            ReactiveValue::OptionalExpression { value, .. } => self.add_value(steps, value.get()),
        }
    }

    /// Adds the steps of the rows of a sequence.
    #[cycle(value_flows)]
    fn add_rows(
        &self,
        steps: &mut List<Step>,
        rows: &[ReactiveInstruction],
    ) -> Result<(), AllocError>
        ensures { OnOk result
            (steps.new ≡ steps.old ++ all_of lists (map (parts.steps_of_row self.now.env.now) rows.now)) }
    {
        for row in rows {
            self.add_row(steps, row)?;
        }
        Ok(())
    }

    /// Adds the steps of a row: those of its value, and then its own.
    #[cycle(value_flows)]
    pub fn add_row(
        &self,
        steps: &mut List<Step>,
        row: &ReactiveInstruction,
    ) -> Result<(), AllocError>
        ensures { OnOk result (steps.new ≡ steps.old ++ parts.steps_of_row self.now.env.now row.now) }
    {
        self.add_value(steps, &row.value)?;
        self.add_own(steps, &row.lvalue, &row.value)
    }

    /// Adds the steps of a value of a loop.
    pub fn add_loop_value(
        &self,
        steps: &mut List<Step>,
        value: &Boxed<ReactiveValue>,
    ) -> Result<(), AllocError>
        ensures { OnOk result
            ((id : Order) → steps.new ≡ steps.old ++ parts.steps_of_value self.now.env.now id value.now) }
    {
        self.add_value(steps, value.get())
    }

    /// Adds the steps of a value of a loop that may be left out.
    pub fn add_value_if(
        &self,
        steps: &mut List<Step>,
        value: &Option<Boxed<ReactiveValue>>,
    ) -> Result<(), AllocError>
        ensures { OnOk result
            ((id : Order) → steps.new ≡ steps.old ++ parts.steps_of_value_if self.now.env.now id value.now) }
    {
        match value {
            Some(value) => self.add_loop_value(steps, value),
            None => Ok(()),
        }
    }

    /// Adds the step of a row, if it carries reactivity on.
    fn add_own(
        &self,
        steps: &mut List<Step>,
        target: &Option<Place>,
        value: &ReactiveValue,
    ) -> Result<(), AllocError>
        ensures { OnOk result (steps.new ≡ steps.old ++ parts.row_steps self.now.env.now target.now value.now) }
    {
        match value {
            ReactiveValue::Instruction(value) => self.add_instruction(steps, target, value),
            ReactiveValue::LogicalExpression { .. }
            | ReactiveValue::ConditionalExpression { .. }
            | ReactiveValue::SequenceExpression { .. }
            | ReactiveValue::OptionalExpression { .. } => Ok(()),
        }
    }

    /// Adds the step of an instruction and its row's target, if it carries reactivity on.
    fn add_instruction(
        &self,
        steps: &mut List<Step>,
        target: &Option<Place>,
        value: &Kind,
    ) -> Result<(), AllocError>
        ensures { OnOk result (steps.new ≡ steps.old ++ spec.own_steps self.now.env.now target.now value.now) }
    {
        let mut to = List::new(self.alloc);
        match value {
            Kind::LoadLocal { place, .. } => {
                add_target(&mut to, target)?;
                add_step(self.alloc, steps, &[place.identifier], to)
            }
            Kind::StoreLocal { lvalue, value, .. } => {
                to.push(lvalue.place.identifier)?;
                add_target(&mut to, target)?;
                add_step(self.alloc, steps, &[value.identifier], to)
            }
            Kind::Destructure { lvalue, value, .. } => {
                let places = pattern_places(self.alloc, &lvalue.pattern)?;
                add_unstable(self.env, &mut to, places.as_slice())?;
                add_target(&mut to, target)?;
                add_step(self.alloc, steps, &[value.identifier], to)
            }
            Kind::PropertyLoad { object, .. } => {
                add_unstable_target(self.env, &mut to, target)?;
                add_step(self.alloc, steps, &[object.identifier], to)
            }
            Kind::ComputedLoad {
                object,
                property,
                ..
            } => {
                add_target(&mut to, target)?;
                add_step(
                    self.alloc,
                    steps,
                    &[object.identifier, property.identifier],
                    to,
                )
            }
            _ => Ok(()),
        }
    }
}

/// Adds a step from names to others.
fn add_step(
    alloc: Global,
    steps: &mut List<Step>,
    from: &[IdentifierId],
    to: List<IdentifierId>,
) -> Result<(), AllocError>
    ensures { OnOk result (steps.new ≡ steps.old ++ Carries from.now to ∷ []) }
{
    let from = List::from_slice(alloc, from)?;
    steps.push(Step::Carries { from, to })
}

/// The places of a pattern; the only fault of reading them is `NoMemory`.
fn pattern_places(alloc: Global, pattern: &Pattern) -> Result<Places<'_>, AllocError>
    ensures { IfOk result (λ places. places ≡ pattern_places pattern.now) }
{
    match borrowed_pattern_operands(alloc, pattern) {
        Ok(places) => Ok(places),
        Err(_) => Err(AllocError),
    }
}

/// Adds the name of a target, if there is one.
fn add_target(names: &mut List<IdentifierId>, target: &Option<Place>) -> Result<(), AllocError>
    ensures { OnOk result (names.new ≡ names.old ++ spec.target_name target.now) }
{
    match target {
        Some(place) => names.push(place.identifier),
        None => Ok(()),
    }
}

/// Adds the name of a target, if there is one and it isn't of a stable type.
fn add_unstable_target(
    env: &Environment,
    names: &mut List<IdentifierId>,
    target: &Option<Place>,
) -> Result<(), AllocError>
    ensures { OnOk result (names.new ≡ names.old ++ spec.unstable env.now (spec.target_name target.now)) }
{
    match target {
        Some(place) => add_if_unstable(env, names, place),
        None => Ok(()),
    }
}

/// Adds the names of places that aren't of a stable type.
fn add_unstable(
    env: &Environment,
    names: &mut List<IdentifierId>,
    places: &[Place],
) -> Result<(), AllocError>
    ensures { OnOk result (names.new ≡ names.old ++ spec.unstable env.now (spec.names_of places.now)) }
{
    for place in places {
        add_if_unstable(env, names, place)?;
    }
    Ok(())
}

/// Adds the name of a place, if it isn't of a stable type.
fn add_if_unstable(
    env: &Environment,
    names: &mut List<IdentifierId>,
    place: &Place,
) -> Result<(), AllocError>
    ensures { OnOk result (names.new ≡ names.old ++ spec.unstable env.now (place.now.identifier ∷ [])) }
{
    if is_stable(env, place.identifier) {
        return Ok(());
    }
    names.push(place.identifier)
}
