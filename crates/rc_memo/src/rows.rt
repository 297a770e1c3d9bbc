//! The events of rows and values.

ghost use Rattle.std.specs.Prelude.{◌≡◌, [], ◌∷◌, ◌++◌, Some, None, IfOk, IfSome, OnOk, if◌then◌else◌};
ghost use Rattle.std.specs.List.{flat_map};
ghost use Rattle.rc_tree.specs.CollectedValues.{instruction_of};
ghost use Rattle.rc_memo.specs.RowEvents as spec;
ghost use Rattle.rc_memo.specs.inside.Recording.{AddsPlaces, AddsRows, AddsWalked, context_of, instruction_row, Tells};

use crate::MemoizationLevel;
use crate::reader::RowReader;
use crate::recording::Recording;
use crate::table::{LevelGiven, memo_rule, push_levels, push_own, recorded};
use rc_hir::{
    Fault, InstructionValue, InstructionValue as Kind, Place, PlaceOrSpread, Places,
    borrowed_operands,
};
use rc_names::{EvaluationOrder, FunctionId, IdentifierId, List};
use rc_tree::{ReactiveInstruction, ReactiveValue};
use std::alloc::AllocError;

/// These methods fail only when out of memory.
impl<'a> RowReader<'a> {
    /// Returns all operands of an instruction; one that names a function outside its table has none.
    #[tactic(auto, unfolding(crate::specs::RowEvents::places_read))]
    fn places_read<'p>(&'p self, value: &'p InstructionValue) -> Result<Places<'p>, AllocError>
        ensures { IfOk result (λ places. places ≡ spec.places_read self.now.env.now value.now) }
    {
        match borrowed_operands(self.alloc, value, self.env) {
            Ok(places) => Ok(places),
            Err(Fault::NoMemory) => Err(AllocError),
            Err(_) => Ok(Places::none()),
        }
    }

    /// Returns the function whose context the recorded operands of an instruction are, if there is one.
    fn function_named(&self, value: &InstructionValue) -> Option<FunctionId>
        ensures { IfSome result (λ function. spec.recorded_operands self.now.env.now value.now
            ≡ context_of self.now.env.now function) }
    {
        match value {
            Kind::FunctionExpression { lowered_func, .. } => Some(lowered_func.func),
            Kind::ObjectMethod { lowered_func, .. } => Some(lowered_func.func),
            _ => None,
        }
    }

    /// Adds that a row loads a local name into its target.
    #[tactic(auto, unfolding(crate::specs::RowEvents::load_events), using(crate::proofs::TellsLemmas::tells_nothing))]
    fn add_load(
        &self,
        recording: &mut Recording,
        target: Option<Place>,
        value: &InstructionValue,
    ) -> Result<(), AllocError>
        ensures { OnOk result (Tells self.now.env.now (spec.load_events self.now.env.now target value.now)
            recording.old recording.new) }
    {
        let Some(target) = target else {
            return Ok(());
        };
        match value {
            Kind::LoadLocal { place, .. } => self.record_load(
                recording,
                target.identifier,
                place.identifier,
            ),
            _ => Ok(()),
        }
    }

    fn add_argument(
        &self,
        recording: &mut Recording,
        argument: &PlaceOrSpread,
    ) -> Result<(), AllocError>
        ensures { OnOk result (Tells self.now.env.now (spec.argument_events self.now.env.now argument.now)
            recording.old recording.new) }
    {
        match argument {
            PlaceOrSpread::Place(place) => self.record_escape(recording, place.identifier),
            PlaceOrSpread::Spread(spread) => self.record_escape(recording, spread.place.identifier),
        }
    }

    fn add_each_argument(
        &self,
        recording: &mut Recording,
        arguments: &List<PlaceOrSpread>,
    ) -> Result<(), AllocError>
        ensures { OnOk result (Tells self.now.env.now
            (flat_map (spec.argument_events self.now.env.now) arguments.now) recording.old recording.new) }
    {
        for argument in arguments.as_slice() {
            self.add_argument(recording, argument)?;
        }
        Ok(())
    }

    /// Adds that each argument escapes, where the callee lets it.
    #[tactic(auto, using(crate::proofs::TellsLemmas::tells_nothing))]
    fn add_arguments(
        &self,
        recording: &mut Recording,
        callee: IdentifierId,
        arguments: &List<PlaceOrSpread>,
    ) -> Result<(), AllocError>
        ensures { OnOk result (Tells self.now.env.now (if spec.lets_escape self.now.env.now callee
            then flat_map (spec.argument_events self.now.env.now) arguments.now else []) recording.old recording.new) }
    {
        if self.env.is_hook(callee) && !self.env.has_no_alias_signature(callee) {
            return self.add_each_argument(recording, arguments);
        }
        Ok(())
    }

    /// Adds that the arguments of a call of a hook escape.
    #[tactic(auto, unfolding(crate::specs::RowEvents::escape_events), using(crate::proofs::TellsLemmas::tells_nothing))]
    fn add_escapes(
        &self,
        recording: &mut Recording,
        value: &InstructionValue,
    ) -> Result<(), AllocError>
        ensures { OnOk result (Tells self.now.env.now (spec.escape_events self.now.env.now value.now)
            recording.old recording.new) }
    {
        match value {
            Kind::CallExpression { callee, args, .. } => self.add_arguments(
                recording,
                callee.identifier,
                args,
            ),
            Kind::MethodCall { property, args, .. } => self.add_arguments(
                recording,
                property.identifier,
                args,
            ),
            _ => Ok(()),
        }
    }

    /// Adds the row of an instruction, with its operands and its levels.
    #[tactic(auto, unfolding(crate::specs::RowEvents::recorded_operands))]
    fn add_recorded_row(
        &self,
        recording: &mut Recording,
        id: EvaluationOrder,
        target: Option<Place>,
        value: &InstructionValue,
    ) -> Result<(), AllocError>
        ensures { OnOk result (Tells self.now.env.now (instruction_row self.now.env.now id target value.now ∷ [])
            recording.old recording.new) }
    {
        let all = self.places_read(value)?;
        let line = memo_rule(value);
        let mut levels = recording.levels.take();
        clear(&mut levels);
        push_levels(&mut levels, self.env, value, line, target, &all)?;
        self.record_row(
            recording,
            id,
            self.function_named(value),
            recorded(self.env, &line, &all),
            &levels,
        )?;
        recording.levels = levels;
        Ok(())
    }

    /// Adds a row whose value is one instruction.
    #[inline(never)]
    fn add_instruction(
        &self,
        recording: &mut Recording,
        id: EvaluationOrder,
        target: Option<Place>,
        value: &InstructionValue,
    ) -> Result<(), AllocError>
        ensures { OnOk result (Tells self.now.env.now (spec.own_events self.now.env.now id target (Some value.now)
            (spec.recorded_operands self.now.env.now value.now)) recording.old recording.new) }
    {
        self.add_recorded_row(recording, id, target, value)?;
        self.add_load(recording, target, value)?;
        self.add_escapes(recording, value)?;
        Ok(())
    }

    /// Adds a row whose value is an expression over other values.
    #[inline(never)]
    fn add_expression(
        &self,
        recording: &mut Recording,
        id: EvaluationOrder,
        target: Option<Place>,
        value: &ReactiveValue,
    ) -> Result<(), AllocError>
        ensures { OnOk result (Tells self.now.env.now (spec.own_events self.now.env.now id target None
            (spec.parts_of self.now.env.now value.now).places) recording.old recording.new) }
    {
        let mut places = List::new(self.alloc);
        self.add_places(&mut places, value)?;
        let mut levels = List::new(self.alloc);
        push_own(&mut levels, target, MemoizationLevel::Conditional)?;
        self.record_row(recording, id, None, places.as_slice(), &levels)
    }

    /// Adds what a row tells of itself.
    #[inline(never)]
    fn add_own(
        &self,
        recording: &mut Recording,
        row: &ReactiveInstruction,
    ) -> Result<(), AllocError>
        ensures { OnOk result (Tells self.now.env.now
            (spec.own_events self.now.env.now row.now.id row.now.lvalue (instruction_of row.now.value)
            (spec.parts_of self.now.env.now row.now.value).places) recording.old recording.new) }
    {
        match &row.value {
            ReactiveValue::Instruction(value) => {
                self.add_instruction(recording, row.id, row.lvalue, value)
            }
            ReactiveValue::LogicalExpression { .. }
            | ReactiveValue::ConditionalExpression { .. }
            | ReactiveValue::SequenceExpression { .. }
            | ReactiveValue::OptionalExpression { .. } => {
                self.add_expression(recording, row.id, row.lvalue, &row.value)
            }
        }
    }

    /// Adds the operands of an instruction that are recorded.
    // Not inlined, so that a level of nested values has no room for operands.
    #[inline(never)]
    #[tactic(auto, unfolding(crate::specs::RowEvents::recorded_operands))]
    fn add_recorded(
        &self,
        places: &mut List<Place>,
        value: &InstructionValue,
    ) -> Result<(), AllocError>
        ensures { OnOk result (places.new
            ≡ places.old ++ spec.recorded_operands self.now.env.now value.now) }
    {
        let all = self.places_read(value)?;
        let line = memo_rule(value);
        push_places(places, recorded(self.env, &line, &all))
    }

    /// Adds the operands of a value in a row.
    #[cycle(operands)]
    fn add_places(&self, places: &mut List<Place>, value: &ReactiveValue) -> Result<(), AllocError>
        ensures { OnOk result (AddsPlaces self.now.env.now value.now places.old places.new) }
    {
        match value {
            ReactiveValue::Instruction(value) => self.add_recorded(places, value)?,
            ReactiveValue::LogicalExpression { left, right, .. } => {
                self.add_places(places, left.get())?;
                self.add_places(places, right.get())?;
            }
            ReactiveValue::ConditionalExpression {
                consequent,
                alternate,
                ..
            } => {
                self.add_places(places, consequent.get())?;
                self.add_places(places, alternate.get())?;
            }
            ReactiveValue::SequenceExpression { value, .. } => {
                self.add_places(places, value.get())?;
            }
            ReactiveValue::OptionalExpression { value, .. } => {
                self.add_places(places, value.get())?;
            }
        }
        Ok(())
    }

    /// Adds the events of a row, those of the rows inside its value first.
    #[cycle(rows)]
    pub fn add_row(
        &self,
        recording: &mut Recording,
        row: &ReactiveInstruction,
    ) -> Result<(), AllocError>
        ensures { OnOk result (Tells self.now.env.now (spec.row_events self.now.env.now row.now) recording.old
            recording.new) }
    {
        self.add_inside(recording, &row.value)?;
        self.add_own(recording, row)?;
        Ok(())
    }

    /// Adds the events of rows, one by one.
    #[inline(never)]
    #[cycle(rows)]
    #[tactic(auto, using(crate::proofs::TellsLemmas::tells_nothing))]
    fn add_rows(
        &self,
        recording: &mut Recording,
        rows: &List<ReactiveInstruction>,
    ) -> Result<(), AllocError>
        ensures { OnOk result (Tells self.now.env.now (flat_map (spec.row_events self.now.env.now) rows.now) recording.old
            recording.new) }
    {
        for row in rows.as_slice() {
            self.add_row(recording, row)?;
        }
        Ok(())
    }

    /// Adds the events of the rows inside a value that is in a row.
    #[cycle(rows)]
    fn add_inside(&self, recording: &mut Recording, value: &ReactiveValue) -> Result<(), AllocError>
        ensures { OnOk result (AddsRows self.now.env.now value.now recording.old recording.new) }
    {
        match value {
            ReactiveValue::Instruction(_) => {}
            ReactiveValue::LogicalExpression { left, right, .. } => {
                self.add_inside(recording, left.get())?;
                self.add_inside(recording, right.get())?;
            }
            ReactiveValue::ConditionalExpression {
                consequent,
                alternate,
                ..
            } => {
                self.add_inside(recording, consequent.get())?;
                self.add_inside(recording, alternate.get())?;
            }
            ReactiveValue::SequenceExpression {
                instructions,
                value,
                ..
            } => {
                self.add_rows(recording, instructions)?;
                self.add_inside(recording, value.get())?;
            }
            ReactiveValue::OptionalExpression { value, .. } => {
                self.add_inside(recording, value.get())?;
            }
        }
        Ok(())
    }

    /// Adds the events of the rows inside a value that is in a terminal.
    #[cycle(walked)]
    #[tactic(auto, using(crate::proofs::RowEventsLemmas::quiet_values))]
    pub fn add_walked(
        &self,
        recording: &mut Recording,
        value: &ReactiveValue,
    ) -> Result<(), AllocError>
        ensures { OnOk result (AddsWalked self.now.env.now value.now recording.old recording.new) }
    {
        match value {
            ReactiveValue::Instruction(_) => {}
            ReactiveValue::LogicalExpression { left, right, .. } => {
                self.add_walked(recording, left.get())?;
                self.add_walked(recording, right.get())?;
            }
            ReactiveValue::ConditionalExpression {
                test,
                consequent,
                alternate,
            } => {
                self.add_walked(recording, test.get())?;
                self.add_walked(recording, consequent.get())?;
                self.add_walked(recording, alternate.get())?;
            }
            ReactiveValue::SequenceExpression {
                instructions,
                value,
                ..
            } => {
                self.add_rows(recording, instructions)?;
                self.add_walked(recording, value.get())?;
            }
            ReactiveValue::OptionalExpression { value, .. } => {
                self.add_walked(recording, value.get())?;
            }
        }
        Ok(())
    }
}

/// Empties a list, which keeps its room.
fn clear(levels: &mut List<LevelGiven>)
    ensures { levels.new ≡ [] }
{
    while let Some(_) = levels.pop() {}
}

/// Adds places to a list. Fails only when out of memory.
fn push_places(list: &mut List<Place>, places: &[Place]) -> Result<(), AllocError>
    ensures { OnOk result (list.new ≡ list.old ++ places.now) }
{
    for place in places {
        list.push(*place)?;
    }
    Ok(())
}
