//! What is recorded of the events of a tree, as they come one by one.
//!
//! A row goes straight to the nodes: each of its operands has its active scope, and then each of its targets gets its
//! level, the position of the row's operands, and its active scope. Rows that name one function have the same operands,
//! its context; they share a position until a load may give one of the names another meaning.

ghost use Rattle.std.specs.Prelude.{◌≡◌, [], ◌∷◌, ◌++◌, IfOk, IfSome, OnOk};
ghost use Rattle.rc_hir.specs.Environment.{declaration_of};
ghost use Rattle.rc_memo.specs.RowEvents.{row_event};
ghost use Rattle.rc_memo.specs.declared.event.MemoEvent.TheVariants as kinds;
ghost use Rattle.rc_memo.specs.inside.Recording.{AddsMentions, AddsTargets, context_of, IsRecorded, place_names};
ghost use Rattle.rc_memo.specs.inside.Recording.{PutsRow, Tells};
ghost use Rattle.rc_memo.specs.inside.RowNodes.{resolved as spec_resolved};

use crate::DeclSet;
use crate::nodes::{HeldNodes, RowTarget, put_target};
use crate::reader::RowReader;
use crate::table::LevelGiven;
use rc_hir::Place;
use rc_names::{
    DeclarationId, EvaluationOrder, FunctionId, IdentifierId, KeySet, Keyed, List, ScopeId,
};
use std::alloc::{AllocError, Global};

/// Each name that a `LoadLocal` loads into, with the name that the last such row loads.
type Definitions = Keyed<DeclarationId, DeclarationId>;

/// What is recorded so far.
#[derive(Drop)]
pub struct Recording {
    pub held: HeldNodes,
    /// Each recorded scope with the names of its dependencies.
    pub scopes: Keyed<ScopeId, List<DeclarationId>>,
    pub definitions: Keyed<DeclarationId, DeclarationId>,
    pub escaping: DeclSet,
    /// Where the names of a function's context are among the operands of rows.
    pub known: Keyed<FunctionId, usize>,
    /// Room for the levels of a row, which the next row uses again.
    pub levels: List<LevelGiven>,
}

/// Returns the name that a name stands for.
fn resolved(definitions: &Definitions, name: DeclarationId) -> DeclarationId
    ensures { result ≡ spec_resolved definitions.now name }
{
    match definitions.get(name) {
        Some(loaded) => *loaded,
        None => name,
    }
}

/// The methods that return a `Result` fail only when out of memory.
impl<'a> RowReader<'a> {
    /// Records nothing, and has room for as many names and scopes as are in the tables.
    pub fn no_recording(&self) -> Result<Recording, AllocError>
        ensures { IfOk result (λ recording. IsRecorded self.now.env.now [] [] recording) }
    {
        let names = self.env.identifiers.len();
        Ok(Recording {
            held: HeldNodes::with_capacity(self.alloc, names)?,
            scopes: Keyed::with_capacity(self.alloc, self.env.scopes.len())?,
            definitions: Keyed::with_capacity(self.alloc, names)?,
            escaping: KeySet::new(self.alloc),
            known: Keyed::new(self.alloc),
            levels: List::new(self.alloc),
        })
    }

    /// Adds the active scope of an operand of a row of that id.
    fn add_mention(
        &self,
        recording: &mut Recording,
        id: EvaluationOrder,
        operand: Place,
    ) -> Result<(), AllocError>
        ensures { OnOk result (AddsMentions self.now.env.now id (operand ∷ []) recording.old recording.new) }
    {
        let Some(scope) = self.active_scope(id, operand.identifier) else {
            return Ok(());
        };
        let name = resolved(&recording.definitions, self.declaration(operand.identifier));
        recording.held.add_scope(name, scope)?;
        self.record_scope(&mut recording.scopes, scope)
    }

    /// Adds the active scope of each operand of a row of that id.
    fn add_mentions(
        &self,
        recording: &mut Recording,
        id: EvaluationOrder,
        operands: &[Place],
    ) -> Result<(), AllocError>
        ensures { OnOk result (AddsMentions self.now.env.now id operands.now recording.old recording.new) }
    {
        for operand in operands {
            self.add_mention(recording, id, *operand)?;
        }
        Ok(())
    }

    /// Adds a target of a row of that id, whose operands are at a position.
    fn add_target(
        &self,
        recording: &mut Recording,
        id: EvaluationOrder,
        row: Option<usize>,
        given: LevelGiven,
    ) -> Result<(), AllocError>
        ensures { OnOk result (AddsTargets self.now.env.now id row (given ∷ []) recording.old recording.new) }
    {
        let target = self.target(id, given);
        let name = resolved(&recording.definitions, target.mention.name);
        let told = RowTarget {
            level: target.level,
            row,
            scope: target.mention.scope,
        };
        put_target(&mut recording.held.nodes, self.alloc, name, told)?;
        self.record_active(&mut recording.scopes, target.mention.scope)
    }

    /// Adds the targets of a row of that id, whose operands are at a position.
    fn add_targets(
        &self,
        recording: &mut Recording,
        id: EvaluationOrder,
        row: Option<usize>,
        levels: &List<LevelGiven>,
    ) -> Result<(), AllocError>
        ensures { OnOk result (AddsTargets self.now.env.now id row levels.now recording.old recording.new) }
    {
        for given in levels.as_slice() {
            self.add_target(recording, id, row, *given)?;
        }
        Ok(())
    }

    /// Returns the names that places stand for, in one piece of memory.
    fn names_for(
        &self,
        definitions: &Definitions,
        places: &[Place],
    ) -> Result<List<DeclarationId>, AllocError>
        ensures { IfOk result (λ names. names ≡ place_names self.now.env.now (spec_resolved definitions.now) places.now) }
    {
        let mut names = List::with_capacity(self.alloc, places.len())?;
        for place in places {
            names.push(resolved(definitions, self.declaration(place.identifier)))?;
        }
        Ok(names)
    }

    /// Puts the operands of a row, and returns their position; a row without operands has none.
    fn put_operands(
        &self,
        recording: &mut Recording,
        places: &[Place],
    ) -> Result<Option<usize>, AllocError>
        ensures { IfOk result (λ row. PutsRow self.now.env.now places.now row recording.old recording.new) }
    {
        if places.is_empty() {
            return Ok(None);
        }
        let row = recording.held.operands.len();
        let names = self.names_for(&recording.definitions, places)?;
        recording.held.operands.push(names)?;
        Ok(Some(row))
    }

    /// Puts the context of a function as the operands of a row, and keeps its position.
    fn put_context(
        &self,
        recording: &mut Recording,
        function: FunctionId,
        context: &[Place],
    ) -> Result<Option<usize>, AllocError>
        requires { context.now ≡ context_of self.now.env.now function }
        ensures { IfOk result (λ row. PutsRow self.now.env.now context.now row recording.old recording.new) }
    {
        let row = self.put_operands(recording, context)?;
        if let Some(row) = row {
            recording.known.insert(function, row)?;
        }
        Ok(row)
    }

    /// Returns the position of a row's operands, which are put unless they are there as the context of a function.
    fn row_of(
        &self,
        recording: &mut Recording,
        function: Option<FunctionId>,
        operands: &[Place],
    ) -> Result<Option<usize>, AllocError>
        requires { IfSome function (λ function. operands.now ≡ context_of self.now.env.now function) }
        ensures { IfOk result (λ row. PutsRow self.now.env.now operands.now row recording.old recording.new) }
    {
        let Some(function) = function else {
            return self.put_operands(recording, operands);
        };
        match recording.known.get(function).copied() {
            Some(row) => Ok(Some(row)),
            None => self.put_context(recording, function, operands),
        }
    }

    /// Adds a row of that id with these operands, which are the context of a function where one is given, and these
    /// levels of its targets.
    pub fn record_row(
        &self,
        recording: &mut Recording,
        id: EvaluationOrder,
        function: Option<FunctionId>,
        operands: &[Place],
        levels: &List<LevelGiven>,
    ) -> Result<(), AllocError>
        requires { IfSome function (λ function. operands.now ≡ context_of self.now.env.now function) }
        ensures { OnOk result (Tells self.now.env.now (row_event self.now.env.now id operands.now levels.now ∷ [])
            recording.old recording.new) }
    {
        self.add_mentions(recording, id, operands)?;
        if levels.is_empty() {
            return Ok(());
        }
        let row = self.row_of(recording, function, operands)?;
        self.add_targets(recording, id, row, levels)
    }

    /// Adds a row that loads a name into another. The names of contexts may stand for others from now on.
    pub fn record_load(
        &self,
        recording: &mut Recording,
        target: IdentifierId,
        loaded: IdentifierId,
    ) -> Result<(), AllocError>
        ensures { OnOk result (Tells self.now.env.now (kinds.Load (declaration_of self.now.env.now target)
            (declaration_of self.now.env.now loaded) ∷ []) recording.old recording.new) }
    {
        recording.known = Keyed::new(self.alloc);
        recording
            .definitions
            .insert(self.declaration(target), self.declaration(loaded))?;
        Ok(())
    }

    /// Adds that a name escapes.
    pub fn record_escape(
        &self,
        recording: &mut Recording,
        number: IdentifierId,
    ) -> Result<(), AllocError>
        ensures { OnOk result (Tells self.now.env.now (kinds.Escape (declaration_of self.now.env.now number) ∷ [])
            recording.old recording.new) }
    {
        recording.escaping.insert(self.declaration(number))?;
        Ok(())
    }

    /// Adds that a name has these scopes.
    pub fn record_within(
        &self,
        recording: &mut Recording,
        number: IdentifierId,
        scopes: &List<ScopeId>,
    ) -> Result<(), AllocError>
        ensures { OnOk result (Tells self.now.env.now
            (kinds.Within (declaration_of self.now.env.now number) scopes.now ∷ []) recording.old recording.new) }
    {
        recording.held.add_within(self.declaration(number), scopes)
    }
}
