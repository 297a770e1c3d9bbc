//! The events of a tree, in the order of the text.
//!
//! Statements that follow each other are a loop, so that the call stack grows with the nesting alone.
#![tactic(auto, using(crate::proofs::TreeEventsLemmas::parts))]

ghost use Rattle.std.specs.Prelude.{◌≡◌, [], ◌∷◌, ◌++◌, IfOk, OnOk};
ghost use Rattle.std.specs.List.{flat_map};
ghost use Rattle.rc_hir.specs.Environment.{declaration_of};
ghost use Rattle.rc_memo.specs.RowEvents.{walked_events};
ghost use Rattle.rc_memo.specs.TreeEvents.{events_in, events_of_parts, reassigned_by, reassigned_events};
ghost use Rattle.rc_memo.specs.declared.event.MemoEvent.TheVariants as kinds;
ghost use Rattle.rc_memo.specs.inside.Recording.{Tells};
ghost use Rattle.rc_names.specs.Numbers.{EvaluationOrder as Order};
ghost use Rattle.rc_tree.specs.Collected.{collected, collected_cases, collected_if, collected_list};
ghost use Rattle.rc_tree.specs.Collected.{collected_statement, collected_terminal};

use crate::reader::RowReader;
use crate::recording::Recording;
use rc_hir::Place;
use rc_names::{Boxed, IdentifierId, List, ScopeId};
use rc_tree::{
    ReactiveBlock, ReactiveScopeBlock, ReactiveStatement, ReactiveSwitchCase, ReactiveTerminal,
    ReactiveValue,
};
use std::alloc::AllocError;

/// Returns the scope blocks around the inside of a block of this scope. Fails only when out of memory.
// Not inlined, so that a level of nested statements has no room for what this needs; so the two below.
#[inline(never)]
fn inside_of(
    reader: &RowReader<'_>,
    around: &List<ScopeId>,
    scope: ScopeId,
) -> Result<List<ScopeId>, AllocError>
    ensures { IfOk result (λ inside. inside ≡ around.now ++ scope ∷ []) }
{
    let mut inside = around.copy_in(reader.alloc)?;
    inside.push(scope)?;
    Ok(inside)
}

/// Adds that each of these names has these scopes. Fails only when out of memory.
fn add_each_within(
    reader: &RowReader<'_>,
    recording: &mut Recording,
    numbers: &List<IdentifierId>,
    scopes: &List<ScopeId>,
) -> Result<(), AllocError>
    ensures { OnOk result (Tells reader.now.env.now
        (flat_map (λ number. kinds.Within (declaration_of reader.now.env.now number) scopes.now ∷ []) numbers.now)
        recording.old recording.new) }
{
    for number in numbers.as_slice() {
        reader.record_within(recording, *number, scopes)?;
    }
    Ok(())
}

/// Adds that a returned name escapes, and that it has the scope blocks around. Fails only when out of memory.
#[inline(never)]
fn add_returned(
    reader: &RowReader<'_>,
    recording: &mut Recording,
    around: &List<ScopeId>,
    place: Place,
) -> Result<(), AllocError>
    ensures { OnOk result (Tells reader.now.env.now (kinds.Escape (declaration_of reader.now.env.now place.identifier)
        ∷ kinds.Within (declaration_of reader.now.env.now place.identifier) around.now ∷ []) recording.old
        recording.new) }
{
    reader.record_escape(recording, place.identifier)?;
    reader.record_within(recording, place.identifier, around)?;
    Ok(())
}

/// Adds what a scope reassigns. Fails only when out of memory.
#[inline(never)]
#[tactic(auto, using(crate::proofs::TellsLemmas::tells_nothing))]
fn add_reassigned(
    reader: &RowReader<'_>,
    recording: &mut Recording,
    scope: ScopeId,
    inside: &List<ScopeId>,
) -> Result<(), AllocError>
    ensures { OnOk result (Tells reader.now.env.now
        (flat_map (λ number. kinds.Within (declaration_of reader.now.env.now number) inside.now ∷ [])
        (reassigned_by reader.now.env.now scope)) recording.old recording.new) }
{
    match reader.env.scopes.get(scope) {
        Some(known) => add_each_within(reader, recording, &known.reassignments, inside)?,
        None => {}
    }
    Ok(())
}

/// Adds the events of the rows inside a value of a terminal, if there is one.
#[tactic(auto, using(crate::proofs::TellsLemmas::tells_nothing))]
fn add_value_if(
    reader: &RowReader<'_>,
    recording: &mut Recording,
    value: &Option<Boxed<ReactiveValue>>,
) -> Result<(), AllocError>
    ensures { OnOk result (Tells reader.now.env.now (walked_events reader.now.env.now value.now) recording.old recording.new) }
{
    match value {
        Some(value) => add_value(reader, recording, value),
        None => Ok(()),
    }
}

/// Adds the events of the rows inside a value of a terminal.
fn add_value(
    reader: &RowReader<'_>,
    recording: &mut Recording,
    value: &Boxed<ReactiveValue>,
) -> Result<(), AllocError>
    ensures { OnOk result (Tells reader.now.env.now (walked_events reader.now.env.now (Some value.now)) recording.old
        recording.new) }
{
    reader.add_walked(recording, value.get())?;
    Ok(())
}

/// Adds the events of a block.
#[cycle(events)]
fn add_block(
    reader: &RowReader<'_>,
    recording: &mut Recording,
    around: &List<ScopeId>,
    block: &ReactiveBlock,
) -> Result<(), AllocError>
    ensures { OnOk result (Tells reader.now.env.now
        (collected (events_of_parts reader.now.env.now) block.now around.now) recording.old recording.new) }
{
    add_statements(reader, recording, around, block.statements.as_slice())
}

/// Adds the events of statements, one after the other.
#[cycle(events)]
fn add_statements(
    reader: &RowReader<'_>,
    recording: &mut Recording,
    around: &List<ScopeId>,
    all: &[ReactiveStatement],
) -> Result<(), AllocError>
    ensures { OnOk result (Tells reader.now.env.now
        (collected_list (events_of_parts reader.now.env.now) all.now around.now) recording.old recording.new) }
{
    for statement in all {
        add_statement(reader, recording, around, statement)?;
    }
    Ok(())
}

/// Adds the events of a statement.
#[cycle(events)]
fn add_statement(
    reader: &RowReader<'_>,
    recording: &mut Recording,
    around: &List<ScopeId>,
    statement: &ReactiveStatement,
) -> Result<(), AllocError>
    ensures { OnOk result (Tells reader.now.env.now
        (collected_statement (events_of_parts reader.now.env.now) statement.now around.now) recording.old recording.new) }
{
    match statement {
        ReactiveStatement::Instruction(row) => reader.add_row(recording, row)?,
        ReactiveStatement::Terminal(statement) => {
            add_terminal(reader, recording, around, &statement.get().terminal)?;
        }
        ReactiveStatement::Scope(block) => {
            let inside = inside_of(reader, around, block.scope)?;
            add_reassigned(reader, recording, block.scope, &inside)?;
            add_block(reader, recording, &inside, &block.instructions)?;
        }
        ReactiveStatement::PrunedScope(block) => add_block(
            reader,
            recording,
            around,
            &block.instructions,
        )?,
    }
    Ok(())
}

/// Adds the events of a terminal's parts.
#[cycle(events)]
fn add_terminal(
    reader: &RowReader<'_>,
    recording: &mut Recording,
    around: &List<ScopeId>,
    terminal: &ReactiveTerminal,
) -> Result<(), AllocError>
    ensures { OnOk result (Tells reader.now.env.now
        (collected_terminal (events_of_parts reader.now.env.now) terminal.now around.now) recording.old recording.new) }
{
    match terminal {
        ReactiveTerminal::Break { .. }
        | ReactiveTerminal::Continue { .. }
        | ReactiveTerminal::Throw { .. } => {}
        ReactiveTerminal::Return { value, .. } => add_returned(reader, recording, around, *value)?,
        ReactiveTerminal::Switch { cases, .. } => add_cases(
            reader,
            recording,
            around,
            cases.as_slice(),
        )?,
        ReactiveTerminal::DoWhile {
            loop_block,
            test,
            ..
        } => {
            add_block(reader, recording, around, loop_block)?;
            add_value(reader, recording, test)?;
        }
        ReactiveTerminal::While {
            test,
            loop_block,
            ..
        } => {
            add_value(reader, recording, test)?;
            add_block(reader, recording, around, loop_block)?;
        }
        ReactiveTerminal::For {
            init,
            test,
            update,
            loop_block,
            ..
        } => {
            add_value(reader, recording, init)?;
            add_value(reader, recording, test)?;
            add_block(reader, recording, around, loop_block)?;
            add_value_if(reader, recording, update)?;
        }
        ReactiveTerminal::ForOf {
            init,
            test,
            loop_block,
            ..
        } => {
            add_value(reader, recording, init)?;
            add_value(reader, recording, test)?;
            add_block(reader, recording, around, loop_block)?;
        }
        ReactiveTerminal::ForIn {
            init,
            loop_block,
            ..
        } => {
            add_value(reader, recording, init)?;
            add_block(reader, recording, around, loop_block)?;
        }
        ReactiveTerminal::If {
            consequent,
            alternate,
            ..
        } => {
            add_block(reader, recording, around, consequent)?;
            add_if_there(reader, recording, around, alternate)?;
        }
        ReactiveTerminal::Label { block, .. } => add_block(reader, recording, around, block)?,
        ReactiveTerminal::Try { block, handler, .. } => {
            add_block(reader, recording, around, block)?;
            add_block(reader, recording, around, handler)?;
        }
    }
    Ok(())
}

/// Adds the events of the cases of a switch.
#[cycle(events)]
fn add_cases(
    reader: &RowReader<'_>,
    recording: &mut Recording,
    around: &List<ScopeId>,
    cases: &[ReactiveSwitchCase],
) -> Result<(), AllocError>
    ensures { OnOk result ((id : Order) → Tells reader.now.env.now
        (collected_cases (events_of_parts reader.now.env.now) id cases.now around.now) recording.old recording.new) }
{
    for case in cases {
        add_if_there(reader, recording, around, &case.block)?;
    }
    Ok(())
}

/// Adds the events of a block that may be left out.
#[cycle(events)]
fn add_if_there(
    reader: &RowReader<'_>,
    recording: &mut Recording,
    around: &List<ScopeId>,
    block: &Option<ReactiveBlock>,
) -> Result<(), AllocError>
    ensures { OnOk result (Tells reader.now.env.now
        (collected_if (events_of_parts reader.now.env.now) block.now around.now) recording.old recording.new) }
{
    match block {
        Some(block) => add_block(reader, recording, around, block),
        None => Ok(()),
    }
}

/// Adds the events of a whole body, in the order of the text. Fails only when out of memory.
pub fn add_body(
    reader: &RowReader<'_>,
    recording: &mut Recording,
    body: &ReactiveBlock,
) -> Result<(), AllocError>
    ensures { OnOk result (Tells reader.now.env.now (events_in reader.now.env.now body.now) recording.old
        recording.new) }
{
    let around = List::new(reader.alloc);
    add_block(reader, recording, &around, body)
}
