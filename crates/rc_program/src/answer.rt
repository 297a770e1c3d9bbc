//! The answer for a document: the text of a command, or the line of a fault.

ghost use Rattle.std.specs.Prelude.{◌≡◌, ◌≤◌, ◌^◌, ◌↔◌, IsTrue, MatchResult};
ghost use Rattle.rc_program.specs.DueStatus.{Exceeds, IsTooMuchFor};
ghost use Rattle.rc_lines.specs.FaultLine.{fault_line};
ghost use Rattle.rc_program.specs.ReasonLines.{reason_lines};
ghost use Rattle.rc_program.specs.ReplayLines.{AnswersBody, replay_lines};
ghost use Rattle.rc_program.specs.SlotLines.{slot_lines};
ghost use Rattle.rc_program.specs.Status.{IsTextFor};
ghost use Rattle.rc_program.specs.inside.Replay.{AnswersGraph, HasBodyLine, IsTextAfter};
ghost use Rattle.rc_program.specs.inside.Stop.{HasNoText};
ghost use Rattle.rc_slots.specs.Slots.{slots_of};
ghost use Rattle.rc_tree.specs.TreeNames.{TreeInTables};

use crate::command::Command;
use crate::given::Given;
use crate::note::{Note, note_fault, note_nesting};
use crate::printing::{json_line, reason_lines, replay_lines, slot_lines};
use crate::status::Status;
use crate::stop::Stop;
use rc_doc::Doc;
use rc_hir::{Environment, Fault};
use rc_lines::{Page, count_lines, fates_alone, fault_line, tree_page};
use rc_names::List;
use rc_pipe::{Pruned, build_and_prune_within};
use rc_replay::{GivenRun, has_throw, replay_body, replay_graph};
use rc_slots::{SlotFault, plan_slots};
use rc_tree::ReactiveFunction;
use rc_why::{Reason, why_within};
use std::alloc::Global;
use std::mem::forget;

/// A finished text, and the status of the program once it is written.
#[derive(Drop)]
pub struct Answer {
    pub text: Page,
    pub status: Status,
}

/// Returns the text of the command for the document, or the line of the fault with which its graph is refused, which it
/// notes. Nesting may take that many bytes of stack. Stops with `TooManySlots` where the text would be that of more
/// slots than numbers of 32 bits count, and with `NoMemory` when out of memory.
///
/// The process ends once the text is written, so the graph isn't freed part by part: the system takes it back.
pub fn answer_for(
    alloc: Global,
    command: Command,
    mut given: Given,
    note: &mut Note,
    stack: usize,
) -> Result<Answer, Stop>
    ensures { MatchResult result (λ answer. IsTextFor command given answer.status answer.text)
        (HasNoText (IsTooMuchFor command given.doc)) }
{
    let answer = document_answer(alloc, command, &mut given, note, stack)?;
    forget(given);
    Ok(answer)
}

/// The same for a document that is kept.
fn document_answer(
    alloc: Global,
    command: Command,
    given: &mut Given,
    note: &mut Note,
    stack: usize,
) -> Result<Answer, Stop>
    ensures { MatchResult result (λ answer. IsTextFor command given.old answer.status answer.text)
        (HasNoText (IsTooMuchFor command given.old.doc)) }
{
    if asks_why(command) {
        why_answer(alloc, given, note, stack)
    } else {
        graph_answer(alloc, command, given, note, stack)
    }
}

/// Whether the command asks why scopes have their fates.
fn asks_why(command: Command) -> bool
    ensures { IsTrue result ↔ (command ≡ Command.Why) }
{
    matches!(command, Command::Why)
}

/// The lines of why each scope of a document has its fate. The passes work on a copy of its environment.
fn why_answer(alloc: Global, given: &Given, note: &mut Note, stack: usize) -> Result<Answer, Stop>
    ensures { MatchResult result (λ answer. IsTextFor Command.Why given.now answer.status answer.text)
        (λ stop. stop ≡ Stop.NoMemory) }
{
    match why_within(alloc, &given.doc.hir, &given.doc.env, stack) {
        Ok(reasons) => reasons_answer(alloc, reasons),
        Err(fault) => refusal(alloc, note, &fault, &given.doc, stack),
    }
}

/// The lines of reasons, which are left to the system too.
fn reasons_answer(alloc: Global, reasons: List<Reason>) -> Result<Answer, Stop>
    ensures { MatchResult result (λ answer. (answer.status ≡ Status.Done) × (answer.text ≡ reason_lines reasons))
        (λ stop. stop ≡ Stop.NoMemory) }
{
    let text = reason_lines(alloc, &reasons)?;
    forget(reasons);
    Ok(Answer {
        text,
        status: Status::Done,
    })
}

/// The text of a command that asks no reasons.
fn graph_answer(
    alloc: Global,
    command: Command,
    given: &mut Given,
    note: &mut Note,
    stack: usize,
) -> Result<Answer, Stop>
    requires { ¬ (command ≡ Command.Why) }
    ensures { MatchResult result (λ answer. IsTextFor command given.old answer.status answer.text)
        (HasNoText (IsTooMuchFor command given.old.doc)) }
{
    // The passes change the environment, and a run of the graph is one with its environment as handed in.
    let in_graph = replay_in_graph(alloc, command, given)?;
    match build_and_prune_within(alloc, &given.doc.hir, &mut given.doc.env, stack) {
        Ok(pruned) => pruned_answer(alloc, command, in_graph, given, pruned),
        Err(fault) => refusal(alloc, note, &fault, &given.doc, stack),
    }
}

/// The line of the fault with which a document's graph is refused, which it notes.
fn refusal(
    alloc: Global,
    note: &mut Note,
    fault: &Fault,
    doc: &Doc,
    stack: usize,
) -> Result<Answer, Stop>
    ensures { MatchResult result (λ answer. (answer.status ≡ Status.Refused) × (answer.text ≡ fault_line fault.now)
        × ¬ (fault.now ≡ Fault.NoMemory)) (λ stop. stop ≡ Stop.NoMemory) }
{
    if is_want_of_memory(fault) {
        note_nesting(alloc, note, &doc.hir.body, stack);
        return Err(Stop::NoMemory);
    }
    note_fault(alloc, note, fault, doc);
    Ok(Answer {
        text: fault_line(alloc, fault)?,
        status: Status::Refused,
    })
}

/// Whether the run is one of the graph, for the command that asks it.
fn replay_in_graph(alloc: Global, command: Command, given: &Given) -> Result<bool, Stop>
    ensures { MatchResult result (AnswersGraph command given.now) (λ stop. stop ≡ Stop.NoMemory) }
{
    match command {
        Command::Replay => {
            match replay_graph(alloc, &given.doc.hir, &given.doc.env, &given.run) {
                Ok(found) => Ok(found),
                Err(_) => Err(Stop::NoMemory),
            }
        }
        Command::Tree
        | Command::Fates
        | Command::Why
        | Command::Slots
        | Command::Json
        | Command::Generate(_) => Ok(false),
    }
}

/// The text for a pruned function, which is left to the system too.
fn pruned_answer(
    alloc: Global,
    command: Command,
    in_graph: bool,
    given: &Given,
    pruned: Pruned,
) -> Result<Answer, Stop>
    requires inside { TreeInTables pruned.func given.now.doc.env }
    requires other { ¬ (command ≡ Command.Why) }
    ensures { MatchResult result
        (λ answer. (answer.status ≡ Status.Done) × ¬ Exceeds command given.now.doc.env pruned
        × IsTextAfter command in_graph given.now pruned answer.text)
        (HasNoText (Exceeds command given.now.doc.env pruned)) }
{
    let text = text_of(alloc, command, in_graph, given, &pruned)?;
    forget(pruned);
    Ok(Answer {
        text,
        status: Status::Done,
    })
}

/// The text of a command that asks no reasons, for a document and its answer. For a replay, `in_graph` is the answer on
/// the graph.
fn text_of(
    alloc: Global,
    command: Command,
    in_graph: bool,
    given: &Given,
    pruned: &Pruned,
) -> Result<Page, Stop>
    requires inside { TreeInTables pruned.now.func given.now.doc.env }
    requires other { ¬ (command ≡ Command.Why) }
    ensures { MatchResult result
        (λ text. ¬ Exceeds command given.now.doc.env pruned.now
        × IsTextAfter command in_graph given.now pruned.now text)
        (HasNoText (Exceeds command given.now.doc.env pruned.now)) }
{
    match command {
        Command::Tree => Ok(tree_page(alloc, &pruned.func, &pruned.fates)?),
        Command::Fates => Ok(fates_alone(alloc, &pruned.fates)?),
        Command::Why => unreachable!(),
        Command::Slots => slot_text(alloc, &pruned.func, &given.doc.env),
        Command::Json => Ok(json_line(alloc, &given.doc.env, pruned)?),
        Command::Replay => {
            replay_text(alloc, in_graph, &pruned.func, &given.doc.env, &given.run)
        }
        Command::Generate(_) => {
            Ok(count_lines(alloc, &given.doc.hir, &pruned.func, &pruned.fates)?)
        }
    }
}

/// The lines of a replay: the answer on the graph, and the one on a function's body.
fn replay_text(
    alloc: Global,
    in_graph: bool,
    func: &ReactiveFunction,
    env: &Environment,
    run: &GivenRun,
) -> Result<Page, Stop>
    ensures { MatchResult result (HasBodyLine func.now env.now run.now in_graph) (λ stop. stop ≡ Stop.NoMemory) }
{
    let in_body = replay_in_body(alloc, func, env, run)?;
    Ok(replay_lines(alloc, in_graph, in_body)?)
}

/// Whether the run is one of a function's body; none if it has a throw.
fn replay_in_body(
    alloc: Global,
    func: &ReactiveFunction,
    env: &Environment,
    run: &GivenRun,
) -> Result<Option<bool>, Stop>
    ensures { MatchResult result (AnswersBody func.now env.now run.now) (λ stop. stop ≡ Stop.NoMemory) }
{
    if has_throw(run) {
        return Ok(None);
    }
    match replay_body(alloc, func, env, run) {
        Ok(found) => Ok(Some(found)),
        Err(_) => Err(Stop::NoMemory),
    }
}

/// The lines of the slots of a function's scope blocks.
#[tactic(auto, using(crate::proofs::AnswerLemmas::within))]
fn slot_text(alloc: Global, func: &ReactiveFunction, env: &Environment) -> Result<Page, Stop>
    requires { TreeInTables func.now env.now }
    ensures { MatchResult result
        (λ text. ¬ (2 ^ 32 ≤ (slots_of env.now func.now).total) × (text ≡ slot_lines (slots_of env.now func.now)))
        (HasNoText (2 ^ 32 ≤ (slots_of env.now func.now).total)) }
{
    match plan_slots(alloc, func, env) {
        Ok(plan) => Ok(slot_lines(alloc, &plan)?),
        Err(SlotFault::TooMany) => Err(Stop::TooManySlots),
        Err(SlotFault::NoMemory) => Err(Stop::NoMemory),
        Err(SlotFault::BadName { .. }) => unreachable!(),
    }
}

fn is_want_of_memory(fault: &Fault) -> bool
    ensures { IsTrue result ↔ (fault.now ≡ Fault.NoMemory) }
{
    match fault {
        Fault::NoMemory => true,
        Fault::Malformed { .. }
        | Fault::Todo { .. }
        | Fault::EarlyReturnSet { .. }
        | Fault::ScopeCompleted { .. }
        | Fault::Uninitialised { .. }
        | Fault::NoScopeNode { .. }
        | Fault::BadName { .. }
        | Fault::NoIds
        | Fault::BadTarget { .. }
        | Fault::FunctionCycle { .. } => false,
    }
}
