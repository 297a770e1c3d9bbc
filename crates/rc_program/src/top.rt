//! The top call: from words and bytes to bytes and a status.

ghost use Rattle.std.specs.Prelude.{◌≡◌, ◌↔◌, ◌⊎◌};
ghost use Rattle.rc_lines.specs.Sink.{HasRisen};
ghost use Rattle.rc_program.specs.declared.command.Command.{Command};
ghost use Rattle.rc_program.specs.declared.status.Status.{Status};
ghost use Rattle.rc_program.specs.Command.{AreWords, IsCommand, ReadNothing, origin_of};
ghost use Rattle.rc_program.specs.DueStatus.{CanFailToRead, CanReplace, IsDueFor};
ghost use Rattle.rc_program.specs.Status.{IsOutcome};
ghost use Rattle.rc_program.specs.inside.Stop.{status_from};

use crate::answer::answer_for;
use crate::command::command_of;
use crate::command_line::Words;
use crate::device::Source;
use crate::load::document_of;
use crate::note::Note;
use crate::status::Status;
use crate::stop::{Stop, status_from};
use rc_lines::Sink;
use std::alloc::Global;

/// Runs the command that the words name: reads a document from the source, or makes one, and writes the text of the
/// command to the sink, or the line of the fault with which the document's graph is refused. Returns the status.
///
/// The bytes are read to their end before they are parsed, and what the text wants of memory is had before any of it is
/// written. Nesting may take that many bytes of stack; a graph that nests deeper ends with `NoMemory`. With the statuses
/// `NotJson`, `NotDoc`, `Refused` and `NoMemory` the note says why, where memory allows.
pub fn program<S: Source, K: Sink>(
    alloc: Global,
    words: &Words,
    source: &mut S,
    sink: &mut K,
    note: &mut Note,
    stack: usize,
) -> Status
    // Each status gives these facts.
    ensures outcome { IsOutcome words.now (S.left source.old) (S.left source.new)
        (K.written sink.old) (K.written sink.new) result }
    ensures read { result ≡ Status.ReadFault → HasRisen (S.faults source.old) (S.faults source.new) }
    ensures write { result ≡ Status.WriteFault → HasRisen (K.faults sink.old) (K.faults sink.new) }
    ensures untouched { ReadNothing words.now → source.new ≡ source.old }

    // Each status comes exactly in these cases: `Usage` by the words alone, and the others by the document, or by the
    // bytes, if the source tells them.
    ensures usage { (result ≡ Status.Usage) ↔ ¬ AreWords words.now }
    ensures exact { (command : Command) (due : Status) → IsCommand words.now command
        → IsDueFor command (S.left source.old) due
        → (result ≡ due) ⊎ CanReplace
        (CanFailToRead (origin_of command) (HasRisen (S.faults source.old) (S.faults source.new)))
        (HasRisen (K.faults sink.old) (K.faults sink.new)) due result }

    // The text is written, unless memory runs out or a device fails.
    ensures complete { (command : Command) → IsCommand words.now command
        → IsDueFor command (S.left source.old) Status.Done
        → ¬ CanFailToRead (origin_of command) (HasRisen (S.faults source.old) (S.faults source.new))
        → ¬ HasRisen (K.faults sink.old) (K.faults sink.new)
        → (result ≡ Status.Done) ⊎ (result ≡ Status.NoMemory) }
{
    status_from(run(alloc, words, source, sink, note, stack))
}

/// The steps of the program, each of which may stop it.
fn run<S: Source, K: Sink>(
    alloc: Global,
    words: &Words,
    source: &mut S,
    sink: &mut K,
    note: &mut Note,
    stack: usize,
) -> Result<Status, Stop>
    ensures outcome { IsOutcome words.now (S.left source.old) (S.left source.new)
        (K.written sink.old) (K.written sink.new) (status_from result) }
    ensures read { status_from result ≡ Status.ReadFault → HasRisen (S.faults source.old) (S.faults source.new) }
    ensures write { status_from result ≡ Status.WriteFault → HasRisen (K.faults sink.old) (K.faults sink.new) }
    ensures untouched { ReadNothing words.now → source.new ≡ source.old }
{
    let Some(command) = command_of(words) else {
        return Err(Stop::Usage);
    };
    let given = document_of(alloc, command, source, note)?;
    let answer = answer_for(alloc, command, given, note, stack)?;
    match answer.text.write_to(sink) {
        Ok(()) => Ok(answer.status),
        Err(_) => Err(Stop::WriteFault),
    }
}
