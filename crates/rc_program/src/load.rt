//! The document of a command: either the bytes are read to their end, parsed and read as a document, with a run beside
//! it where the command asks for one, or it is generated.

ghost use Rattle.std.specs.Prelude.{◌≡◌, ◌≤◌, IsErrOf, MatchResult, length};
ghost use Rattle.serde_json.specs.View.{view};
ghost use Rattle.rc_program.specs.Command.{IsInRange, IsMade, Read, origin_of};
ghost use Rattle.rc_lines.specs.Sink.{HasRisen};
ghost use Rattle.rc_program.specs.Device.{most_bytes};
ghost use Rattle.rc_program.specs.DueStatus.{IsJson, IsJsonOfDoc};
ghost use Rattle.rc_program.specs.declared.given.Form.{Form as ReadForm};
ghost use Rattle.rc_program.specs.inside.Stop.{IsDocumentOrStop, IsReadOrStop, IsStopFor};

use crate::command::Command;
use crate::device::Source;
use crate::given::{Form, Given, read_given, without_run};
use crate::note::{Note, note_no_doc, note_no_json};
use crate::stop::Stop;
use rc_doc::Refusal;
use rc_gen::generate;
use serde_json::Value;
use std::alloc::Global;
use std::mem::forget;

/// The largest number of bytes that a document may have.
const MAX_BYTES: usize = 16_777_216;

/// The size of the buffer, which is the most that one call of the source may give.
const BUFFER_BYTES: usize = 65_536;

/// The largest document, in bytes, whose bytes stay until it is read, so that lines and columns can be told of what is
/// misread. Most memory is taken by larger ones.
const KEPT_BYTES: usize = 1_048_576;

/// Returns the document of a command: the one that the source gives, or one that is made without it. Stops as `load`
/// does, or when out of memory.
pub fn document_of<S: Source>(
    alloc: Global,
    command: Command,
    source: &mut S,
    note: &mut Note,
) -> Result<Given, Stop>
    requires { IsInRange command }
    ensures outcome { IsDocumentOrStop (origin_of command) (S.left source.old) (S.left source.new) result }
    ensures later { S.faults source.old ≤ S.faults source.new }
    ensures cause { IsErrOf result Stop.ReadFault → HasRisen (S.faults source.old) (S.faults source.new) }
    ensures untouched { IsMade (origin_of command) → source.new ≡ source.old }
{
    match command {
        Command::Tree | Command::Fates | Command::Why | Command::Slots | Command::Json => {
            load(alloc, Form::Alone, source, note)
        }
        Command::Replay => load(alloc, Form::WithRun, source, note),
        Command::Generate(units) => Ok(without_run(alloc, generate(alloc, units)?)),
    }
}

/// Returns the document of that form that a source gives. Stops with `ReadFault` if a call of the source fails,
/// `TooLarge` if there are too many bytes, `NotJson` or `NotDoc` if they are no JSON or no document of the form, which
/// it notes, and `NoMemory` when out of memory.
fn load<S: Source>(
    alloc: Global,
    form: Form,
    source: &mut S,
    note: &mut Note,
) -> Result<Given, Stop>
    ensures outcome { IsDocumentOrStop (Read form) (S.left source.old) (S.left source.new) result }
    ensures later { S.faults source.old ≤ S.faults source.new }
    ensures cause { IsErrOf result Stop.ReadFault → HasRisen (S.faults source.old) (S.faults source.new) }
{
    let bytes = read_to_end(alloc, source)?;
    document(alloc, form, bytes, note)
}

/// The bytes of a source, up to its end. It stops as soon as there are more than a document may have. The buffer is on
/// the stack only as long as this runs.
#[inline(never)]
fn read_to_end<S: Source>(alloc: Global, source: &mut S) -> Result<Vec<u8>, Stop>
    ensures outcome { IsReadOrStop (λ bytes. bytes.items) (S.left source.old) (S.left source.new) result }
    ensures later { S.faults source.old ≤ S.faults source.new }
    ensures cause { IsErrOf result Stop.ReadFault → HasRisen (S.faults source.old) (S.faults source.new) }
{
    let mut bytes = Vec::new(alloc);
    let mut buffer = [0u8; BUFFER_BYTES];
    while bytes.len() <= MAX_BYTES {
        let count = match source.read(&mut buffer) {
            Ok(count) => count,
            Err(_) => return Err(Stop::ReadFault),
        };
        if count == 0 {
            return Ok(bytes);
        }
        bytes.extend_from_slice(&buffer[..count])?;
    }
    Err(Stop::TooLarge)
}

/// The document of that form whose JSON the bytes are.
fn document(alloc: Global, form: Form, mut bytes: Vec<u8>, note: &mut Note) -> Result<Given, Stop>
    requires { length bytes.items ≤ most_bytes }
    ensures { MatchResult result (IsJsonOfDoc form bytes.items) (IsStopFor form bytes.items) }
{
    // The room for bytes has doubled on the way, and most memory is taken while their value is made.
    bytes.shrink_to_fit();
    let value = parse(alloc, bytes.as_slice(), note)?;
    let text = if_kept(bytes);
    match read_given(alloc, form, &value) {
        Ok(given) => {
            // Freeing the value takes a tenth of a whole run, and the process ends soon.
            forget(value);
            Ok(given)
        }
        Err(Refusal::NotDoc) => {
            note_no_doc(alloc, note, form, value, &text);
            Err(Stop::NotDoc)
        }
        Err(Refusal::Memory) => Err(Stop::NoMemory),
    }
}

/// The bytes, unless there are many.
fn if_kept(bytes: Vec<u8>) -> Option<Vec<u8>> {
    if bytes.len() <= KEPT_BYTES {
        Some(bytes)
    } else {
        None
    }
}

/// The value whose JSON the bytes are.
fn parse(alloc: Global, bytes: &[u8], note: &mut Note) -> Result<Value, Stop>
    requires { length bytes.now ≤ most_bytes }
    ensures { MatchResult result (λ value. IsJson bytes.now (view value))
        (λ stop. (form : ReadForm) → IsStopFor form bytes.now stop) }
{
    match Value::from_slice(alloc, bytes) {
        Ok(value) => Ok(value),
        Err(error) if error.is_memory() => Err(Stop::NoMemory),
        Err(error) => {
            note_no_json(alloc, note, bytes, &error);
            Err(Stop::NotJson)
        }
    }
}
