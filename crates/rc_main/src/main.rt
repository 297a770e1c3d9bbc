//! `rc`: reads a document from standard input, or makes one, and prints the tree of its graph, the fates of its scopes
//! or counts, or the reason why the graph is refused.
//!
//! It is the whole of this crate's public surface: the words, standard input, standard output, standard error and the
//! exit status. What it calls is public in `rc_program`.
#![tactic(auto)]

use rc_program::{
    Note, Status, StdSink, StdSource, USUAL_STACK, program, stack_for_nesting, words,
};
use std::process::ExitCode;
use std::{env, fs, io};

/// Runs the program, says what was wrong, if anything was, and ends with the status.
fn main(rt: HostRuntime) -> ExitCode {
    let mut note = None;
    let status = match run(&rt, &mut note) {
        Ok(status) | Err(status) => status,
    };
    // If standard error fails too, the status still tells the result.
    let _ = say(&rt, status, &note);
    ExitCode::from(status.code())
}

/// Runs the program over the real devices, and returns its status; or the one that comes before it is run.
fn run(rt: &HostRuntime, note: &mut Note) -> Result<Status, Status> {
    let words = words(rt.alloc(), env::args(rt))?;
    let stack = stack_limit(rt)?;
    let mut source = StdSource::new(rt.reader());
    let mut sink = StdSink::new(io::writer(rt));
    Ok(program(rt.alloc(), &words, &mut source, &mut sink, note, stack))
}

/// The bytes of stack that the nesting of a document may take, by the limits that the system tells; `NoMemory` when out
/// of memory.
fn stack_limit(rt: &HostRuntime) -> Result<usize, Status> {
    match fs::read_to_string(rt, "/proc/self/limits") {
        Ok(limits) => Ok(stack_for_nesting(&limits)),
        Err(error) if error.kind() == io::ErrorKind::OutOfMemory => Err(Status::NoMemory),
        Err(_) => Ok(USUAL_STACK),
    }
}

/// Says on standard error what was wrong, and where or why, if memory was left to note it.
fn say(rt: &HostRuntime, status: Status, note: &Note) -> io::Result<()> {
    let Some(sentence) = status.sentence() else {
        return Ok(());
    };
    match note {
        Some(note) => {
            let note = note.as_str();
            eprint!(rt; "rc: {sentence}: ")?;
            eprintln!(rt; "{note}")
        }
        None => match status {
            Status::NotJson | Status::NotDoc | Status::Refused => {
                eprintln!(rt; "rc: {sentence}: no memory to say where")
            }
            _ => eprintln!(rt; "rc: {sentence}"),
        },
    }
}
