//! Devices that fail, that never end, and those of std.

ghost use Rattle.std.specs.Prelude.{None};

use super::{DOCUMENT, TEXT};
use rc_names::{List, Text};
use rc_program::{
    Failed, MemorySink, MemorySource, Sink, Source, Status, StdSink, StdSource, USUAL_STACK, Words,
    program,
};
use std::alloc::{AllocError, Global};
use std::io;
use std::io::{Cursor, Read, Write};
use std::test::Fail;

/// A list of these entries.
fn list<T: Copy + Drop>(alloc: Global, entries: &[T]) -> Result<List<T>, AllocError> {
    let mut list = List::new(alloc);
    for entry in entries {
        list.push(*entry)?;
    }
    Ok(list)
}

/// The command line of the one word `tree`.
fn tree(alloc: Global) -> Result<Words, AllocError> {
    let mut words = List::new(alloc);
    words.push(Text::from_str(alloc, "tree")?)?;
    Ok(words)
}

/// Whether the program ends with that status on a source, and writes that text.
fn is_answered_over<S: Source>(
    alloc: Global,
    source: &mut S,
    due: Status,
    text: &str,
) -> Result<bool, AllocError> {
    let words = tree(alloc)?;
    let mut sink = MemorySink::new(alloc, 1000, 10, List::new(alloc))?;
    let status = program(alloc, &words, source, &mut sink, &mut None, USUAL_STACK);
    Ok(status == due && sink.bytes() == text.as_bytes())
}

/// A source of the document that fails at one call.
fn source_failing_at(alloc: Global, call: u64) -> Result<MemorySource, AllocError> {
    let bytes = list(alloc, DOCUMENT.as_bytes())?;
    Ok(MemorySource::new(bytes, list(alloc, &[call])?))
}

#[test]
fn a_read_that_fails_stops_the_program_and_nothing_is_written(rt: HostRuntime) -> Result<(), Fail> {
    let alloc = rt.alloc();
    // The first call gives all bytes, the second gives the end, and no other is made.
    let cases = [
        (0, Status::ReadFault, ""),
        (1, Status::ReadFault, ""),
        (2, Status::Done, TEXT),
        (3, Status::Done, TEXT),
    ];
    for (call, due, text) in cases {
        let mut source = source_failing_at(alloc, call)?;
        assert!(rt;
            is_answered_over(alloc, &mut source, due, text)?,
            "where call {call} fails"
        );
    }
    Ok(())
}

/// A source of the document that fails at no call.
fn source(alloc: Global) -> Result<MemorySource, AllocError> {
    let bytes = list(alloc, DOCUMENT.as_bytes())?;
    Ok(MemorySource::new(bytes, List::new(alloc)))
}

/// Whether a sink with that room that fails at these calls makes the program fail, and has these bytes then.
fn holds(alloc: Global, room: usize, failing: &[u64], written: &[u8]) -> Result<bool, AllocError> {
    let words = tree(alloc)?;
    let mut sink = MemorySink::new(alloc, room, 10, list(alloc, failing)?)?;
    let status = program(
        alloc,
        &words,
        &mut source(alloc)?,
        &mut sink,
        &mut None,
        USUAL_STACK,
    );
    Ok(status == Status::WriteFault && sink.bytes() == written)
}

#[test]
fn a_write_that_fails_leaves_what_was_written_before(rt: HostRuntime) -> Result<(), Fail> {
    let alloc = rt.alloc();
    for call in 0..9 {
        let written = &TEXT.as_bytes()[..10 * call];
        assert!(rt;
            holds(alloc, 1000, &[call as u64], written)?,
            "where call {call} fails"
        );
    }
    Ok(())
}

#[test]
fn a_full_sink_holds_the_front_of_the_text(rt: HostRuntime) -> Result<(), Fail> {
    assert!(rt; holds(rt.alloc(), 50, &[], &TEXT.as_bytes()[..50])?);
    Ok(())
}

/// A source of spaces that never ends.
#[derive(Drop)]
struct Endless;

impl Source for Endless {
    ghost left = { λ _. None };

    ghost faults = { λ _. 0 };

    fn read(&mut self, buf: &mut [u8]) -> Result<usize, Failed> {
        for byte in buf.iter_mut() {
            *byte = b' ';
        }
        Ok(buf.len())
    }
}

#[test]
fn an_endless_source_is_too_large(rt: HostRuntime) -> Result<(), Fail> {
    assert!(rt; is_answered_over(rt.alloc(), &mut Endless, Status::TooLarge, "")?);
    Ok(())
}

/// A reader and a writer whose calls fail.
#[derive(Drop)]
struct Broken;

impl Read for Broken {
    fn read(&mut self, _buf: &mut [u8]) -> io::Result<usize> {
        Err(io::Error::from(io::ErrorKind::Other))
    }
}

impl Write for Broken {
    fn write(&mut self, _buf: &[u8]) -> io::Result<usize> {
        Err(io::Error::from(io::ErrorKind::Other))
    }

    fn flush(&mut self) -> io::Result<()> {
        Ok(())
    }
}

/// A writer that takes no bytes.
#[derive(Drop)]
struct Stuck;

impl Write for Stuck {
    fn write(&mut self, _buf: &[u8]) -> io::Result<usize> {
        Ok(0)
    }

    fn flush(&mut self) -> io::Result<()> {
        Ok(())
    }
}

#[test]
fn a_reader_of_std_is_a_source(rt: HostRuntime) -> Result<(), Fail> {
    let alloc = rt.alloc();
    let mut broken = StdSource::new(Broken);
    assert!(rt; is_answered_over(alloc, &mut broken, Status::ReadFault, "")?);
    let mut whole = StdSource::new(Cursor::new(DOCUMENT));
    assert!(rt; is_answered_over(alloc, &mut whole, Status::Done, TEXT)?);
    Ok(())
}

/// The status with which the program ends over a sink.
fn status_over<K: Sink>(alloc: Global, sink: &mut K) -> Result<Status, AllocError> {
    let words = tree(alloc)?;
    Ok(program(
        alloc,
        &words,
        &mut source(alloc)?,
        sink,
        &mut None,
        USUAL_STACK,
    ))
}

/// Whether a whole text is written to a list of bytes.
fn is_written_whole(alloc: Global) -> Result<bool, AllocError> {
    let mut written: Vec<u8> = Vec::new(alloc);
    let status = status_over(alloc, &mut StdSink::new(&mut written))?;
    Ok(status == Status::Done && written.as_slice() == TEXT.as_bytes())
}

#[test]
fn a_writer_of_std_is_a_sink(rt: HostRuntime) -> Result<(), Fail> {
    let alloc = rt.alloc();
    assert!(rt; is_written_whole(alloc)?);
    assert_eq!(rt;
        status_over(alloc, &mut StdSink::new(Broken))?,
        Status::WriteFault
    );
    assert_eq!(rt;
        status_over(alloc, &mut StdSink::new(Stuck))?,
        Status::WriteFault
    );
    Ok(())
}
