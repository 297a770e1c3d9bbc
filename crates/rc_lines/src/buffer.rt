//! Bytes on their way to a sink, which takes them faster in large pieces than one by one.

ghost use Rattle.std.specs.Prelude.{◌≡◌, ◌<◌, ◌≤◌, [], ◌++◌, OnOk, OnErr, length, take, replicate};
ghost use Rattle.rc_lines.specs.Sink.{HasRisen};
ghost use Rattle.rc_lines.specs.inside.Sent.{HasSent, HasSentSome};

use crate::blank::{MOST_SPACES, blank};
use crate::sink::{Failed, Sink};
use crate::write::write_bytes;
use std::marker::Model;

/// The most bytes that wait.
const BUFFER_BYTES: usize = 8192;

/// Bytes that wait for a sink. They take no memory but the buffer's own.
#[derive(Drop)]
pub struct Buffer {
    bytes: [u8; BUFFER_BYTES],
    used: usize,
}

impl Model for Buffer {
    ghost use Rattle.std.specs.Prelude.{List, ℕ, ◌≤◌, take};

    ghost Value = { List ℕ };

    ghost view = { λ buffer. take buffer.used buffer.bytes };

    ghost invariant = { λ buffer. buffer.used ≤ 8192 };
}

impl Buffer {
    /// A buffer in which nothing waits.
    pub fn new() -> Buffer
        ensures { result ≡ [] }
    {
        Buffer {
            bytes: [0; BUFFER_BYTES],
            used: 0,
        }
    }

    /// Takes the front of a piece, as much as there is room for, and returns the number of its bytes.
    fn fill(&mut self, piece: &[u8]) -> usize
        requires room { length self.old < 8192 }
        ensures bytes { self.new ≡ self.old ++ take result piece.now }
        ensures some { 0 < length piece.now → 0 < result }
        ensures bound { result ≤ length piece.now }
    {
        let count = piece.len().min(BUFFER_BYTES - self.used);
        self.bytes[self.used..self.used + count].copy_from_slice(&piece[..count]);
        self.used += count;
        count
    }

    /// Sends all that waits. After `Failed`, a prefix was sent.
    pub fn flush<K: Sink>(&mut self, sink: &mut K) -> Result<(), Failed>
        ensures ok { OnOk result (HasSent (K.written sink.old) (K.written sink.new) self.old self.new) }
        ensures empty { OnOk result (self.new ≡ []) }
        ensures err { OnErr result (HasSentSome (K.written sink.old) (K.written sink.new) self.old) }
        ensures later { K.faults sink.old ≤ K.faults sink.new }
        ensures cause { OnErr result (HasRisen (K.faults sink.old) (K.faults sink.new)) }
    {
        write_bytes(sink, &self.bytes[..self.used])?;
        self.used = 0;
        Ok(())
    }

    /// Sends all that waits, unless there is room for more.
    fn make_room<K: Sink>(&mut self, sink: &mut K) -> Result<(), Failed>
        ensures ok { OnOk result (HasSent (K.written sink.old) (K.written sink.new) self.old self.new) }
        ensures room { OnOk result (length self.new < 8192) }
        ensures err { OnErr result (HasSentSome (K.written sink.old) (K.written sink.new) self.old) }
        ensures later { K.faults sink.old ≤ K.faults sink.new }
        ensures cause { OnErr result (HasRisen (K.faults sink.old) (K.faults sink.new)) }
    {
        if self.used < BUFFER_BYTES {
            return Ok(());
        }
        self.flush(sink)
    }

    /// Takes a piece, and sends what there is no room for.
    pub fn put<K: Sink>(&mut self, sink: &mut K, piece: &[u8]) -> Result<(), Failed>
        ensures ok { OnOk result
            (HasSent (K.written sink.old) (K.written sink.new) (self.old ++ piece.now) self.new) }
        ensures err { OnErr result
            (HasSentSome (K.written sink.old) (K.written sink.new) (self.old ++ piece.now)) }
        ensures later { K.faults sink.old ≤ K.faults sink.new }
        ensures cause { OnErr result (HasRisen (K.faults sink.old) (K.faults sink.new)) }
    {
        let mut at = 0;
        while at < piece.len() {
            self.make_room(sink)?;
            at += self.fill(&piece[at..]);
        }
        Ok(())
    }

    /// Takes so many spaces.
    pub fn put_spaces<K: Sink>(&mut self, sink: &mut K, count: usize) -> Result<(), Failed>
        ensures ok { OnOk result
            (HasSent (K.written sink.old) (K.written sink.new) (self.old ++ replicate count 32) self.new) }
        ensures err { OnErr result
            (HasSentSome (K.written sink.old) (K.written sink.new) (self.old ++ replicate count 32)) }
        ensures later { K.faults sink.old ≤ K.faults sink.new }
        ensures cause { OnErr result (HasRisen (K.faults sink.old) (K.faults sink.new)) }
    {
        let mut left = count;
        while left > 0 {
            let some = left.min(MOST_SPACES);
            self.put(sink, blank(some).as_bytes())?;
            left -= some;
        }
        Ok(())
    }
}
