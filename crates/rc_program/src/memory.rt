//! Devices in memory. The numbers of the calls that fail are given.

ghost use Rattle.std.specs.Prelude.{◌≡◌, ◌<◌, ◌≤◌, ◌-◌, ◌++◌, ◌↔◌, ◌⊎◌, [], length, min, take, drop};
ghost use Rattle.std.specs.Prelude.{Some, IfOk, OnOk, OnErr, IsErr, Contains};
ghost use Rattle.std.specs.Io.{ReadsAtMost, WritesAtMost};
ghost use Rattle.std.specs.Io.KnownBytes.{ReadConsumes, WriteAppends};
ghost use Rattle.rc_lines.specs.Sink.{HasRisen};
ghost use Rattle.rc_program.specs.Device.{counted};

use crate::device::Source;
use rc_lines::{Failed, Sink};
use rc_names::List;
use std::alloc::{AllocError, Global};
use std::marker::Model;

/// A source of bytes in memory.
#[derive(Drop)]
pub struct MemorySource {
    bytes: List<u8>,
    at: usize,
    failing: List<u64>,
    calls: u64,
    faults: u64,
}

impl Model for MemorySource {
    ghost use Rattle.std.specs.Prelude.{drop, length, ◌≤◌};
    ghost use Rattle.rc_program.specs.Memory.{SourceState};

    ghost Value = { SourceState };

    ghost view = { λ source. record {
      left = drop source.at source.bytes;
      calls = source.calls;
      faults = source.faults;
      failing = source.failing;
    } };

    ghost invariant = { λ source. source.at ≤ length source.bytes };
}

impl MemorySource {
    /// Returns a source of these bytes. The calls fail whose numbers, from 0, are in `failing`.
    pub fn new(bytes: List<u8>, failing: List<u64>) -> MemorySource
        ensures left { result.left ≡ bytes }
        ensures failing { result.failing ≡ failing }
        ensures calls { result.calls ≡ 0 }
        ensures faults { result.faults ≡ 0 }
    {
        MemorySource {
            bytes,
            at: 0,
            failing,
            calls: 0,
            faults: 0,
        }
    }
}

impl Source for MemorySource {
    ghost left = { λ source. Some source.left };

    ghost faults = { λ source. source.faults };

    fn read(&mut self, buf: &mut [u8]) -> Result<usize, Failed>
        ensures bound { ReadsAtMost result buf.new }
        ensures bytes { ReadConsumes (Some self.old.left) (Some self.new.left) result buf.new }
        ensures later { self.old.faults ≤ self.new.faults }
        ensures cause { OnErr result (HasRisen self.old.faults self.new.faults) }

        // These calls fail, and the others give so many bytes.
        ensures fails { IsErr result ↔ Contains self.old.failing self.old.calls }
        ensures count { IfOk result (λ count. count ≡ min (length buf.old) (length self.old.left)) }

        // These are the counts after the call, and the rest stays.
        ensures calls { self.new.calls ≡ counted self.old.calls }
        ensures ok { OnOk result (self.new.faults ≡ self.old.faults) }
        ensures err { OnErr result (self.new.faults ≡ counted self.old.faults) }
        ensures kept_failing { self.new.failing ≡ self.old.failing }
    {
        let call = self.calls;
        self.calls = self.calls.saturating_add(1);
        if self.failing.as_slice().contains(&call) {
            self.faults = self.faults.saturating_add(1);
            return Err(Failed);
        }
        let count = copy_front(buf, &self.bytes.as_slice()[self.at..]);
        self.at += count;
        Ok(count)
    }
}

/// Copies as many bytes as both have to the front of the buffer, and returns their number.
fn copy_front(buf: &mut [u8], from: &[u8]) -> usize
    ensures count { result ≡ min (length buf.old) (length from.now) }
    ensures bytes { from.now ≡ take result buf.new ++ drop result from.now }
{
    let count = buf.len().min(from.len());
    buf[..count].copy_from_slice(&from[..count]);
    count
}

/// A sink that keeps its bytes in memory.
#[derive(Drop)]
pub struct MemorySink {
    bytes: Vec<u8>,
    room: usize,
    step: usize,
    failing: List<u64>,
    calls: u64,
    faults: u64,
}

impl Model for MemorySink {
    ghost use Rattle.std.specs.Prelude.{◌<◌, ◌≤◌, vec_len, vec_capacity};
    ghost use Rattle.rc_program.specs.Memory.{SinkState};

    ghost Value = { SinkState };

    ghost view = { λ sink. record {
      written = sink.bytes.items;
      room = sink.room;
      step = sink.step;
      calls = sink.calls;
      faults = sink.faults;
      failing = sink.failing;
    } };

    ghost invariant = { λ sink. (0 < sink.step) × (vec_len sink.bytes ≤ sink.room)
        × (sink.room ≤ vec_capacity sink.bytes) };
}

impl MemorySink {
    /// Returns an empty sink with room for `room` bytes, which takes at most `step` of them in a call. The calls fail
    /// whose numbers, from 0, are in `failing`. The only error is that there is no memory for the room.
    pub fn new(
        alloc: Global,
        room: usize,
        step: usize,
        failing: List<u64>,
    ) -> Result<MemorySink, AllocError>
        requires { 0 < step }
        ensures written { IfOk result (λ sink. sink.written ≡ []) }
        ensures room { IfOk result (λ sink. sink.room ≡ room) }
        ensures step { IfOk result (λ sink. sink.step ≡ step) }
        ensures failing { IfOk result (λ sink. sink.failing ≡ failing) }
        ensures calls { IfOk result (λ sink. sink.calls ≡ 0) }
        ensures faults { IfOk result (λ sink. sink.faults ≡ 0) }
    {
        Ok(MemorySink {
            bytes: Vec::with_capacity(alloc, room)?,
            room,
            step,
            failing,
            calls: 0,
            faults: 0,
        })
    }

    /// Returns the bytes that were written.
    pub fn bytes(&self) -> &[u8]
        ensures { result.now ≡ self.now.written }
    {
        self.bytes.as_slice()
    }
}

impl Sink for MemorySink {
    ghost written = { λ sink. Some sink.written };

    ghost faults = { λ sink. sink.faults };

    fn write(&mut self, piece: &[u8]) -> Result<usize, Failed>
        ensures some { 0 < length piece.now → IfOk result (λ count. 0 < count) }
        ensures bound { WritesAtMost result piece.now }
        ensures bytes { WriteAppends (Some self.old.written) (Some self.new.written) result piece.now }
        ensures later { self.old.faults ≤ self.new.faults }
        ensures cause { OnErr result (HasRisen self.old.faults self.new.faults) }

        // These calls fail, and the others take so many bytes.
        ensures fails { IsErr result ↔ (Contains self.old.failing self.old.calls
            ⊎ ((0 < length piece.now) × (self.old.room ≤ length self.old.written))) }
        ensures count { IfOk result (λ count. count
            ≡ min (min self.old.step (self.old.room - length self.old.written)) (length piece.now)) }

        // These are the counts after the call, and the rest stays.
        ensures calls { self.new.calls ≡ counted self.old.calls }
        ensures ok { OnOk result (self.new.faults ≡ self.old.faults) }
        ensures err { OnErr result (self.new.faults ≡ counted self.old.faults) }
        ensures kept_failing { self.new.failing ≡ self.old.failing }
        ensures kept_room { self.new.room ≡ self.old.room }
        ensures kept_step { self.new.step ≡ self.old.step }
    {
        let call = self.calls;
        self.calls = self.calls.saturating_add(1);
        let is_full = self.bytes.len() >= self.room;
        if self.failing.as_slice().contains(&call) || !piece.is_empty() && is_full {
            self.faults = self.faults.saturating_add(1);
            return Err(Failed);
        }
        let count = self.step.min(self.room - self.bytes.len()).min(piece.len());
        if self.bytes.extend_from_slice(&piece[..count]).is_err() {
            self.faults = self.faults.saturating_add(1);
            return Err(Failed);
        }
        Ok(count)
    }
}
