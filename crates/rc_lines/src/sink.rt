//! Sinks of bytes.
//!
//! A sink may tell its bytes, as one in memory does, and it counts its faults. So a contract can name the cause of an
//! error: the count rose, or has its last value.

ghost use Rattle.std.specs.Prelude.{ℕ, List, Option, IfOk, OnErr, length, ◌<◌, ◌≤◌};
ghost use Rattle.std.specs.Io.{WritesAtMost};
ghost use Rattle.std.specs.Io.KnownBytes.{WriteAppends};
ghost use Rattle.rc_lines.specs.Sink.{HasRisen};

/// A call of a device failed.
#[derive(Clone, Copy, Debug, PartialEq, Eq)]
pub struct Failed;

/// A sink of bytes.
pub trait Sink {
    /// The bytes that were written, if the device tells them.
    ghost written: { Self → Option (List ℕ) };

    /// The number of calls that have failed.
    ghost faults: { Self → ℕ };

    /// Appends the front of the piece and returns the number of bytes in it, which is at least one if the piece isn't
    /// empty. A call that returns `Failed` appends nothing.
    fn write(&mut self, piece: &[u8]) -> Result<usize, Failed>
        ensures some { 0 < length piece.now → IfOk result (λ count. 0 < count) }
        ensures bound { WritesAtMost result piece.now }
        ensures bytes { WriteAppends (written self.old) (written self.new) result piece.now }
        ensures later { faults self.old ≤ faults self.new }
        ensures cause { OnErr result (HasRisen (faults self.old) (faults self.new)) };
}
