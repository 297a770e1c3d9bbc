//! Sources of bytes.
//!
//! A source may tell its bytes, as one in memory does, and it counts its faults, as a sink does.

ghost use Rattle.std.specs.Prelude.{ℕ, List, Option, OnErr, ◌≤◌};
ghost use Rattle.std.specs.Io.{ReadsAtMost};
ghost use Rattle.std.specs.Io.KnownBytes.{ReadConsumes};
ghost use Rattle.rc_lines.specs.Sink.{HasRisen};

use rc_lines::Failed;

/// A source of bytes.
pub trait Source {
    /// The unread bytes, if this device's bytes can be named.
    ghost left: { Self → Option (List ℕ) };

    /// The number of calls that have failed.
    ghost faults: { Self → ℕ };

    /// Puts the next bytes at the front of the buffer and returns their number. For a buffer that isn't empty, 0 means
    /// the end. A call that returns `Failed` takes no bytes.
    fn read(&mut self, buf: &mut [u8]) -> Result<usize, Failed>
        ensures bound { ReadsAtMost result buf.new }
        ensures bytes { ReadConsumes (left self.old) (left self.new) result buf.new }
        ensures later { faults self.old ≤ faults self.new }
        ensures cause { OnErr result (HasRisen (faults self.old) (faults self.new)) };
}
