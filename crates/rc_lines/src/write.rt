//! Writing a finished text.

ghost use Rattle.std.specs.Prelude.{◌≤◌, OnOk, OnErr};
ghost use Rattle.std.specs.Io.KnownBytes.{Appends};
ghost use Rattle.rc_lines.specs.Sink.{HasAppendedPrefix, HasRisen};

use crate::sink::{Failed, Sink};
use rc_names::Text;

/// Writes the whole text, in as many calls as the sink needs. Returns `Failed` if a call of the sink fails, and then a
/// prefix of the text was written. This takes no memory.
pub fn write_lines<K: Sink>(sink: &mut K, text: &Text) -> Result<(), Failed>
    ensures ok { OnOk result (Appends (K.written sink.old) (K.written sink.new) text.now) }
    ensures err { OnErr result (HasAppendedPrefix (K.written sink.old) (K.written sink.new) text.now) }
    ensures later { K.faults sink.old ≤ K.faults sink.new }
    ensures cause { OnErr result (HasRisen (K.faults sink.old) (K.faults sink.new)) }
{
    write_bytes(sink, text.as_str().as_bytes())
}

/// The same for bytes.
pub fn write_bytes<K: Sink>(sink: &mut K, bytes: &[u8]) -> Result<(), Failed>
    ensures ok { OnOk result (Appends (K.written sink.old) (K.written sink.new) bytes.now) }
    ensures err { OnErr result (HasAppendedPrefix (K.written sink.old) (K.written sink.new) bytes.now) }
    ensures later { K.faults sink.old ≤ K.faults sink.new }
    ensures cause { OnErr result (HasRisen (K.faults sink.old) (K.faults sink.new)) }
{
    let mut at = 0;
    while at < bytes.len() {
        at += sink.write(&bytes[at..])?;
    }
    Ok(())
}
