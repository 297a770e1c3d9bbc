//! Numbers and quoted texts after what was written before.

ghost use Rattle.std.specs.Prelude.{◌≡◌, ◌++◌, OnOk, decimal, string_bytes};
ghost use Rattle.serde_json.specs.Data.{string};
ghost use Rattle.serde_json.specs.Written.{compact_text};

use itoa::Buffer;
use serde_json::Value;
use std::alloc::AllocError;

/// Writes a number's digits. Fails only when out of memory.
pub fn write_number(out: &mut String, n: u32) -> Result<(), AllocError>
    ensures { OnOk result (string_bytes out.new ≡ string_bytes out.old ++ decimal n) }
{
    let mut digits = Buffer::new();
    out.push_str(digits.format(n))
}

/// Writes a text in JSON's quotes. Fails only when out of memory.
pub fn write_quoted(out: &mut String, text: &str) -> Result<(), AllocError>
    ensures { OnOk result (string_bytes out.new ≡ string_bytes out.old ++ compact_text (string text.now)) }
{
    let alloc = *out.allocator();
    let quoted = Value::try_from_str(alloc, text)?.to_string(alloc)?;
    out.push_str(quoted.as_str())
}
