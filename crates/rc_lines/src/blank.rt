//! Spaces.

ghost use Rattle.std.specs.Prelude.{◌≡◌, ◌≤◌, ◌++◌, OnOk, replicate, string_bytes};

use std::alloc::AllocError;

/// The most spaces that `blank` gives.
pub const MOST_SPACES: usize = 32;

/// So many spaces, at most 32.
pub fn blank(count: usize) -> &'static str
    requires { count ≤ 32 }
    ensures { result.now ≡ replicate count 32 }
{
    let spaces = "                                ";
    &spaces[..count]
}

/// Appends spaces. Fails only when out of memory.
pub fn push_spaces(text: &mut String, count: usize) -> Result<(), AllocError>
    ensures { OnOk result (string_bytes text.new ≡ string_bytes text.old ++ replicate count 32) }
{
    let mut left = count;
    while left > 0 {
        let some = left.min(MOST_SPACES);
        text.push_str(blank(some))?;
        left -= some;
    }
    Ok(())
}
