//! The numbers of an early return's identifiers and of its label.

ghost use Rattle.std.specs.Prelude.{◌≡◌, ◌+◌, ◌<◌, ◌^◌, nat_lt, IsTrue};
ghost use Rattle.rc_early.specs.Entries as spec;

use crate::early_return::Sentinel;
use rc_hir::{Environment, ReactiveScopeEarlyReturn};
use rc_names::{BlockId, IdentifierId, Span};

/// Whether enough numbers are left for one more early return after that many.
pub(crate) fn has_room_after(env: &Environment, count: usize) -> bool
    ensures { result ≡ spec.has_room env.now (count + 1) }
{
    if !is_number(count) {
        return false;
    }
    let entries = 5 * (count + 1);
    is_number(env.identifiers.len() + entries)
        && is_number(env.types.len() + entries)
        && is_number(env.next_block as usize + (count + 1))
}

/// Whether a length or a number is one of 32 bits.
fn is_number(number: usize) -> bool
    ensures { result ≡ nat_lt number (2 ^ 32) }
{
    number < 1 << 32
}

/// The entry of the early return that is made after that many.
pub(crate) fn next_sentinel(env: &Environment, count: usize, span: Option<Span>) -> Sentinel
    requires { IsTrue (spec.has_room env.now (count + 1)) }
    ensures { result ≡ spec.next_entry env.now count span }
{
    Sentinel {
        entry: ReactiveScopeEarlyReturn {
            value: IdentifierId::new((env.identifiers.len() + 5 * count) as u32),
            span,
            label: BlockId::new(env.next_block + count as u32),
        },
    }
}
