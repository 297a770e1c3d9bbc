//! The checks that come before a graph is built.

ghost use Rattle.std.specs.Prelude.{◌≡◌, ◌↔◌, ◌<◌, IsTrue, All, count_by, option_map};
ghost use Rattle.rc_pipe.specs.Causes.{HasRoom, is_scope, scope_count};
ghost use Rattle.rc_runs.specs.EarlyReturns.{first_early_return};

use rc_hir::{BasicBlock, Environment, HirFunction, Terminal};
use rc_names::{BlockId, ScopeId};

/// The index of the lowest scope that has an early return already.
fn first_early_place(env: &Environment) -> Option<usize>
    ensures { result ≡ first_early_return env.now }
{
    env.scopes
        .as_slice()
        .iter()
        .position(|scope| scope.early_return_value.is_some())
}

/// Returns the lowest scope that has an early return already, if there is one.
pub fn first_early_return(env: &Environment) -> Option<ScopeId>
    ensures { option_map (λ scope. scope.0) result ≡ first_early_return env.now }
{
    let count = env.scopes.len();
    match first_early_place(env) {
        Some(place) => {
            prove!(place < count);
            Some(ScopeId::new(place as u32))
        }
        None => None,
    }
}

/// Whether a terminal opens a scope that is kept so far.
fn is_scope(terminal: &Terminal) -> bool
    ensures { result ≡ is_scope terminal.now }
{
    matches!(terminal, Terminal::Scope { .. })
}

/// How many of these blocks open a scope that is kept so far.
fn scopes_among(blocks: &[BasicBlock]) -> usize
    ensures { result ≡ count_by (λ block. is_scope block.terminal) blocks.now }
{
    blocks
        .iter()
        .filter(|block| is_scope(&block.terminal))
        .count()
}

/// The number of scope blocks that the graph spells.
fn scope_count(hir: &HirFunction) -> usize
    ensures { result ≡ scope_count hir.now }
{
    scopes_among(hir.body.blocks.values())
}

/// Whether each of these keys is below a number.
fn are_below(keys: &[BlockId], number: u32) -> bool
    ensures { IsTrue result ↔ All (λ key. key.0 < number) keys.now }
{
    keys.iter().all(|key| key.0 < number)
}

/// Whether each key of the graph is below a number.
fn are_keys_below(hir: &HirFunction, next_block: u32) -> bool
    ensures { IsTrue result ↔ All (λ entry. entry.0.0 < next_block) hir.now.body.blocks }
{
    are_below(hir.body.blocks.keys(), next_block)
}

/// Returns whether enough numbers are left for an early return in each scope of the graph: five identifiers, five
/// types and a block for each.
pub fn has_room(hir: &HirFunction, env: &Environment) -> bool
    ensures { IsTrue result ↔ HasRoom hir.now env.now }
{
    let last = u32::MAX as u128;
    let scopes = scope_count(hir) as u128;
    let next_block = env.next_block;
    env.identifiers.len() as u128 + 5 * scopes <= last
        && env.types.len() as u128 + 5 * scopes <= last
        && next_block as u128 + scopes <= last
        && are_keys_below(hir, next_block)
}
