//! The scopes that have a block in the tree that a graph spells.
//!
//! If no block of the graph opens a scope, the tree has no scope block and isn't walked.

ghost use Rattle.std.specs.Prelude.{◌≡◌, ◌↔◌, [], true, All, IfOk, IsTrue, is_none};
ghost use Rattle.rc_pipe.specs.inside.OpenedScopes.{OpensNoScope};
ghost use Rattle.rc_runs.specs.Spelled.{scope_named};
ghost use Rattle.rc_tree.specs.ScopesIn.{scopes_in};

use rc_hir::{BasicBlock, HirFunction, Terminal};
use rc_names::{List, ScopeId};
use rc_tree::{ReactiveBlock, scopes_in};
use std::alloc::{AllocError, Global};

/// The scopes that have a block in the body of the tree that the graph spells. The only error is out of memory.
pub(crate) fn spelled_scopes(
    alloc: Global,
    hir: &HirFunction,
    body: &ReactiveBlock,
) -> Result<List<ScopeId>, AllocError>
    requires { OpensNoScope hir.now → scopes_in body.now ≡ [] }
    ensures { IfOk result (λ scopes. scopes ≡ scopes_in body.now) }
{
    if opens_no_scope(hir) {
        return Ok(List::new(alloc));
    }
    scopes_in(alloc, body)
}

/// Whether no block of the graph opens a scope.
fn opens_no_scope(hir: &HirFunction) -> bool
    ensures { IsTrue result ↔ OpensNoScope hir.now }
{
    open_none(hir.body.blocks.values())
}

/// Whether none of these blocks opens a scope.
fn open_none(blocks: &[BasicBlock]) -> bool
    ensures { IsTrue result ↔ All (λ block. is_none (scope_named block.terminal) ≡ true) blocks.now }
{
    blocks.iter().all(|block| opens_none(&block.terminal))
}

/// Whether a terminal opens no scope, kept or pruned.
fn opens_none(terminal: &Terminal) -> bool
    ensures { result ≡ is_none (scope_named terminal.now) }
{
    !matches!(
        terminal,
        Terminal::Scope { .. } | Terminal::PrunedScope { .. }
    )
}
