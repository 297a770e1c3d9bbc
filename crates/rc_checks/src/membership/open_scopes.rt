//! The scopes of the scope blocks around a statement, in which a scope is found without a look through them.

ghost use Rattle.std.specs.Prelude.{◌≡◌, [], ◌∷◌, drop, OnErr, OnOk};
ghost use Rattle.rc_names.specs.Numbers.{is_among};

use rc_names::{KeySet, List, ScopeId};
use std::alloc::{AllocError, Global};
use std::marker::Model;

/// A scope block, and whether no block of its scope is further out.
#[derive(Clone, Copy)]
struct OpenBlock {
    scope: ScopeId,
    is_outermost: bool,
}

/// Scopes, one inside the other, which contracts see with the innermost first.
///
/// A tree may open a scope inside itself, so the set has the scopes of the blocks each once, in the order of opening.
#[derive(Drop)]
pub struct OpenScopes {
    scopes: KeySet<ScopeId>,
    blocks: List<OpenBlock>,
}

impl Model for OpenScopes {
    ghost use Rattle.std.specs.Prelude.{◌≡◌, List as Entries, reverse};
    ghost use Rattle.rc_checks.specs.inside.OpenScopes.{AreMarked, distinct_scopes, scopes_of};
    ghost use Rattle.rc_names.specs.Numbers.{ScopeId};

    ghost Value = { Entries ScopeId };

    ghost view = { λ it. scopes_of (reverse it.blocks) };

    ghost invariant = { λ it. record {
      scopes : it.scopes ≡ distinct_scopes (reverse it.blocks);
      blocks : AreMarked (reverse it.blocks);
    } };
}

impl OpenScopes {
    /// No scopes, which takes no memory.
    pub fn new(alloc: Global) -> OpenScopes
        ensures { result ≡ [] }
    {
        OpenScopes {
            scopes: KeySet::new(alloc),
            blocks: List::new(alloc),
        }
    }

    /// Whether a scope is open.
    pub fn contains(&self, scope: ScopeId) -> bool
        ensures { result ≡ is_among self.now scope }
    {
        self.scopes.contains(scope)
    }

    /// Opens a scope inside the others. The only error is out of memory, after which nothing changed.
    pub fn push(&mut self, scope: ScopeId) -> Result<(), AllocError>
        ensures ok { OnOk result (self.new ≡ scope ∷ self.old) }
        ensures err { OnErr result (self.new ≡ self.old) }
    {
        let is_outermost = self.scopes.insert(scope)?;
        let pushed = self.blocks.push(OpenBlock {
            scope,
            is_outermost,
        });
        if pushed.is_err() && is_outermost {
            self.scopes.pop();
        }
        pushed
    }

    /// Closes the innermost scope, where one is open.
    pub fn pop(&mut self)
        ensures { self.new ≡ drop 1 self.old }
    {
        if let Some(block) = self.blocks.pop() {
            if block.is_outermost {
                self.scopes.pop();
            }
        }
    }
}
