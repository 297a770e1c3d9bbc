//! One block: whether a tree may use it where the walk is, its rows, and its mark.

ghost use Rattle.std.specs.Prelude.{◌≡◌, ◌≤◌, ◌++◌, [], true, false, None, Some, IfOk, IfErr};
ghost use Rattle.std.specs.Option.{option_to_list};
ghost use Rattle.rc_names.specs.Numbers.{same_id};
ghost use Rattle.rc_hir.specs.Terminal.{evaluation_order};
ghost use Rattle.rc_runs.specs.Graph.{basic_block, usable_block};
ghost use Rattle.rc_runs.specs.Silent.{is_unset};
ghost use Rattle.rc_runs.specs.Spelled as spelled;
ghost use Rattle.rc_build.specs.BlockFacts.{times_referenced};
ghost use Rattle.rc_build.specs.RuleFacts.{FaultFact};
ghost use Rattle.rc_build.specs.declared.builder.Site.{Site};
ghost use Rattle.rc_build.specs.inside.Marks.{CanMark, IsUnusable, Marked, is_fresh_scope};
ghost use Rattle.rc_build.specs.inside.CanBuild.{CanBuildList, place_of};
ghost use Rattle.rc_build.specs.inside.Setting.{setting_of};
ghost use Rattle.rc_build.specs.inside.Task.{FromBlock, Spells, progress_of};
ghost use Rattle.rc_build.specs.inside.Built.{Builds, Refused, TakesBlock};

use crate::builder::{Builder, Site, malformed};
use crate::places::position_from;
use crate::rows::put_rows;
use crate::unreachable::has_unreachable_successor;
use rc_hir::{BasicBlock, Fault, HirFunction, Rule, Terminal};
use rc_names::{BlockId, KeySet, ScopeId};
use std::alloc::AllocError;

impl<'g> Builder<'g> {
    /// Builds the rows of the site's block and marks it as used; returns its terminal.
    ///
    /// - `Malformed`: no tree may use it there; it is no key (`NoBlock`), is under another number than its
    ///   own (`KeyDiffers`), is a jump target (`Twice`), has an unset id (`UnsetId`), or can't be marked.
    /// - `BadName`: one of its rows isn't there.
    // Not inlined, so that a row takes no room in the frames of nested calls.
    #[inline(never)]
    pub fn take_block(&mut self, site: Site) -> Result<&'g Terminal, Fault>
        requires { CanBuildList self.old.hir.now self.old.marks site.handler self.old.frames site.block }
        ensures { Builds self.old self.new site (λ terminal. TakesBlock self.old self.new site terminal.now)
            (Refused self.old.hir.now (Spells (setting_of self.old site) (FromBlock site.block))
            self.old.marks.used) result }
    {
        let hir = self.hir;
        let found = find_block(hir, site.block, self.next_place())?;
        if self.frames.is_jump_target_at(site.block, found.place) {
            return Err(malformed(site.block, Rule::Twice));
        }
        put_rows(self.alloc, hir, site.block, found.block, &mut self.out)?;
        self.mark_block(site.block, found)?;
        Ok(&found.block.terminal)
    }

    /// Marks a block as used, and the scope that it opens.
    ///
    /// `Malformed`: it leads to a block that ends in `Unreachable` (`Dead`), is used already (`Twice`), or opens a
    /// scope that is used already (`ScopeTwice`).
    pub fn mark_block(&mut self, key: BlockId, found: FoundBlock<'_>) -> Result<(), Fault>
        requires can { CanMark self.old.hir.now self.old.marks key found.block.now }
        requires placed { place_of self.old.hir.now key ≡ Some found.place }
        ensures { (site : Site) → Builds self.old self.new site
            (λ _. Marked self.old.hir.now key found.entry.block.now.terminal (progress_of self.old)
            (progress_of self.new))
            (IsUnusable self.old.hir.now [] key self.old.marks) result }
    {
        let terminal = &found.block.terminal;
        if has_unreachable_successor(self.hir, terminal, found.place.saturating_add(1)) {
            return Err(malformed(key, Rule::Dead));
        }
        if !self.marks.put_used(key, found.place)? {
            return Err(malformed(key, Rule::Twice));
        }
        if !mark_scope(&mut self.marks.scopes, scope_named(terminal))? {
            return Err(malformed(key, Rule::ScopeTwice));
        }
        Ok(())
    }
}

/// A block of a graph, and its position there.
#[derive(Clone, Copy)]
pub struct FoundBlock<'g> {
    pub place: usize,
    pub block: &'g BasicBlock,
}

/// The block under a key, which may be at that place: `NoBlock` where there is none, `KeyDiffers` where it has another
/// number.
pub fn find_block(hir: &HirFunction, key: BlockId, place: usize) -> Result<FoundBlock<'_>, Fault>
    requires { 1 ≤ times_referenced hir.now key }
    ensures placed { IfOk result (λ found. place_of hir.now key ≡ Some found.place) }
    ensures found { IfOk result (λ found. basic_block hir.now key ≡ Some found.block.now) }
    ensures own { IfOk result (λ found. same_id found.block.now.id key ≡ true) }
    ensures refused { IfErr result (λ _. usable_block hir.now key ≡ None) }
    ensures facts { IfErr result (FaultFact hir.now) }
{
    let Some(place) = position_from(&hir.body.blocks, key, place) else {
        return Err(malformed(key, Rule::NoBlock));
    };
    let block = &hir.body.blocks.values()[place];
    if block.id != key {
        return Err(malformed(key, Rule::KeyDiffers));
    }
    Ok(FoundBlock { place, block })
}

/// The block under a key whose terminal has an id: `UnsetId` where it has none, and otherwise as for `find_block`.
pub fn block_with_id(hir: &HirFunction, key: BlockId, place: usize) -> Result<FoundBlock<'_>, Fault>
    requires { 1 ≤ times_referenced hir.now key }
    ensures placed { IfOk result (λ found. place_of hir.now key ≡ Some found.place) }
    ensures found { IfOk result (λ found. basic_block hir.now key ≡ Some found.block.now) }
    ensures own { IfOk result (λ found. same_id found.block.now.id key ≡ true) }
    ensures set { IfOk result (λ found. is_unset (evaluation_order found.block.now.terminal) ≡ false) }
    ensures refused { IfErr result (λ _. usable_block hir.now key ≡ None) }
    ensures facts { IfErr result (FaultFact hir.now) }
{
    let found = find_block(hir, key, place)?;
    if found.block.terminal.evaluation_order().0 == 0 {
        return Err(malformed(key, Rule::UnsetId));
    }
    Ok(found)
}

/// Puts a scope among the used ones, and returns whether it is new, as where there is none.
fn mark_scope(scopes: &mut KeySet<ScopeId>, scope: Option<ScopeId>) -> Result<bool, AllocError>
    ensures scopes { IfOk result (λ fresh. fresh ≡ true → scopes.new ≡ scopes.old ++ option_to_list scope) }
    ensures fresh { IfOk result (λ fresh. fresh ≡ is_fresh_scope scopes.old scope) }
{
    match scope {
        None => Ok(true),
        Some(scope) => scopes.insert(scope),
    }
}

/// The scope that a terminal opens, kept or pruned.
fn scope_named(terminal: &Terminal) -> Option<ScopeId>
    ensures { result ≡ spelled.scope_named terminal.now }
{
    match terminal {
        Terminal::Scope { scope, .. } | Terminal::PrunedScope { scope, .. } => Some(*scope),
        Terminal::If { .. }
        | Terminal::Branch { .. }
        | Terminal::Logical { .. }
        | Terminal::Ternary { .. }
        | Terminal::Optional { .. }
        | Terminal::Sequence { .. }
        | Terminal::Throw { .. }
        | Terminal::Return { .. }
        | Terminal::Goto { .. }
        | Terminal::Switch { .. }
        | Terminal::DoWhile { .. }
        | Terminal::While { .. }
        | Terminal::For { .. }
        | Terminal::ForOf { .. }
        | Terminal::ForIn { .. }
        | Terminal::Label { .. }
        | Terminal::Unreachable { .. }
        | Terminal::MaybeThrow { .. }
        | Terminal::Try { .. } => None,
    }
}
