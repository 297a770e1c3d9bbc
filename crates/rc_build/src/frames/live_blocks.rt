//! The blocks that a jump can name.

ghost use Rattle.std.specs.Prelude.{◌≡◌, ◌∷◌, ℕ, Bool, List as Items, Some, false, if◌then◌else◌, IfOk};
ghost use Rattle.rc_names.specs.Numbers.{BlockId};
ghost use Rattle.rc_build.specs.inside.LiveBlocks as spec;
ghost use Rattle.rc_runs.specs.Frames.{break_block, continue_block, is_block, is_jump_target};

use crate::places::{FramePlaces, place_of, position_from};
use rc_hir::BasicBlock;
use rc_names::{BitRow, BlockId, Keyed};
use rc_runs::Frame;
use std::alloc::{AllocError, Global};

/// Whether a jump can name a block of the graph, by its position there. Other numbers have no bit.
#[derive(Drop)]
pub struct LiveBlocks<'g> {
    blocks: &'g Keyed<BlockId, BasicBlock>,
    bits: BitRow,
}

impl<'g> LiveBlocks<'g> {
    /// No block is live. The only error is out of memory.
    pub fn new(
        alloc: Global,
        blocks: &'g Keyed<BlockId, BasicBlock>,
    ) -> Result<LiveBlocks<'g>, AllocError>
        ensures none { IfOk result (λ live. spec.TellLive live (λ key. false)) }
        ensures room { IfOk result spec.HasBits }
    {
        Ok(LiveBlocks {
            blocks,
            bits: BitRow::new(alloc, blocks.len())?,
        })
    }

    /// Whether the block is live, if it is one of the graph, where it may be at that place.
    pub fn get(&self, key: BlockId, place: usize) -> Option<bool>
        ensures { (told : BlockId → Bool) → spec.TellLive self.now told → (live : Bool) → result ≡ Some live →
            live ≡ told key }
    {
        match position_from(self.blocks, key, place) {
            Some(place) => self.bits.get(place),
            None => None,
        }
    }

    /// Where the blocks of a frame are in the graph.
    pub fn places_of(&self, frame: Frame) -> FramePlaces
        ensures breaks { (key : BlockId) (place : ℕ) → break_block frame ≡ Some key →
            spec.position_in self.now key ≡ Some place → result.break_place ≡ place }
        ensures continues { (key : BlockId) (place : ℕ) → continue_block frame ≡ Some key →
            spec.position_in self.now key ≡ Some place → result.continue_place ≡ place }
    {
        FramePlaces {
            break_place: place_of(self.blocks, frame.break_block()),
            continue_place: place_of(self.blocks, frame.continue_block()),
        }
    }

    /// Makes the blocks of a frame live that is put inside, which may be at these places.
    pub fn enter(&mut self, frame: Frame, places: FramePlaces)
        requires { spec.HasBits self.old }
        ensures told { (outer : Items Frame) → spec.TellLive self.old (is_jump_target outer) →
            spec.TellLive self.new (is_jump_target (frame ∷ outer)) }
        ensures room { spec.HasBits self.new }
    {
        self.set(frame.break_block(), places.break_place, true);
        self.set(frame.continue_block(), places.continue_place, true);
    }

    /// Leaves a frame, whose blocks may be at these places, and are live as they are outside.
    pub fn leave(
        &mut self,
        frame: Frame,
        places: FramePlaces,
        break_live: bool,
        continue_live: bool,
    )
        requires { spec.HasBits self.old }
        ensures told { (outer : Items Frame) → spec.IsLiveOutside (break_block frame) break_live outer →
            spec.IsLiveOutside (continue_block frame) continue_live outer →
            spec.TellLive self.old (is_jump_target (frame ∷ outer)) → spec.TellLive self.new (is_jump_target outer) }
        ensures room { spec.HasBits self.new }
    {
        self.set(frame.break_block(), places.break_place, break_live);
        self.set(frame.continue_block(), places.continue_place, continue_live);
    }

    /// Sets whether a block is live, if one is given, which may be at that place.
    fn set(&mut self, block: Option<BlockId>, place: usize, live: bool)
        requires { spec.HasBits self.old }
        ensures told { (told : BlockId → Bool) → spec.TellLive self.old told →
            spec.TellLive self.new (λ key. if is_block block key then live else told key) }
        ensures room { spec.HasBits self.new }
    {
        let Some(block) = block else {
            return;
        };
        if let Some(place) = position_from(self.blocks, block, place) {
            self.bits.set(place, live);
        }
    }
}
