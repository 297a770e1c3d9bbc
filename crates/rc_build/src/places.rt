//! Where blocks are in the graph, kept or guessed to save look-ups.

ghost use Rattle.std.specs.Prelude.{◌≡◌, ℕ, Some, position};
ghost use Rattle.std.specs.Map.{keys_of, lookup};
ghost use Rattle.std.specs.Option.{option_copied};
ghost use Rattle.rc_names.specs.Numbers.{BlockId, same_id};

use rc_hir::BasicBlock;
use rc_names::{BlockId, Keyed};

/// The place of a block that isn't looked up yet, or isn't in the graph.
pub const UNKNOWN: usize = usize::MAX;

/// Where the blocks of a frame may be in the graph. What is done with a place is right for any: it is looked up again
/// where another block is there.
#[derive(Clone, Copy)]
pub struct FramePlaces {
    pub break_place: usize,
    pub continue_place: usize,
}

/// The position of a block in the graph, without a look-up where it is at that place.
pub fn position_from(
    blocks: &Keyed<BlockId, BasicBlock>,
    key: BlockId,
    place: usize,
) -> Option<usize>
    ensures { result ≡ position (same_id key) (keys_of blocks.now) }
{
    if place >= blocks.len() || blocks.keys()[place] != key {
        return blocks.position(key);
    }
    Some(place)
}

/// The block under a key, if there is one, without a look-up where it is at that place.
pub fn block_from(
    blocks: &Keyed<BlockId, BasicBlock>,
    key: BlockId,
    place: usize,
) -> Option<&BasicBlock>
    ensures { option_copied result ≡ lookup (same_id key) blocks.now }
{
    match position_from(blocks, key, place) {
        Some(place) => Some(&blocks.values()[place]),
        None => None,
    }
}

/// The place of a block, if one is given.
pub fn place_of(blocks: &Keyed<BlockId, BasicBlock>, block: Option<BlockId>) -> usize
    ensures { (key : BlockId) (place : ℕ) → block ≡ Some key →
        position (same_id key) (keys_of blocks.now) ≡ Some place → result ≡ place }
{
    match block {
        Some(key) => blocks.position(key).unwrap_or(UNKNOWN),
        None => UNKNOWN,
    }
}
