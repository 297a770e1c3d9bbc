//! The printing form of functions as graphs.

ghost use Rattle.std.specs.Prelude.{◌≡◌, OnOk, Some, slice_get};
ghost use Rattle.rc_doc.specs.Graph.{function_of, hir_of, instruction_of, keyed_block_of};
ghost use Rattle.rc_doc.specs.Places.{param_of};
ghost use Rattle.rc_doc.specs.Reading.{list_of};
ghost use Rattle.rc_show.specs.Sending.{Sends};
ghost use Rattle.rc_show.specs.Showing.{list_data};
ghost use Rattle.rc_flat.specs.ShownGraph.{function_data, hir_data, instruction_data, keyed_block_data, other_key};
ghost use Rattle.rc_flat.specs.ShownGraph.{param_data};
ghost use Rattle.rc_hir.specs.Model.{BasicBlock as Block};
ghost use Rattle.rc_names.specs.Numbers.{BlockId as Key};

use crate::parts::{Part, PartFields};
use rc_hir::{BasicBlock, Hir, HirFunction, Instruction, ParamPattern};
use rc_names::{BlockId, Keyed};
use rc_show::{Fields, NoFields, send_variant};
use serde::Serializer;

impl Part for ParamPattern {
    ghost reads = { param_of };

    ghost shows = { param_data };

    #[tactic(auto, using(crate::proofs::Cited::param_again), unfolding(crate::specs::inside::Cited::param_data))]
    fn send<S: Serializer>(&self, out: &mut S) -> Result<(), S::Error> {
        match self {
            ParamPattern::Place(place) => send_variant(out, "Place", place),
            ParamPattern::Spread(spread) => send_variant(out, "Spread", spread),
        }
    }
}

impl Part for Instruction {
    ghost reads = { instruction_of };

    ghost shows = { instruction_data };

    #[tactic(auto, using(crate::proofs::Cited::instruction_again), unfolding(crate::specs::inside::Cited::instruction_data))]
    fn send<S: Serializer>(&self, out: &mut S) -> Result<(), S::Error> {
        NoFields
            .with("id", &self.id)
            .with("lvalue", &self.lvalue)
            .with_some("span", &self.span)
            .with("value", &self.value)
            .send(out)
    }
}

/// Returns the key of a block, if it isn't the block's id.
fn other_key(key: BlockId, id: BlockId) -> Option<BlockId>
    ensures { result ≡ other_key key id }
{
    if key.0 == id.0 { None } else { Some(key) }
}

/// Sends a block with its key, which is left out where it is the block's id. Fails only when the serializer does.
#[tactic(auto, using(crate::proofs::GraphSent::keyed_again, crate::proofs::GraphSent::keyed_sent))]
fn send_block<S: Serializer>(out: &mut S, key: BlockId, block: &BasicBlock) -> Result<(), S::Error>
    ensures sends { OnOk result (Sends (keyed_block_data (key, block.now)) (S.written out.old) (S.written out.new)) }
    ensures again { OnOk result (keyed_block_of (keyed_block_data (key, block.now)) ≡ Some (key, block.now)) }
{
    let other = other_key(key, block.id);
    NoFields
        .with("id", &block.id)
        .with("instructions", &block.instructions)
        .with_some("key", &other)
        .with_part("terminal", &block.terminal)
        .send(out)
}

/// Sends the block at an index, if there is one. Fails only when the serializer does.
fn send_block_at<S: Serializer>(
    out: &mut S,
    blocks: &Keyed<BlockId, BasicBlock>,
    i: usize,
) -> Result<(), S::Error>
    ensures sends { OnOk result ((entry : Key × Block) → slice_get blocks.now i ≡ Some entry
        → Sends (keyed_block_data entry) (S.written out.old) (S.written out.new)) }
    ensures again { OnOk result ((entry : Key × Block) → slice_get blocks.now i ≡ Some entry
        → keyed_block_of (keyed_block_data entry) ≡ Some entry) }
{
    match blocks.at(i) {
        Some((key, block)) => send_block(out, key, block),
        None => Ok(()),
    }
}

impl Part for Keyed<BlockId, BasicBlock> {
    ghost reads = { list_of keyed_block_of };

    ghost shows = { list_data keyed_block_data };

    fn send<S: Serializer>(&self, out: &mut S) -> Result<(), S::Error> {
        out.begin_seq(None)?;
        for i in 0..self.len() {
            send_block_at(out, self, i)?;
        }
        out.end_seq()
    }
}

impl Part for Hir {
    ghost reads = { hir_of };

    ghost shows = { hir_data };

    #[tactic(auto, using(crate::proofs::Cited::hir_again, crate::proofs::GraphSent::keys_distinct), unfolding(crate::specs::inside::Cited::hir_data))]
    fn send<S: Serializer>(&self, out: &mut S) -> Result<(), S::Error> {
        // Its keys are distinct.
        let _blocks = self.blocks.len();
        NoFields
            .with_part("blocks", &self.blocks)
            .with("entry", &self.entry)
            .send(out)
    }
}

impl Part for HirFunction {
    ghost reads = { function_of };

    ghost shows = { function_data };

    #[tactic(auto, using(crate::proofs::Cited::function_again), unfolding(crate::specs::inside::Cited::function_data))]
    fn send<S: Serializer>(&self, out: &mut S) -> Result<(), S::Error> {
        NoFields
            .with_part("body", &self.body)
            .with("context", &self.context)
            .with("directives", &self.directives)
            .with("generator", &self.generator)
            .with_some("id", &self.id)
            .with_part("instructions", &self.instructions)
            .with("is_async", &self.is_async)
            .with_some("name_hint", &self.name_hint)
            .with_part("params", &self.params)
            .with_some("span", &self.span)
            .send(out)
    }
}
