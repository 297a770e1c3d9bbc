//! Readers of functions and their graphs.

ghost use Rattle.std.specs.Prelude.{option_and_then};
ghost use Rattle.serde_json.specs.View.{view, items_view};
ghost use Rattle.rc_doc.specs.Graph.{block_of, blocks_of, function_of, hir_of, if_distinct, instruction_of};
ghost use Rattle.rc_doc.specs.Graph.{keyed_block_of};
ghost use Rattle.rc_doc.specs.Reading.{IsRead, all_items};
ghost use Rattle.rc_doc.specs.inside.Blocks.{block_of_members};
ghost use Rattle.rc_doc.specs.inside.Found.{found_data};

use crate::fields::{Read, flag, list_or_empty, number, optional, or_refuse, required};
use crate::members::{four_fields, ten_fields, two_fields};
use crate::refusal::Refusal;
use rc_hir::{BasicBlock, Hir, HirFunction, Instruction};
use rc_names::{BlockId, Keyed, Seed};
use serde_json::Value;
use std::alloc::Global;
use std::hash::{DefaultHasher, Hasher};

impl Read for Instruction {
    ghost reads = { instruction_of };

    #[tactic(auto, unfolding(crate::specs::Graph::instruction_of))]
    fn read(alloc: Global, from: &Value) -> Result<Instruction, Refusal> {
        let (id, lvalue, span, value) = four_fields(from, "id", "lvalue", "span", "value")?;
        let id = required(alloc, id)?;
        let lvalue = required(alloc, lvalue)?;
        let value = required(alloc, value)?;
        let span = optional(alloc, span)?;
        Ok(Instruction {
            id,
            lvalue,
            value,
            span,
        })
    }
}

/// A block of its members; its key isn't a part of it.
fn block_of_members(
    alloc: Global,
    id: Option<&Value>,
    instructions: Option<&Value>,
    terminal: Option<&Value>,
) -> Result<BasicBlock, Refusal>
    ensures { IsRead result (block_of_members (found_data id.entry) (found_data instructions.entry)
        (found_data terminal.entry)) }
{
    let id = required(alloc, id)?;
    let instructions = list_or_empty(alloc, instructions)?;
    let terminal = required(alloc, terminal)?;
    Ok(BasicBlock {
        id,
        instructions,
        terminal,
    })
}

impl Read for BasicBlock {
    ghost reads = { block_of };

    #[tactic(auto, unfolding(crate::specs::Graph::block_of))]
    fn read(alloc: Global, from: &Value) -> Result<BasicBlock, Refusal> {
        let (id, instructions, _, terminal) = four_fields(
            from,
            "id",
            "instructions",
            "key",
            "terminal",
        )?;
        block_of_members(alloc, id, instructions, terminal)
    }
}

#[tactic(auto, unfolding(crate::specs::Graph::keyed_block_of, crate::specs::Graph::block_of))]
fn keyed_block(alloc: Global, from: &Value) -> Result<(BlockId, BasicBlock), Refusal>
    ensures { IsRead result (keyed_block_of (view from.now)) }
{
    let (id, instructions, key, terminal) = four_fields(
        from,
        "id",
        "instructions",
        "key",
        "terminal",
    )?;
    let block = block_of_members(alloc, id, instructions, terminal)?;
    let key: Option<BlockId> = optional(alloc, key)?;
    Ok((key.unwrap_or(block.id), block))
}

/// The key that a block has in its graph, where it can be read.
fn key_of(block: &Value) -> Option<u32> {
    block
        .get("key")
        .and_then(number)
        .or(block.get("id").and_then(number))
}

/// A hash of all keys of the blocks. A document may choose its keys freely: who wants keys that collide under a seed
/// has to choose them by the seed, and here each of them changes it.
fn seed_of(blocks: &[Value]) -> Seed {
    let mut keys = DefaultHasher::new();
    for block in blocks {
        if let Some(key) = key_of(block) {
            keys.write(&key.to_le_bytes());
        }
    }
    Seed::new(keys.finish())
}

/// The blocks, none of which has the key of another.
fn distinct_blocks(alloc: Global, values: &[Value]) -> Result<Keyed<BlockId, BasicBlock>, Refusal>
    ensures { IsRead result (option_and_then if_distinct (all_items keyed_block_of (items_view values.now))) }
{
    let mut blocks = Keyed::with_seed(alloc, values.len(), seed_of(values))?;
    for value in values {
        let (key, block) = keyed_block(alloc, value)?;
        if blocks.insert(key, block)?.is_some() {
            return Err(Refusal::NotDoc);
        }
    }
    Ok(blocks)
}

impl Read for Keyed<BlockId, BasicBlock> {
    ghost reads = { blocks_of };

    #[tactic(auto, unfolding(crate::specs::Graph::blocks_of))]
    fn read(alloc: Global, from: &Value) -> Result<Keyed<BlockId, BasicBlock>, Refusal> {
        let values = or_refuse(from.as_array())?;
        distinct_blocks(alloc, values.as_slice())
    }
}

impl Read for Hir {
    ghost reads = { hir_of };

    #[tactic(auto, unfolding(crate::specs::Graph::hir_of))]
    fn read(alloc: Global, from: &Value) -> Result<Hir, Refusal> {
        let (blocks, entry) = two_fields(from, "blocks", "entry")?;
        let entry = required(alloc, entry)?;
        let blocks = required(alloc, blocks)?;
        Ok(Hir { entry, blocks })
    }
}

impl Read for HirFunction {
    ghost reads = { function_of };

    #[tactic(auto, unfolding(crate::specs::Graph::function_of))]
    fn read(alloc: Global, from: &Value) -> Result<HirFunction, Refusal> {
        let (
            body,
            context,
            directives,
            generator,
            id,
            instructions,
            is_async,
            name_hint,
            params,
            span,
        ) = ten_fields(
            from,
            "body",
            "context",
            "directives",
            "generator",
            "id",
            "instructions",
            "is_async",
            "name_hint",
            "params",
            "span",
        )?;
        let span = optional(alloc, span)?;
        let id = optional(alloc, id)?;
        let name_hint = optional(alloc, name_hint)?;
        let params = list_or_empty(alloc, params)?;
        let generator = flag(generator)?;
        let is_async = flag(is_async)?;
        let context = list_or_empty(alloc, context)?;
        let body = required(alloc, body)?;
        let instructions = list_or_empty(alloc, instructions)?;
        let directives = list_or_empty(alloc, directives)?;
        Ok(HirFunction {
            span,
            id,
            name_hint,
            params,
            generator,
            is_async,
            context,
            body,
            instructions,
            directives,
        })
    }
}
