//! The blocks of the graph.

ghost use Rattle.std.specs.Prelude.{◌≡◌, ◌∷◌, [], ◌++◌, ◌*◌, ◌+◌, ◌≤◌, ◌<◌, ◌^◌, IfOk, OnOk, map};
ghost use Rattle.rc_names.specs.Numbers.{to_id};
ghost use Rattle.rc_gen.specs.Units as spec;
ghost use Rattle.rc_gen.specs.Generated.{generated_function, most_units};
ghost use Rattle.rc_gen.specs.inside.Keys.{AreKeysBelow};

use crate::kind::Kind;
use crate::parts::place;
use rc_hir::{BasicBlock, GotoVariant, Terminal};
use rc_names::{BlockId, EvaluationOrder, InstructionId, Keyed, List, ScopeId};
use std::alloc::{AllocError, Global};

/// Blocks under their numbers.
type Blocks = Keyed<BlockId, BasicBlock>;

/// The blocks: those of the units, and the one that returns the result.
#[tactic(auto, using(crate::proofs::SizeLemmas::scope_id_small, crate::proofs::SizeLemmas::scope_row_small))]
pub fn blocks(alloc: Global, units: u32) -> Result<Blocks, AllocError>
    requires { units ≤ most_units }
    ensures { IfOk result (λ blocks. blocks ≡ (generated_function units).body.blocks) }
{
    let mut blocks = Keyed::new(alloc);
    let mut id = 2;
    let mut number = 1;
    for unit in 0..units {
        let kind = Kind::of(unit);
        add_scope_blocks(alloc, &mut blocks, unit, id, number)?;
        add_if_blocks(alloc, &mut blocks, unit, id, number)?;
        id += kind.ids();
        number += kind.rows();
    }
    let rows = one_row(alloc, number)?;
    let terminal = Terminal::Return {
        value: place(2, false),
        id: EvaluationOrder::new(id + 1),
        span: None,
    };
    add_block(&mut blocks, 4 * units, rows, terminal)?;
    Ok(blocks)
}

/// Adds the two blocks of a unit's scope, from the id of its terminal and the number of its row.
fn add_scope_blocks(
    alloc: Global,
    blocks: &mut Blocks,
    unit: u32,
    id: u32,
    number: u32,
) -> Result<(), AllocError>
    requires few { unit ≤ most_units }
    requires room { id < 2 ^ 31 }
    requires before { AreKeysBelow (4 * unit) blocks.old }
    ensures ok { OnOk result (blocks.new ≡ blocks.old ++ spec.scope_blocks unit id number) }
    ensures after { OnOk result (AreKeysBelow (4 * unit + 2) blocks.new) }
{
    let fallthrough = fallthrough_of(unit);
    let opening = opening_rows(alloc, unit)?;
    let inside = one_row(alloc, number)?;
    let scope = Terminal::Scope {
        fallthrough: BlockId::new(fallthrough),
        block: BlockId::new(4 * unit + 1),
        scope: ScopeId::new(unit),
        id: EvaluationOrder::new(id),
        span: None,
    };
    add_block(blocks, 4 * unit, opening, scope)?;
    add_block(blocks, 4 * unit + 1, inside, jump(fallthrough, id + 2))
}

/// Adds the two blocks of a unit's `If`, where it has one.
#[tactic(auto, using(crate::proofs::SizeLemmas::keys_below_more))]
fn add_if_blocks(
    alloc: Global,
    blocks: &mut Blocks,
    unit: u32,
    id: u32,
    number: u32,
) -> Result<(), AllocError>
    requires few { unit ≤ most_units }
    requires room { id < 2 ^ 31 }
    requires rows { number < 2 ^ 31 }
    requires before { AreKeysBelow (4 * unit + 2) blocks.old }
    ensures ok { OnOk result (blocks.new ≡ blocks.old ++ spec.if_blocks (spec.kind_of unit) unit id number) }
    ensures after { OnOk result (AreKeysBelow (4 * (unit + 1)) blocks.new) }
{
    if Kind::of(unit) == Kind::Kept {
        return Ok(());
    }
    let next = 4 * unit + 4;
    let none = List::new(alloc);
    let inside = one_row(alloc, number + 1)?;
    let branch = Terminal::If {
        test: place(0, false),
        consequent: BlockId::new(4 * unit + 3),
        alternate: BlockId::new(next),
        fallthrough: BlockId::new(next),
        id: EvaluationOrder::new(id + 3),
        span: None,
    };
    add_block(blocks, 4 * unit + 2, none, branch)?;
    add_block(blocks, 4 * unit + 3, inside, jump(next, id + 5))
}

/// Adds a block after those with smaller numbers.
fn add_block(
    blocks: &mut Blocks,
    number: u32,
    rows: List<InstructionId>,
    terminal: Terminal,
) -> Result<(), AllocError>
    requires { AreKeysBelow number blocks.old }
    ensures ok { OnOk result (blocks.new ≡ blocks.old ++ (
      to_id number,
      record { id = to_id number; instructions = rows; terminal = terminal },
    ) ∷ []) }
    ensures after { OnOk result (AreKeysBelow (number + 1) blocks.new) }
{
    let id = BlockId::new(number);
    let block = BasicBlock {
        id,
        instructions: rows,
        terminal,
    };
    blocks.insert(id, block)?;
    Ok(())
}

/// The fallthrough of the scope of a unit.
fn fallthrough_of(unit: u32) -> u32
    requires { unit ≤ most_units }
    ensures { result ≡ spec.fallthrough_of (spec.kind_of unit) unit }
{
    match Kind::of(unit) {
        Kind::Kept => 4 * unit + 4,
        Kind::Merged | Kind::NotEscaping | Kind::Unused | Kind::AlwaysInvalidating => 4 * unit + 2,
    }
}

/// The rows before a unit's scope: the shared array's row in the first unit, none in the others.
fn opening_rows(alloc: Global, unit: u32) -> Result<List<InstructionId>, AllocError>
    ensures { IfOk result (λ rows. rows ≡ map to_id (spec.opening_rows unit)) }
{
    if unit == 0 {
        one_row(alloc, 0)
    } else {
        Ok(List::new(alloc))
    }
}

/// A list of one row.
fn one_row(alloc: Global, number: u32) -> Result<List<InstructionId>, AllocError>
    ensures { IfOk result (λ rows. rows ≡ to_id number ∷ []) }
{
    List::from_slice(alloc, &[InstructionId::new(number)])
}

/// A jump to a block.
fn jump(block: u32, id: u32) -> Terminal
    ensures { result ≡ spec.jump block id }
{
    Terminal::Goto {
        block: BlockId::new(block),
        variant: GotoVariant::Break,
        id: EvaluationOrder::new(id),
        span: None,
    }
}
