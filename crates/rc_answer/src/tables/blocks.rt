//! Sending the table of blocks.

ghost use Rattle.std.specs.Prelude.{◌≡◌, map, IfOk, OnOk, Some};
ghost use Rattle.rc_doc.specs.Reading.{list_of};
ghost use Rattle.rc_tree.specs.declared.statement.ReactiveStatement.{out-ReactiveStatement};
ghost use Rattle.rc_show.specs.Sending.{Sends};
ghost use Rattle.rc_show.specs.Showing.{list_data};
ghost use Rattle.rc_flat.specs.Blocks.{blocks_in, blocks_in_statement, flat_statement, flat_statements, values_in};
ghost use Rattle.rc_flat.specs.Blocks.{values_in_statement};
ghost use Rattle.rc_flat.specs.ReadingFlat.{statement_of};
ghost use Rattle.rc_flat.specs.ShownFlat.{statement_data};
ghost use Rattle.rc_answer.specs.inside.Levels.{blocks_inside, flat_blocks, values_inside, Lengthens};
ghost use Rattle.rc_answer.specs.inside.Numbering.{next_of, Grows};
ghost use Rattle.rc_answer.specs.inside.TablesSent.{AreBlocksSent};

use crate::numbering::statements::Numbering;
use crate::numbering::{Numbered, Parts};
use crate::tables::found;
use rc_show::Show;
use rc_tree::{ReactiveBlock, ReactiveStatement, ReactiveValue};
use serde::Serializer;
use std::alloc::Global;

/// Sends a statement. Fails when the serializer does, and when out of memory.
fn send_statement<'a, S: Serializer>(
    out: &mut S,
    statement: &'a ReactiveStatement,
    numbering: &mut Numbering<'a>,
) -> Result<(), S::Error>
    ensures sends { OnOk result
        (Sends (statement_data (flat_statement (next_of numbering.old) (out-ReactiveStatement statement.now)))
        (S.written out.old) (S.written out.new)) }
    ensures again { OnOk result
        (statement_of (statement_data (flat_statement (next_of numbering.old) (out-ReactiveStatement statement.now)))
        ≡ Some (flat_statement (next_of numbering.old) (out-ReactiveStatement statement.now))) }
    ensures blocks { OnOk result (Grows (blocks_in_statement (out-ReactiveStatement statement.now))
        numbering.old.blocks numbering.new.blocks) }
    ensures values { OnOk result (Grows (values_in_statement (out-ReactiveStatement statement.now))
        numbering.old.values numbering.new.values) }
{
    let view = found(out, numbering.statement(statement))?;
    view.send(out)
}

/// Sends the statements of a block. Fails when the serializer does, and when out of memory.
fn send_block<'a, S: Serializer>(
    out: &mut S,
    statements: &'a [ReactiveStatement],
    numbering: &mut Numbering<'a>,
) -> Result<(), S::Error>
    ensures sends { OnOk result
        (Sends (list_data statement_data (flat_statements (next_of numbering.old) statements.now))
        (S.written out.old) (S.written out.new)) }
    ensures again { OnOk result
        (list_of statement_of (list_data statement_data (flat_statements (next_of numbering.old) statements.now))
        ≡ Some (flat_statements (next_of numbering.old) statements.now)) }
    ensures blocks { OnOk result (Grows (blocks_in statements.now) numbering.old.blocks numbering.new.blocks) }
    ensures values { OnOk result (Grows (values_in statements.now) numbering.old.values numbering.new.values) }
{
    out.begin_seq(None)?;
    for statement in statements {
        send_statement(out, statement, numbering)?;
    }
    out.end_seq()
}

/// Sends the blocks of a level. Fails when the serializer does, and when out of memory.
fn send_level<'a, S: Serializer>(
    out: &mut S,
    level: &[&'a ReactiveBlock],
    numbering: &mut Numbering<'a>,
) -> Result<(), S::Error>
    ensures sends { OnOk result
        (Lengthens (list_of statement_of) (list_data statement_data)
        (flat_blocks (next_of numbering.old) (map (λ block. block.now) level.now))
        (S.written out.old) (S.written out.new)) }
    ensures blocks { OnOk result (Grows (blocks_inside (map (λ block. block.now) level.now))
        numbering.old.blocks numbering.new.blocks) }
    ensures values { OnOk result (Grows (values_inside (map (λ block. block.now) level.now))
        numbering.old.values numbering.new.values) }
{
    for &block in level {
        send_block(out, block.statements.as_slice(), numbering)?;
    }
    Ok(())
}

/// Sends the blocks of a tree, and returns the nested values of their rows and terminals with their numbers. Fails when
/// the serializer does, when out of memory, and when there are more than 32 bits number.
pub fn send_blocks<'a, S: Serializer>(
    out: &mut S,
    alloc: Global,
    body: &'a ReactiveBlock,
) -> Result<Numbered<'a, ReactiveValue>, S::Error>
    ensures { IfOk result (λ values. AreBlocksSent body.now values (S.written out.old) (S.written out.new)) }
{
    // The body has the number 0.
    let mut numbering = Numbering {
        blocks: Numbered::from(alloc, 1),
        values: Numbered::from(alloc, 0),
        alloc,
    };
    let mut level = found(out, Parts::one(alloc, body))?;
    out.begin_seq(None)?;
    while !level.is_empty() {
        send_level(out, level.as_slice(), &mut numbering)?;
        level = numbering.blocks.take(alloc);
    }
    out.end_seq()?;
    let Numbering { values, .. } = numbering;
    Ok(values)
}
