//! The rows of a block: their ids, and their statements.

ghost use Rattle.std.specs.Prelude.{◌≡◌, None, Some, IfOk, IfErr, slice_get};
ghost use Rattle.rc_names.specs.Numbers.{BlockId};
ghost use Rattle.rc_hir.specs.declared.fault.Fault.TheVariants as faults;
ghost use Rattle.rc_hir.specs.declared.fault.TableName.TheVariants as table_names;
ghost use Rattle.rc_runs.specs.Graph.{basic_block};
ghost use Rattle.rc_build.specs.RuleFacts.{FaultFact};
ghost use Rattle.rc_build.specs.inside.Built.{IfRefused};
ghost use Rattle.rc_build.specs.inside.Rows.{BuiltRows, HasIds, row_statement_of};

use crate::builder::malformed;
use rc_hir::{BasicBlock, Fault, HirFunction, Instruction, Rule, TableName};
use rc_names::{BlockId, CloneIn, InstructionId, List};
use rc_tree::{ReactiveInstruction, ReactiveStatement, ReactiveValue};
use std::alloc::{AllocError, Global};

/// Appends the statements of a block's rows, where each row and the terminal have an id.
///
/// - `Malformed` with `UnsetId`: a row or the terminal has no id.
/// - `BadName`: a row isn't there.
pub fn put_rows(
    alloc: Global,
    hir: &HirFunction,
    key: BlockId,
    block: &BasicBlock,
    out: &mut List<ReactiveStatement>,
) -> Result<(), Fault>
    requires { basic_block hir.now key ≡ Some block.now }
    ensures ok { IfOk result (λ _. BuiltRows hir.now block.now out.old out.new) }
    ensures refused { IfRefused result (HasIds hir.now block.now → ⊥) }
    ensures facts { IfErr result (FaultFact hir.now) }
{
    // Room for the rows, and for the terminal after them.
    out.reserve(block.instructions.len().saturating_add(1))?;
    put_each(alloc, hir, key, block, out)
}

/// Puts the statements one by one.
fn put_each(
    alloc: Global,
    hir: &HirFunction,
    key: BlockId,
    block: &BasicBlock,
    out: &mut List<ReactiveStatement>,
) -> Result<(), Fault>
    requires { basic_block hir.now key ≡ Some block.now }
    ensures ok { IfOk result (λ _. BuiltRows hir.now block.now out.old out.new) }
    ensures refused { IfRefused result (HasIds hir.now block.now → ⊥) }
    ensures facts { IfErr result (FaultFact hir.now) }
{
    for number in block.instructions.as_slice() {
        let row = find_row(hir, *number)?;
        if row.id.0 == 0 {
            return Err(malformed(key, Rule::UnsetId));
        }
        let statement = row_statement(alloc, row)?;
        out.push(statement)?;
    }
    if block.terminal.evaluation_order().0 == 0 {
        return Err(malformed(key, Rule::UnsetId));
    }
    Ok(())
}

/// The row of a number; `BadName` where there is none.
pub fn find_row(hir: &HirFunction, number: InstructionId) -> Result<&Instruction, Fault>
    ensures ok { IfOk result (λ row. slice_get hir.now.instructions number.0 ≡ Some row.now) }
    ensures err { IfErr result (λ fault. (fault ≡ faults.BadName table_names.Instructions number.0)
        × (slice_get hir.now.instructions number.0 ≡ None)) }
{
    match hir.instructions.get(number.0 as usize) {
        Some(row) => Ok(row),
        None => Err(Fault::BadName {
            table: TableName::Instructions,
            index: number.0,
        }),
    }
}

/// The statement of a row. The only error is out of memory.
fn row_statement(alloc: Global, row: &Instruction) -> Result<ReactiveStatement, AllocError>
    ensures { IfOk result (λ statement. statement ≡ row_statement_of row.now) }
{
    Ok(ReactiveStatement::Instruction(ReactiveInstruction {
        id: row.id,
        lvalue: Some(row.lvalue),
        value: ReactiveValue::Instruction(row.value.clone_in(alloc)?),
        span: row.span,
    }))
}
