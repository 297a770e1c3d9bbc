//! The read walk of a whole function: of a tree's function, and of a graph's function with its nested functions.
//!
//! The second keeps a mark for each function of the table while the walk is inside it, so that the walk ends on cyclic
//! tables. Each row is copied once, as a row of the tree for the hooks.
//!
//! After oxc's visitors.rs.
#![tactic(auto, using(rc_tree::proofs::ReadFunctionLemmas::reading_functions))]

ghost use Rattle.std.specs.Prelude.{◌≡◌, ◌⊎◌, false, map, slice_get, slice_set, IfOk, OnOk};
ghost use Rattle.rc_tree.specs.Step.{IsStep, each, perhaps};
ghost use Rattle.rc_tree.specs.Read.{read_block};
ghost use Rattle.rc_hir.specs.Terminal.{evaluation_order};
ghost use Rattle.rc_hir.specs.TerminalOperands.{terminal_operands};
ghost use Rattle.rc_names.specs.Numbers.{FunctionId as Number};
ghost use Rattle.rc_tree.specs.Nested.{IsCycleAt, HasHookFault, HasNoCycle};
ghost use Rattle.rc_tree.specs.ReadFunction.{as_row, basic_block_at, function_at, numbered_at};
ghost use Rattle.rc_tree.specs.ReadFunction.{param_place, read_function, row_at};

use crate::read::held::function_held;
use crate::read::statement::walk_block;
use crate::read::value::{visit_each_place, walk_instruction};
use crate::visitor::ReactiveFunctionVisitor;
use rc_hir::{
    BasicBlock, Fault, HirFunction, Instruction, ParamPattern, Place, TableName, Terminal,
    borrowed_terminal_operands,
};
use rc_names::{BlockId, CloneIn, FunctionId, InstructionId, Keyed, List, Name};
use rc_tree::{ReactiveFunction, ReactiveInstruction, ReactiveValue};
use std::alloc::{AllocError, Global};

/// Walks the body of a function. Returns the fault of a hook, `BadName` if a nested function is outside its table, and
/// `NoMemory` when out of memory.
pub fn visit_reactive_function<V: ReactiveFunctionVisitor>(
    alloc: Global,
    func: &ReactiveFunction,
    visitor: &V,
    state: &mut V::State,
) -> Result<(), Fault>
    ensures { IsStep (read_block (V.steps visitor.now) (V.functions visitor.now) func.now.body
        (V.view visitor.now state.old)) result (V.view visitor.now state.new) }
{
    walk_block(alloc, visitor, &func.body, state)
}

/// Walks a function of the table: its parameters, and then block by block its rows and the operands of the terminal.
/// The nested function that is a row's value is walked after that row.
///
/// Returns the fault of a hook, `BadName` if a function or a row is outside its table, `FunctionCycle` if a function
/// is met inside itself, and `NoMemory` when out of memory.
pub fn visit_hir_function<V: ReactiveFunctionVisitor>(
    alloc: Global,
    visitor: &V,
    func: FunctionId,
    state: &mut V::State,
) -> Result<(), Fault>
    ensures walk { IsStep (read_function (V.steps visitor.now) (V.functions visitor.now) func
        (V.view visitor.now state.old)) result (V.view visitor.now state.new) }
    ensures no_cycle { OnOk result (HasNoCycle (V.functions visitor.now) func) }
    ensures cycle { (g : Number) → result ≡ Err (Fault.FunctionCycle g)
        → HasHookFault (V.steps visitor.now) (Fault.FunctionCycle g)
        ⊎ IsCycleAt (V.functions visitor.now) func g }
{
    let mut entered = none_entered(alloc, visitor.env().functions.as_slice())?;
    walk_function(alloc, visitor, &mut entered, func, state)
}

/// Walks a function, unless the walk is inside it already.
#[cycle(read_function)]
fn walk_function<V: ReactiveFunctionVisitor>(
    alloc: Global,
    visitor: &V,
    entered: &mut List<bool>,
    func: FunctionId,
    state: &mut V::State,
) -> Result<(), Fault>
    ensures walk { IsStep (function_at (V.steps visitor.now) (V.functions visitor.now) entered.old func
        (V.view visitor.now state.old)) result (V.view visitor.now state.new) }
    ensures kept { OnOk result (entered.new ≡ entered.old) }
{
    match entered.get(func.index()).copied() {
        None => Err(bad_name(TableName::Functions, func.0)),
        Some(true) => Err(Fault::FunctionCycle { function: func }),
        Some(false) => {
            mark(entered, func, true);
            walk_numbered(alloc, visitor, entered, func, state)?;
            mark(entered, func, false);
            Ok(())
        }
    }
}

/// Walks the parameters and the blocks of a function.
#[cycle(read_function)]
fn walk_numbered<V: ReactiveFunctionVisitor>(
    alloc: Global,
    visitor: &V,
    entered: &mut List<bool>,
    func: FunctionId,
    state: &mut V::State,
) -> Result<(), Fault>
    ensures walk { IsStep (numbered_at (V.steps visitor.now) (V.functions visitor.now) entered.old func
        (V.view visitor.now state.old)) result (V.view visitor.now state.new) }
    ensures kept { OnOk result (entered.new ≡ entered.old) }
{
    match visitor.env().functions.get(func) {
        None => Err(bad_name(TableName::Functions, func.0)),
        Some(function) => {
            visit_params(visitor, &function.params, state)?;
            walk_blocks(
                alloc,
                visitor,
                entered,
                &function.instructions,
                &function.body.blocks,
                state,
            )
        }
    }
}

/// Walks blocks, in graph order.
#[cycle(read_function)]
fn walk_blocks<V: ReactiveFunctionVisitor>(
    alloc: Global,
    visitor: &V,
    entered: &mut List<bool>,
    rows: &List<Instruction>,
    blocks: &Keyed<BlockId, BasicBlock>,
    state: &mut V::State,
) -> Result<(), Fault>
    ensures walk { IsStep (each (basic_block_at (V.steps visitor.now) (V.functions visitor.now) entered.old rows.now)
        blocks.now (V.view visitor.now state.old)) result (V.view visitor.now state.new) }
    ensures kept { OnOk result (entered.new ≡ entered.old) }
{
    for i in 0..blocks.len() {
        walk_basic_block(alloc, visitor, entered, rows, blocks, i, state)?;
    }
    Ok(())
}

/// Walks the rows of the block at an index, and visits its terminal's operands.
#[cycle(read_function)]
fn walk_basic_block<V: ReactiveFunctionVisitor>(
    alloc: Global,
    visitor: &V,
    entered: &mut List<bool>,
    rows: &List<Instruction>,
    blocks: &Keyed<BlockId, BasicBlock>,
    place: usize,
    state: &mut V::State,
) -> Result<(), Fault>
    ensures walk { IsStep (perhaps (basic_block_at (V.steps visitor.now) (V.functions visitor.now) entered.old rows.now)
        (slice_get blocks.now place) (V.view visitor.now state.old)) result (V.view visitor.now state.new) }
    ensures kept { OnOk result (entered.new ≡ entered.old) }
{
    match blocks.at(place) {
        Some((_key, block)) => {
            walk_rows(alloc, visitor, entered, rows, &block.instructions, state)?;
            visit_terminal_operands(alloc, visitor, &block.terminal, state)
        }
        None => Ok(()),
    }
}

/// Walks the rows with these numbers.
#[cycle(read_function)]
fn walk_rows<V: ReactiveFunctionVisitor>(
    alloc: Global,
    visitor: &V,
    entered: &mut List<bool>,
    rows: &List<Instruction>,
    ids: &List<InstructionId>,
    state: &mut V::State,
) -> Result<(), Fault>
    ensures walk { IsStep (each (row_at (V.steps visitor.now) (V.functions visitor.now) entered.old rows.now) ids.now
        (V.view visitor.now state.old)) result (V.view visitor.now state.new) }
    ensures kept { OnOk result (entered.new ≡ entered.old) }
{
    for id in ids.as_slice() {
        walk_row(alloc, visitor, entered, rows, *id, state)?;
    }
    Ok(())
}

/// Walks the row with a number as a row of the tree, and then the function that is its value.
#[cycle(read_function)]
fn walk_row<V: ReactiveFunctionVisitor>(
    alloc: Global,
    visitor: &V,
    entered: &mut List<bool>,
    rows: &List<Instruction>,
    id: InstructionId,
    state: &mut V::State,
) -> Result<(), Fault>
    ensures walk { IsStep (row_at (V.steps visitor.now) (V.functions visitor.now) entered.old rows.now id
        (V.view visitor.now state.old)) result (V.view visitor.now state.new) }
    ensures kept { OnOk result (entered.new ≡ entered.old) }
{
    match rows.get(id.index()) {
        None => Err(bad_name(TableName::Instructions, id.0)),
        Some(row) => {
            let copy = row_of_tree(alloc, row)?;
            walk_instruction(alloc, visitor, &copy, state)?;
            walk_held(alloc, visitor, entered, function_held(&row.value), state)
        }
    }
}

/// Walks the function that is a row's value, if it is one.
#[cycle(read_function)]
fn walk_held<V: ReactiveFunctionVisitor>(
    alloc: Global,
    visitor: &V,
    entered: &mut List<bool>,
    held: Option<FunctionId>,
    state: &mut V::State,
) -> Result<(), Fault>
    ensures walk { IsStep (perhaps (function_at (V.steps visitor.now) (V.functions visitor.now) entered.old) held
        (V.view visitor.now state.old)) result (V.view visitor.now state.new) }
    ensures kept { OnOk result (entered.new ≡ entered.old) }
{
    match held {
        Some(func) => walk_function(alloc, visitor, entered, func, state),
        None => Ok(()),
    }
}

/// Visits the place of each parameter.
fn visit_params<V: ReactiveFunctionVisitor>(
    visitor: &V,
    params: &List<ParamPattern>,
    state: &mut V::State,
) -> Result<(), Fault>
    ensures { IsStep (each (λ p. (V.steps visitor.now).visit_param (param_place p)) params.now
        (V.view visitor.now state.old)) result (V.view visitor.now state.new) }
{
    for param in params.as_slice() {
        visitor.visit_param(&place_of(param), state)?;
    }
    Ok(())
}

/// Visits the operands of a terminal, at its id.
fn visit_terminal_operands<V: ReactiveFunctionVisitor>(
    alloc: Global,
    visitor: &V,
    terminal: &Terminal,
    state: &mut V::State,
) -> Result<(), Fault>
    ensures { IsStep (each ((V.steps visitor.now).visit_place (evaluation_order terminal.now)) (terminal_operands
        terminal.now) (V.view visitor.now state.old)) result (V.view visitor.now state.new) }
{
    let places = borrowed_terminal_operands(alloc, terminal)?;
    visit_each_place(
        visitor,
        terminal.evaluation_order(),
        places.as_slice(),
        state,
    )
}

/// A row of a graph as a row of the tree, with a copy of its value.
fn row_of_tree(alloc: Global, row: &Instruction) -> Result<ReactiveInstruction, AllocError>
    ensures { IfOk result (λ copy. copy ≡ as_row row.now) }
{
    Ok(ReactiveInstruction {
        id: row.id,
        lvalue: Some(row.lvalue),
        value: ReactiveValue::Instruction(row.value.clone_in(alloc)?),
        span: row.span,
    })
}

/// The place of a parameter.
fn place_of(param: &ParamPattern) -> Place
    ensures { result ≡ param_place param.now }
{
    match param {
        ParamPattern::Place(place) => *place,
        ParamPattern::Spread(spread) => spread.place,
    }
}

/// A mark for each function, none of which is entered.
fn none_entered(alloc: Global, functions: &[HirFunction]) -> Result<List<bool>, AllocError>
    ensures { IfOk result (λ entered. entered ≡ map (λ x. false) functions.now) }
{
    let mut entered = List::new(alloc);
    for function in functions {
        entered.push(false)?;
    }
    Ok(entered)
}

/// Marks a function as entered or not.
fn mark(entered: &mut List<bool>, func: FunctionId, is_entered: bool)
    ensures { entered.new ≡ slice_set entered.old func.0 is_entered }
{
    if let Some(mark) = entered.get_mut(func.index()) {
        *mark = is_entered;
    }
}

/// The fault of a number outside its table.
fn bad_name(table: TableName, index: u32) -> Fault
    ensures { result ≡ Fault.BadName table index }
{
    Fault::BadName { table, index }
}
