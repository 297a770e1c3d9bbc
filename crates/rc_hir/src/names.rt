//! The check that every number of a graph and of its environment is in its table.
//!
//! Each type that has numbers checks its own, part by part, in the order of the files of `specs/`: `PartNames`,
//! `ValueNames`, `GraphNames` and `EnvironmentNames`. Nothing is built, and each part is looked at once.

#![tactic(auto, using(crate::proofs::NamesLemmas::judging))]

ghost use Rattle.std.specs.Prelude.{◌≡◌, [], ◌∷◌, All, Any, IfErr, OnOk};
ghost use Rattle.rc_hir.specs.Names as spec;

mod environment;
mod graph;
mod parts;
mod value;

use crate::environment::Environment;
use crate::fault::{Fault, TableName};
use crate::function::HirFunction;

/// The length of each table; the instructions are those of the function at hand.
#[derive(Clone, Copy)]
pub struct Lengths {
    identifiers: usize,
    types: usize,
    scopes: usize,
    functions: usize,
    instructions: usize,
    shapes: usize,
}

impl Lengths {
    fn new(env: &Environment, instructions: usize) -> Lengths
        ensures { result ≡ spec.lengths env.now instructions }
    {
        Lengths {
            identifiers: env.identifiers.len(),
            types: env.types.len(),
            scopes: env.scopes.len(),
            functions: env.functions.len(),
            instructions,
            shapes: env.shapes.len(),
        }
    }

    fn of(self, table: TableName) -> usize
        ensures { result ≡ spec.length_of self table }
    {
        match table {
            TableName::Identifiers | TableName::Declarations => self.identifiers,
            TableName::Types => self.types,
            TableName::Scopes => self.scopes,
            TableName::Functions => self.functions,
            TableName::Instructions => self.instructions,
            TableName::Shapes => self.shapes,
        }
    }

    /// Checks that a number is in its table. Returns `BadName` with the number if it isn't.
    pub fn check(self, table: TableName, index: u32) -> Result<(), Fault>
        ensures { spec.IsCheckOf self ((table, index) ∷ []) result }
    {
        if (index as usize) < self.of(table) {
            Ok(())
        } else {
            Err(Fault::BadName { table, index })
        }
    }
}

/// Checks that every identifier, declaration, type, scope, function, instruction and shape number of the graph, of
/// each function of the table and of the environment is in its table. The rows of a function count also if no block
/// names them. This takes no memory.
///
/// Returns `BadName` with one number that is outside its table. There is no other fault.
pub fn check_names(hir: &HirFunction, env: &Environment) -> Result<(), Fault>
    ensures ok { OnOk result (spec.NamesInTables hir.now env.now) }
    ensures bad_name { IfErr result (spec.NamesOutside hir.now env.now) }
{
    check_function(hir, env)?;
    check_functions(env)?;
    check_tables(env)
}

fn check_function(function: &HirFunction, env: &Environment) -> Result<(), Fault>
    ensures ok { OnOk result (spec.FunctionInTables env.now function.now) }
    ensures bad_name { IfErr result (λ fault. spec.NamesOutsideIn env.now fault function.now) }
{
    graph::check_parts(function, Lengths::new(env, function.instructions.len()))
}

fn check_functions(env: &Environment) -> Result<(), Fault>
    ensures ok { OnOk result (All (spec.FunctionInTables env.now) env.now.functions) }
    ensures bad_name { IfErr result (λ fault. Any (spec.NamesOutsideIn env.now fault) env.now.functions) }
{
    for function in env.functions.as_slice() {
        check_function(function, env)?;
    }
    Ok(())
}

fn check_tables(env: &Environment) -> Result<(), Fault>
    ensures ok { OnOk result (spec.EnvironmentInTables env.now) }
    ensures bad_name { IfErr result (spec.NamesOutsideInEnvironment env.now) }
{
    environment::check_parts(env, Lengths::new(env, 0))
}
