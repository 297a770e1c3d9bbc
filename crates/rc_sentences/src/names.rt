//! Numbers outside their tables: where in the document one is, and how long the table is.
//!
//! The walk is that of the check of these numbers, and stops at the first place that has the number. Each type that has
//! numbers looks at its own, part by part, and keeps the way to the part that it looks at.

mod environment;
mod graph;
mod parts;
mod seeker;
mod value;

use crate::line::Line;
use crate::names::seeker::Seeker;
use rc_hir::{Environment, HirFunction, TableName};
use std::alloc::{AllocError, Global};

/// A number is outside its table.
pub fn write_bad_name(
    alloc: Global,
    line: &mut Line,
    hir: &HirFunction,
    env: &Environment,
    table: TableName,
    index: u32,
) -> Result<(), AllocError> {
    let mut seeker = Seeker::new(alloc, table, index);
    if environment::seek_document(hir, env, &mut seeker)? {
        seeker.write_path(line)?;
    } else {
        line.push("the document")?;
    }
    line.number(name_words(table), index)?;
    line.push(", and ")?;
    write_table(line, env, table, seeker.rows())
}

/// What a number of a table names.
fn name_words(table: TableName) -> &'static str {
    match table {
        TableName::Identifiers => " names identifier ",
        TableName::Declarations => " names declaration ",
        TableName::Types => " names type ",
        TableName::Scopes => " names scope ",
        TableName::Functions => " names function ",
        TableName::Instructions => " names instruction ",
        TableName::Shapes => " names shape ",
    }
}

/// A table, and how many entries it has, given the number of rows of the function at hand.
fn write_table(
    line: &mut Line,
    env: &Environment,
    table: TableName,
    rows: usize,
) -> Result<(), AllocError> {
    match table {
        TableName::Identifiers => write_length(line, "env.identifiers", env.identifiers.len()),
        TableName::Declarations => {
            line.push("declarations share the range of ")?;
            write_length(line, "env.identifiers, which", env.identifiers.len())
        }
        TableName::Types => write_length(line, "env.types", env.types.len()),
        TableName::Scopes => write_length(line, "env.scopes", env.scopes.len()),
        TableName::Functions => write_length(line, "env.functions", env.functions.len()),
        TableName::Instructions => {
            write_length(line, "that function's list of instructions", rows)
        }
        TableName::Shapes => write_length(line, "env.shapes", env.shapes.len()),
    }
}

/// A table with its length.
fn write_length(line: &mut Line, table: &str, length: usize) -> Result<(), AllocError> {
    line.push(table)?;
    match length {
        0 => line.push(" is empty"),
        1 => line.push(" has 1 entry"),
        _ => {
            line.index(" has ", length)?;
            line.push(" entries")
        }
    }
}
