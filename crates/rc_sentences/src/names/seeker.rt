//! The number that is looked for, and the way to the part that is looked at.

use crate::line::Line;
use rc_hir::TableName;
use rc_names::List;
use std::alloc::{AllocError, Global};

/// A step from a part of a document to a part of that.
#[derive(Clone, Copy, Debug, PartialEq, Eq)]
pub enum Step {
    /// To the field with this name.
    Field(&'static str),
    /// To the item at this index.
    Item(usize),
}

/// What is looked for, and where.
#[derive(Drop)]
pub struct Seeker {
    table: TableName,
    index: u32,
    /// The number of rows of the function at hand.
    rows: usize,
    path: List<Step>,
}

impl Seeker {
    pub fn new(alloc: Global, table: TableName, index: u32) -> Seeker {
        Seeker {
            table,
            index,
            rows: 0,
            path: List::new(alloc),
        }
    }

    /// Goes into a function with that many rows.
    pub fn enter_function(&mut self, rows: usize) {
        self.rows = rows;
    }

    /// Whether this number of a table is the one that is looked for. A row of another function may have it too.
    pub fn is(&self, table: TableName, index: u32) -> bool {
        self.table == table
            && self.index == index
            && (table != TableName::Instructions || self.rows <= index as usize)
    }

    /// Steps down to a part. Fails only when out of memory.
    pub fn step(&mut self, step: Step) -> Result<(), AllocError> {
        self.path.push(step)
    }

    /// Steps back up.
    pub fn back(&mut self) {
        self.path.pop();
    }

    /// The number of rows of the function at hand.
    pub fn rows(&self) -> usize {
        self.rows
    }

    /// Writes the way to the part, as it would be written in a program. Fails only when out of memory.
    pub fn write_path(&self, line: &mut Line) -> Result<(), AllocError> {
        let mut is_first = true;
        for step in self.path.as_slice() {
            match step {
                Step::Field(name) => {
                    if !is_first {
                        line.push(".")?;
                    }
                    line.push(name)?;
                }
                Step::Item(index) => {
                    line.index("[", *index)?;
                    line.push("]")?;
                }
            }
            is_first = false;
        }
        Ok(())
    }
}
