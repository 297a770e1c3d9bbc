//! The parts that wait for their places, while two tables are read from the last entry to the first.

ghost use Rattle.rc_doc.specs.Reading.{IsRead};
ghost use Rattle.rc_flat.specs.inside.Assembly as spec;

use crate::queue::Queue;
use rc_doc::Refusal;
use rc_tree::{ReactiveBlock, ReactiveValue};

/// The parts that wait, in the order of their numbers. Calls take them and return those that still wait, as the
/// definitions do.
#[derive(Drop)]
pub struct Found {
    pub blocks: Queue<ReactiveBlock>,
    pub values: Queue<ReactiveValue>,
    /// The number after that of the last block.
    pub next_block: u64,
    /// The number after that of the last value.
    pub next_value: u64,
}

impl Found {
    /// Takes out the block that has waited longest. Refuses if none waits, and if it hasn't this number.
    pub fn take_block(mut self, number: u32) -> Result<(ReactiveBlock, Found), Refusal>
        ensures { IsRead result (spec.take_block number self) }
    {
        if u64::from(number) + 1 != self.next_block {
            return Err(Refusal::NotDoc);
        }
        match self.blocks.take_oldest() {
            Some(block) => {
                self.next_block = u64::from(number);
                Ok((block, self))
            }
            None => Err(Refusal::NotDoc),
        }
    }

    /// The same, if there is a number.
    pub fn take_block_if(
        self,
        number: Option<u32>,
    ) -> Result<(Option<ReactiveBlock>, Found), Refusal>
        ensures { IsRead result (spec.if_there spec.take_block number self) }
    {
        match number {
            Some(number) => {
                let (block, left) = self.take_block(number)?;
                Ok((Some(block), left))
            }
            None => Ok((None, self)),
        }
    }

    /// Takes out the value that has waited longest. Refuses if none waits, and if it hasn't this number.
    pub fn take_value(mut self, number: u32) -> Result<(ReactiveValue, Found), Refusal>
        ensures { IsRead result (spec.take_value number self) }
    {
        if u64::from(number) + 1 != self.next_value {
            return Err(Refusal::NotDoc);
        }
        match self.values.take_oldest() {
            Some(value) => {
                self.next_value = u64::from(number);
                Ok((value, self))
            }
            None => Err(Refusal::NotDoc),
        }
    }

    /// Returns the one block that waits. Refuses if none or another one does, and if a value does.
    pub fn into_body(self) -> Result<ReactiveBlock, Refusal>
        ensures { IsRead result (spec.only_block self.blocks self.values) }
    {
        let Found {
            mut blocks,
            values,
            next_block: _,
            next_value: _,
        } = self;
        let Some(body) = blocks.take_oldest() else {
            return Err(Refusal::NotDoc);
        };
        if !blocks.is_empty() || !values.is_empty() {
            return Err(Refusal::NotDoc);
        }
        Ok(body)
    }
}
