//! The numbers of blocks.

ghost use Rattle.std.specs.Prelude.{◌≡◌, ◌++◌, IfOk, OnOk};
ghost use Rattle.rc_flat.specs.Blocks.{block_if, block_of_case, blocks_in_cases, flat_cases, number_if};
ghost use Rattle.rc_answer.specs.inside.Numbering.{Grows};
ghost use Rattle.rc_answer.specs.inside.Cases.{flat_case};

use crate::numbering::Numbered;
use rc_flat::FlatSwitchCase;
use rc_names::List;
use rc_tree::{ReactiveBlock, ReactiveSwitchCase};
use std::alloc::{AllocError, Global};

impl<'a> Numbered<'a, ReactiveBlock> {
    /// Returns the number of a block, if there is one.
    #[tactic(auto, using(crate::proofs::NumberingLemmas::grows_none))]
    pub fn number_if(&mut self, block: &'a Option<ReactiveBlock>) -> Result<Option<u32>, AllocError>
        ensures number { IfOk result (λ n. n ≡ number_if self.old.next block.now) }
        ensures grows { OnOk result (Grows (block_if block.now) self.old self.new) }
    {
        match block {
            Some(block) => Ok(Some(self.number(block)?)),
            None => Ok(None),
        }
    }

    /// Returns a case of a switch with the number of its block.
    pub fn case(&mut self, case: &'a ReactiveSwitchCase) -> Result<FlatSwitchCase, AllocError>
        ensures case { IfOk result (λ flat. flat ≡ flat_case self.old.next case.now) }
        ensures grows { OnOk result (Grows (block_if (block_of_case case.now)) self.old self.new) }
    {
        Ok(FlatSwitchCase {
            test: case.test,
            block: self.number_if(&case.block)?,
        })
    }

    /// Returns the cases of a switch with the numbers of their blocks.
    pub fn cases(
        &mut self,
        alloc: Global,
        cases: &'a [ReactiveSwitchCase],
    ) -> Result<List<FlatSwitchCase>, AllocError>
        ensures cases { IfOk result (λ flat. flat ≡ flat_cases self.old.next cases.now) }
        ensures grows { OnOk result (Grows (blocks_in_cases cases.now) self.old self.new) }
    {
        let mut flat = List::new(alloc);
        for case in cases {
            let case = self.case(case)?;
            flat.push(case)?;
        }
        Ok(flat)
    }
}
