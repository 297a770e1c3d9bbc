//! The reader of instruction values: one function a kind, in families, each of which hands the name of another family's
//! kind on to the next.

mod calls;
mod expressions;
mod objects;
mod variables;

ghost use Rattle.rc_doc.specs.Kinds.{instruction_value_of};

use crate::fields::{Read, or_refuse, tag};
use crate::refusal::Refusal;
use rc_hir::InstructionValue;
use serde_json::Value;
use std::alloc::Global;

impl Read for InstructionValue {
    ghost reads = { instruction_value_of };

    #[tactic(auto, unfolding(crate::specs::Kinds::instruction_value_of))]
    fn read(alloc: Global, from: &Value) -> Result<InstructionValue, Refusal> {
        let name = or_refuse(tag(from))?;
        variables::value_named(alloc, name, from)
    }
}
