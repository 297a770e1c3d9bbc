//! The whole document, and the values and places that can be read alone.

ghost use Rattle.std.specs.Prelude.{◌≡◌, IfOk};
ghost use Rattle.serde_json.specs.View.{view};
ghost use Rattle.rc_doc.specs.Document.{doc_of};
ghost use Rattle.rc_doc.specs.Kinds.{instruction_value_of};

use crate::fields::{Read, required};
use crate::members::two_fields;
use crate::refusal::Refusal;
use rc_hir::{Environment, HirFunction, InstructionValue};
use serde_json::Value;
use std::alloc::{AllocError, Global};

/// A function, and the environment whose tables its numbers index.
#[derive(Drop)]
pub struct Doc {
    pub hir: HirFunction,
    pub env: Environment,
}

impl Read for Doc {
    ghost reads = { doc_of };

    #[tactic(auto, unfolding(crate::specs::Document::doc_of))]
    fn read(alloc: Global, value: &Value) -> Result<Doc, Refusal> {
        let (env, hir) = two_fields(value, "env", "hir")?;
        let hir = required(alloc, hir)?;
        let env = required(alloc, env)?;
        Ok(Doc { hir, env })
    }
}

/// Returns the document that a JSON value gives, and `None` if the value is no document. Fails only when out of
/// memory.
pub fn read_doc(alloc: Global, value: &Value) -> Result<Option<Doc>, AllocError>
    ensures { IfOk result (λ found. found ≡ doc_of (view value.now)) }
{
    match Doc::read(alloc, value) {
        Ok(doc) => Ok(Some(doc)),
        Err(Refusal::NotDoc) => Ok(None),
        Err(Refusal::Memory) => Err(AllocError),
    }
}

/// Returns the instruction value that a JSON value gives, and `None` if it gives none. Fails only when out of memory.
pub fn read_instruction_value(
    alloc: Global,
    value: &Value,
) -> Result<Option<InstructionValue>, AllocError>
    ensures { IfOk result (λ found. found ≡ instruction_value_of (view value.now)) }
{
    match InstructionValue::read(alloc, value) {
        Ok(read) => Ok(Some(read)),
        Err(Refusal::NotDoc) => Ok(None),
        Err(Refusal::Memory) => Err(AllocError),
    }
}
