//! The reader of the typed numbers.

ghost use Rattle.rc_doc.specs.Numbers.{id_of};

use crate::fields::Read;
use crate::refusal::Refusal;
use rc_names::Id;
use serde_json::Value;
use std::alloc::Global;

impl<K> Read for Id<K> {
    ghost reads = { id_of };

    fn read(alloc: Global, value: &Value) -> Result<Id<K>, Refusal> {
        Ok(Id::new(u32::read(alloc, value)?))
    }
}
