//! The reader of terminals: one function a terminal, in families, each of which hands the name of another family's
//! terminal on to the next.

mod blocks;
mod branches;
mod jumps;
mod loops;

ghost use Rattle.rc_doc.specs.Terminals.{terminal_of};

use crate::fields::{Read, or_refuse, tag};
use crate::refusal::Refusal;
use rc_hir::Terminal;
use serde_json::Value;
use std::alloc::Global;

impl Read for Terminal {
    ghost reads = { terminal_of };

    #[tactic(auto, unfolding(crate::specs::Terminals::terminal_of))]
    fn read(alloc: Global, from: &Value) -> Result<Terminal, Refusal> {
        let name = or_refuse(tag(from))?;
        jumps::terminal_named(alloc, name, from)
    }
}
