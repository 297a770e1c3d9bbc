//! The map of a document's blocks, whose seed comes from their numbers.

use rc_doc::read_doc;
use rc_names::BlockId;
use serde_json::Value;
use std::alloc::Global;
use std::test::Fail;

/// Three blocks with numbers that lie apart.
const BLOCKS: &str = r#"{"hir":{"body":{"entry":7,"blocks":[
    {"id":4294967295,"terminal":{"k":"Unreachable","id":1}},
    {"id":7,"terminal":{"k":"Unreachable","id":2}},
    {"id":0,"terminal":{"k":"Unreachable","id":3}}]}},"env":{"config":{},"next_block":8}}"#;

/// The index at which the block with that number is found among the three, if it is.
fn found(alloc: Global, number: u32) -> Result<Option<usize>, Fail> {
    match read_doc(alloc, &Value::from_str(alloc, BLOCKS)?)? {
        Some(doc) => Ok(doc.hir.body.blocks.position(BlockId::new(number))),
        None => Err(Fail::new("the blocks are no document")),
    }
}

#[test]
fn each_block_is_found_under_its_number(rt: HostRuntime) -> Result<(), Fail> {
    let alloc = rt.alloc();
    assert_eq!(rt; found(alloc, 4294967295)?, Some(0));
    assert_eq!(rt; found(alloc, 7)?, Some(1));
    assert_eq!(rt; found(alloc, 0)?, Some(2));
    assert_eq!(rt; found(alloc, 8)?, None);
    Ok(())
}
