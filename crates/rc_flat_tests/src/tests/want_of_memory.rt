//! What is answered where memory runs out. `bench/want-of-memory` runs each test again for each call for memory, which
//! fails.
//!
//! A test says on standard error that its text is read, and later whether there was no memory.

use super::answers::FOR_WITH_A_DO_WHILE;
use rc_flat::read_function;
use serde_json::Value;
use std::alloc::Global;
use std::mem::forget;
use std::test::Fail;

/// Whether the value gives a function; `None` where memory runs out.
///
/// A tree that is dropped asks for memory and can do without, so it isn't.
fn is_given(alloc: Global, value: &Value) -> Option<bool> {
    match read_function(alloc, value) {
        Ok(Some(func)) => {
            forget(func);
            Some(true)
        }
        Ok(None) => Some(false),
        Err(_) => None,
    }
}

#[test]
fn no_function_is_refused_for_want_of_memory(rt: HostRuntime) -> Result<(), Fail> {
    let value = Value::from_str(rt.alloc(), FOR_WITH_A_DO_WHILE)?;
    eprintln!(rt; "read")?;
    if let Some(given) = is_given(rt.alloc(), &value) {
        assert!(rt; given);
    } else {
        eprintln!(rt; "no memory")?;
    }
    Ok(())
}
