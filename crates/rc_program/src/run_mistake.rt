//! Where a value isn't a run, in words.

use crate::given::{read_end, read_event};
use rc_doc::Refusal;
use rc_names::Text;
use serde_json::Value;
use std::alloc::{AllocError, Global};

/// Returns the part of a run that isn't read, and what is expected there. Fails only when out of memory.
pub fn run_mistake(alloc: Global, run: Option<&Value>) -> Result<Text, AllocError> {
    let Some(run) = run else {
        return Text::from_str(alloc, "the key \"run\" is missing");
    };
    if let Some(index) = first_no_event(alloc, run)? {
        let text = format!(in alloc;
            "run.events[{index}]: expected \"Threw\" or an object whose \"k\" is Did, Arm or Chose, with a content \"v\""
        )?;
        return Ok(Text::from(text));
    }
    if has_no_end(alloc, run)? {
        return Text::from_str(
            alloc,
            "run.end: expected \"Open\" or an object whose \"k\" is Returned or Thrown, with a place as \"v\"",
        );
    }
    Text::from_str(
        alloc,
        "run: expected an object with the keys events, an array, and end",
    )
}

/// The index of the first item of the events that is no event.
fn first_no_event(alloc: Global, run: &Value) -> Result<Option<usize>, AllocError> {
    let Some(items) = run.get("events").and_then(Value::as_array) else {
        return Ok(None);
    };
    for (index, item) in items.iter().enumerate() {
        match read_event(alloc, item).err() {
            None => {}
            Some(Refusal::NotDoc) => return Ok(Some(index)),
            Some(Refusal::Memory) => return Err(AllocError),
        }
    }
    Ok(None)
}

/// Whether an object has no end of a run.
fn has_no_end(alloc: Global, run: &Value) -> Result<bool, AllocError> {
    let Some(end) = run.get("end") else {
        return Ok(run.is_object());
    };
    match read_end(alloc, end) {
        Ok(_) => Ok(false),
        Err(Refusal::NotDoc) => Ok(true),
        Err(Refusal::Memory) => Err(AllocError),
    }
}
