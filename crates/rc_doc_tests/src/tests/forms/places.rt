//! Places alone: each form is read, and printed in the shortest form of the same place.

use rc_doc::read_place;
use rc_show::place_json;
use serde_json::Value;
use std::alloc::Global;
use std::test::Fail;

/// Texts of places, each with the shortest text of that place; of those that are none it is empty.
const PLACES: [(&str, &str); 9] = [
    ("1", "1"),
    (r#"[1,"Read",false]"#, "1"),
    (r#"[1,"Read",true]"#, r#"[1,"Read",true]"#),
    (r#"[1,"Store",false]"#, r#"[1,"Store",false]"#),
    (
        r#"[1,"Read",false,[0,4294967295]]"#,
        r#"[1,"Read",false,[0,4294967295]]"#,
    ),
    ("-1", ""),
    ("[1]", ""),
    (r#"[1,"Write",false]"#, ""),
    (r#"[1,"Read",false,null]"#, ""),
];

/// The shortest text of the place that a text has; empty if it has none.
fn shortest(alloc: Global, text: &str) -> Result<String, Fail> {
    let value = Value::from_str(alloc, text)?;
    match read_place(&value) {
        Some(place) => Ok(place_json(alloc, &place)?.to_string(alloc)?),
        None => Ok(String::new(alloc)),
    }
}

#[test]
fn a_place_is_printed_in_its_shortest_form(rt: HostRuntime) -> Result<(), Fail> {
    for (text, due) in PLACES {
        assert_eq!(rt; shortest(rt.alloc(), text)?.as_str(), due, "of {text}");
    }
    Ok(())
}
