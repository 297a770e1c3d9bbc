//! The printing form of instruction values and places, exactly as a document has them, a file for each file of the
//! types: as a text and as a JSON value.
#![tactic(auto)]

mod fields;
mod instruction;
mod part;
mod pattern;
mod place;
mod shown;
mod text;

pub use fields::{Fields, NoFields, Show, Tagged, With, WithSome, send_variant};
pub use instruction::{value_json, value_text, write_value};
pub use place::{is_short, place_json, write_place};
pub use text::{write_number, write_quoted};
