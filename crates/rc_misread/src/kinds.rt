//! The fields of each kind of instruction value, in families, each of which hands the name of another
//! family's kind on to the next.

mod calls;
mod expressions;
mod objects;
mod variables;

pub(crate) use variables::value_fields;
