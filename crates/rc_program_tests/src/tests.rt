//! The program over memory devices, and the libraries below it.

mod built_in_code;
mod commands;
mod devices;
mod library;
mod lines;
mod reasons;
mod replays;
mod want_of_memory;

/// A function that returns its one parameter.
pub const DOCUMENT: &str = r#"{"hir":{"params":[{"k":"Place","v":0}],
"body":{"entry":0,"blocks":[{"id":0,"terminal":{"k":"Return","value":0,"id":1}}]}},
"env":{"identifiers":[{"declaration_id":0,"type_":0}],"types":["Other"],"config":{},"next_block":1}}"#;

/// The printed text of it.
pub const TEXT: &str = "function null hint null generator false async false
param 0
body
  return 0 id 1
fates
";
