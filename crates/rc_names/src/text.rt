//! An owned text.

ghost use Rattle.std.specs.Prelude.{◌≡◌, IfOk, string_bytes};

use crate::CloneIn;
use std::alloc::{AllocError, Global};
use std::marker::Model;

/// A `String` that contracts see as its bytes.
#[derive(Debug, Drop)]
pub struct Text {
    text: String,
}

impl Model for Text {
    ghost use Rattle.std.specs.Prelude.{List, ℕ, string_bytes};
    ghost use Rattle.std.specs.Coded.{coded_list, coded_ℕ};

    ghost Value = { List ℕ };

    ghost coded = { coded_list coded_ℕ };

    ghost view = { λ it. string_bytes it.text };
}

impl Text {
    /// Returns a copy of a string. Fails only when out of memory.
    pub fn from_str(alloc: Global, s: &str) -> Result<Text, AllocError>
        ensures { IfOk result (λ text. text ≡ s.now) }
    {
        Ok(Text {
            text: String::from_str(alloc, s)?,
        })
    }

    /// Returns the text as a string slice. This takes no memory.
    pub fn as_str(&self) -> &str
        ensures { result.now ≡ self.now }
    {
        self.text.as_str()
    }
}

impl From<String> for Text {
    ghost from_gives = { λ string text. text ≡ string_bytes string };

    /// Makes a finished string a text, without a copy.
    fn from(text: String) -> Text {
        Text { text }
    }
}

impl CloneIn for Text {
    fn clone_in(&self, alloc: Global) -> Result<Text, AllocError> {
        Text::from_str(alloc, self.as_str())
    }
}
