//! A sentence that is written word by word.

use crate::near::nearest;
use rc_names::Text;
use serde_json::Value;
use std::alloc::{AllocError, Global};
use std::fmt::Write;

/// The most bytes of a text that are shown.
const MOST_SHOWN: usize = 60;

/// A sentence, as far as it is written. Each call that writes fails only when out of memory.
#[derive(Drop)]
pub(crate) struct Sentence {
    alloc: Global,
    text: String,
}

impl Sentence {
    pub(crate) fn new(alloc: Global) -> Sentence {
        let text = String::new(alloc);
        Sentence { alloc, text }
    }

    pub(crate) fn is_empty(&self) -> bool {
        self.text.is_empty()
    }

    pub(crate) fn finish(self) -> Text {
        Text::from(self.text)
    }

    pub(crate) fn push(&mut self, text: &str) -> Result<(), AllocError> {
        self.text.push_str(text)
    }

    pub(crate) fn number(&mut self, number: usize) -> Result<(), AllocError> {
        match write!(self.text, "{number}") {
            Ok(()) => Ok(()),
            Err(_) => Err(AllocError),
        }
    }

    /// A text in quotes, unless it is long.
    pub(crate) fn quoted(&mut self, text: &str) -> Result<(), AllocError> {
        if text.len() > MOST_SHOWN {
            return self.push("a long text");
        }
        let quoted = Value::try_from_str(self.alloc, text)?.to_string(self.alloc)?;
        self.push(quoted.as_str())
    }

    /// A small value itself, and what a large one is.
    pub(crate) fn value(&mut self, value: &Value) -> Result<(), AllocError> {
        match value {
            Value::Array(items) if items.len() == 1 => self.push("an array of 1 item"),
            Value::Array(items) => {
                self.push("an array of ")?;
                self.number(items.len())?;
                self.push(" items")
            }
            Value::Object(_) => self.push("an object"),
            Value::String(text) => self.quoted(text.as_str()),
            _ => {
                let shown = value.to_string(self.alloc)?;
                self.push(shown.as_str())
            }
        }
    }

    /// Words with commas between them.
    pub(crate) fn words(&mut self, words: &[&'static str]) -> Result<(), AllocError> {
        for (index, word) in words.iter().enumerate() {
            if index > 0 {
                self.push(", ")?;
            }
            self.push(word)?;
        }
        Ok(())
    }

    /// What was expected, and which value was found.
    pub(crate) fn expected(&mut self, what: &str, value: &Value) -> Result<(), AllocError> {
        self.push("expected ")?;
        self.push(what)?;
        self.push(", found ")?;
        self.value(value)
    }

    /// That a word isn't one of those of its sort, the one that may be meant, and all of them.
    pub(crate) fn unknown(
        &mut self,
        sort: &str,
        word: &str,
        words: &[&'static str],
    ) -> Result<(), AllocError> {
        self.push("unknown ")?;
        self.push(sort)?;
        self.push(" ")?;
        self.quoted(word)?;
        if let Some(near) = nearest(words, word) {
            self.push(", perhaps ")?;
            self.quoted(near)?;
            self.push(" is meant")?;
        }
        self.push("; the ")?;
        self.push(sort)?;
        self.push("s are ")?;
        self.words(words)
    }
}
