//! The printing form as `serde` writes it: as a text, and as a JSON value.

ghost use Rattle.std.specs.Prelude.{◌≡◌, IfOk, OnOk, Some, string_bytes, true};
ghost use Rattle.serde_json.specs.View.{view};
ghost use Rattle.serde_json.specs.Written.{compact_text};
ghost use Rattle.rc_show.specs.inside.Plain.{is_plain};
ghost use Rattle.rc_show.specs.Sending.{Sends};

use crate::fields::Show;
use serde::{Described, Serialize, Serializer};
use serde_json::Value;
use std::alloc::{AllocError, Global};

/// A value that is written in its printing form.
#[derive(Drop)]
struct Shown<'a, T>(&'a T);

impl<T: Show> Described for Shown<'_, T> {
    ghost writes = { λ shown old new. Sends (T.shows shown.0.now) old new
        × (T.reads (T.shows shown.0.now) ≡ Some shown.0.now) };
}

impl<T: Show> Serialize for Shown<'_, T> {
    fn serialize<S: Serializer>(&self, out: &mut S) -> Result<(), S::Error> {
        self.0.send(out)
    }
}

// `serde_json` has other errors: for a key that is no text, for what an impl reports, and for values that nest deeper
// than 127. No printing form gives one of them, so an error here is one of memory.

/// Returns the text of a printing form. Fails only when out of memory.
pub(crate) fn to_text<T: Show>(alloc: Global, x: &T) -> Result<String, AllocError>
    requires { is_plain (T.shows x.now) ≡ true }
    ensures { IfOk result (λ text. string_bytes text ≡ compact_text (T.shows x.now)) }
{
    match serde_json::to_string(alloc, &Shown(x)) {
        Ok(text) => Ok(text),
        Err(_) => Err(AllocError),
    }
}

/// Returns a printing form as a JSON value. Fails only when out of memory.
pub(crate) fn to_json<T: Show>(alloc: Global, x: &T) -> Result<Value, AllocError>
    requires { is_plain (T.shows x.now) ≡ true }
    ensures value { IfOk result (λ shown. view shown ≡ T.shows x.now) }
    ensures again { OnOk result (T.reads (T.shows x.now) ≡ Some x.now) }
{
    match serde_json::to_value(alloc, &Shown(x)) {
        Ok(value) => Ok(value),
        Err(_) => Err(AllocError),
    }
}
