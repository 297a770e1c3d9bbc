//! The whole answer as a text.

ghost use Rattle.std.specs.Prelude.{◌≡◌, IfOk, OnOk, Some, string_bytes};
ghost use Rattle.rc_doc.specs.Environment.{environment_of};
ghost use Rattle.rc_flat.specs.Model.{FlatFunction};
ghost use Rattle.rc_flat.specs.ShownEnvironment.{environment_data};
ghost use Rattle.rc_flat.specs.ShownFlat.{flat_function_data};
ghost use Rattle.rc_flat.specs.Tables.{GivesFunction, IsFlat};
ghost use Rattle.rc_answer.specs.AnswerJson.{IsAnswerJson};
ghost use Rattle.rc_answer.specs.inside.AnswerSent.{IsAnswerSent, IsAnswerWritten};

use crate::fates::FatesView;
use crate::function::send_function;
use crate::parts::PartFields;
use rc_hir::Environment;
use rc_show::{Fields, NoFields};
use rc_tree::{ReactiveFunction, ScopeFate};
use serde::{Described, Serialize, Serializer};
use std::alloc::{AllocError, Global};

/// An answer.
#[derive(Drop)]
struct Answer<'a> {
    alloc: Global,
    env: &'a Environment,
    fates: &'a [ScopeFate],
    func: &'a ReactiveFunction,
}

impl Described for Answer<'_> {
    ghost writes = { λ answer old new. IsAnswerSent answer.env.now answer.fates.now answer.func.now old new };
}

impl Serialize for Answer<'_> {
    fn serialize<S: Serializer>(&self, out: &mut S) -> Result<(), S::Error> {
        out.begin_map(None)?;
        NoFields
            .with_part("env", self.env)
            .with("fates", &FatesView::new(self.fates))
            .send_fields(out)?;
        out.key("func")?;
        send_function(out, self.alloc, self.func)?;
        out.end_map()
    }
}

// `serde_json` has other errors: for a key that is no text, and for values that nest deeper than 127. An answer nests
// 16 levels, and each of its keys is a text.

/// Returns the answer in JSON, without a line end. Fails only when out of memory, and when the function has more blocks
/// or nested values than 32 bits number.
fn answer_json(
    alloc: Global,
    env: &Environment,
    fates: &[ScopeFate],
    func: &ReactiveFunction,
) -> Result<String, AllocError>
    ensures { IfOk result (λ text. IsAnswerWritten env.now fates.now func.now (string_bytes text)) }
{
    let answer = Answer {
        alloc,
        env,
        fates,
        func,
    };
    match serde_json::to_string(alloc, &answer) {
        Ok(text) => Ok(text),
        Err(_) => Err(AllocError),
    }
}

/// Returns the answer as one line of JSON: the environment, the fates of the scopes in their order, and the function as
/// two tables. The environment and the function read as themselves again.
///
/// Fails only when out of memory, and when the function has more blocks or nested values than 32 bits number.
pub fn answer_text(
    alloc: Global,
    env: &Environment,
    fates: &[ScopeFate],
    func: &ReactiveFunction,
) -> Result<String, AllocError>
    ensures text { IfOk result (λ text. IsAnswerJson env.now fates.now func.now (string_bytes text)) }
    ensures env_again { OnOk result (environment_of (environment_data env.now) ≡ Some env.now) }
    ensures func_again { OnOk result ((flat : FlatFunction) → IsFlat func.now flat
        → GivesFunction (flat_function_data flat) func.now) }
{
    let mut text = answer_json(alloc, env, fates, func)?;
    text.push_str("\n")?;
    Ok(text)
}
