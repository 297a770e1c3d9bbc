//! The commands, by their words.

ghost use Rattle.std.specs.Prelude.{◌≡◌, ◌↔◌, ◌≤◌, [], ◌∷◌, ℕ, IsTrue, MatchOption, decimal};
ghost use Rattle.rc_gen.specs.Generated.{most_units};
ghost use Rattle.rc_program.specs.Command.{AreWords, IsCommand};

use crate::command_line::Words;
use rc_names::Text;

/// The largest number of units of a generated graph.
const MAX_UNITS: u32 = 2000;

/// A command.
#[derive(Clone, Copy, Debug, PartialEq, Eq)]
pub enum Command {
    /// The lines of a document's tree and of the fates of its scopes.
    Tree,
    /// The fates alone.
    Fates,
    /// The fates, each with what its rule read.
    Why,
    /// The slots of the scope blocks in a memo cache.
    Slots,
    /// The whole answer as JSON.
    Json,
    /// Whether the run beside a document is one of its graph, and of the answered body.
    Replay,
    /// Counts of the generated document of that number of units, and of its answer.
    Generate(u32),
}

/// Returns the command that these words name.
#[tactic(auto, using(crate::proofs::WordsLemmas::of_words))]
pub fn command_of(words: &Words) -> Option<Command>
    ensures { MatchOption result (¬ AreWords words.now) (IsCommand words.now) }
{
    match words.as_slice() {
        [word] => command_alone(word),
        [word, number] => command_with(word, number),
        _ => None,
    }
}

/// The command of one word.
#[tactic(auto, using(crate::proofs::WordsLemmas::alone))]
fn command_alone(word: &Text) -> Option<Command>
    ensures { MatchOption result (¬ AreWords (word.now ∷ [])) (IsCommand (word.now ∷ [])) }
{
    if is_word(word, "tree") {
        Some(Command::Tree)
    } else if is_word(word, "fates") {
        Some(Command::Fates)
    } else if is_word(word, "why") {
        Some(Command::Why)
    } else if is_word(word, "slots") {
        Some(Command::Slots)
    } else if is_word(word, "json") {
        Some(Command::Json)
    } else if is_word(word, "replay") {
        Some(Command::Replay)
    } else {
        None
    }
}

/// The command of a word and a number.
#[tactic(auto, using(crate::proofs::WordsLemmas::with_number))]
fn command_with(word: &Text, number: &Text) -> Option<Command>
    ensures { MatchOption result (¬ AreWords (word.now ∷ (number.now ∷ [])))
        (IsCommand (word.now ∷ (number.now ∷ []))) }
{
    if !is_word(word, "gen") {
        return None;
    }
    match unit_count(number.as_str()) {
        Some(units) => Some(Command::Generate(units)),
        None => None,
    }
}

/// Whether a word is that one.
fn is_word(word: &Text, name: &str) -> bool
    ensures { IsTrue result ↔ (word.now ≡ name.now) }
{
    word.as_str() == name
}

/// Parses a number of units: decimal digits without a sign or a leading zero.
fn unit_count(word: &str) -> Option<u32>
    ensures { MatchOption result ((units : ℕ) → 1 ≤ units → units ≤ most_units → ¬ (word.now ≡ decimal units))
        (λ units. (word.now ≡ decimal units) × (1 ≤ units) × (units ≤ most_units)) }
{
    let bytes = word.as_bytes();
    if bytes.is_empty() || bytes[0] == b'+' || bytes[0] == b'0' {
        return None;
    }
    match word.parse::<u32>() {
        Ok(units) if units <= MAX_UNITS => Some(units),
        _ => None,
    }
}
