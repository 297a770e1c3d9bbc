//! The words of the command line.

ghost use Rattle.std.specs.Prelude.{◌≡◌, ◌⊎◌, Err, IfErr, IfOk, IsErr, MatchResult, drop, map};
ghost use Rattle.std.specs.Prelude.{string_bytes};
ghost use Rattle.std.specs.Vec.Iter.{into_iter_items};

use crate::status::Status;
use rc_names::{List, Text};
use std::alloc::{AllocError, Global};
use std::env::Args;
use std::io;

/// The command line without the program's name.
pub type Words = List<Text>;

/// Returns the words of a command line: `Usage` if one isn't UTF-8, and `NoMemory` when out of memory.
pub fn words(alloc: Global, args: io::Result<Args>) -> Result<Words, Status>
    ensures ok { MatchResult args
        (λ args. IfOk result (λ words. words ≡ map string_bytes (drop 1 (into_iter_items args)))) (λ _. IsErr result) }
    ensures usage { result ≡ Err Status.Usage → IsErr args }
    ensures only { IfErr result (λ status. (status ≡ Status.Usage) ⊎ (status ≡ Status.NoMemory)) }
{
    match args {
        Ok(args) => match words_after_name(alloc, args) {
            Ok(words) => Ok(words),
            Err(_) => Err(Status::NoMemory),
        },
        Err(error) if error.kind() == io::ErrorKind::OutOfMemory => Err(Status::NoMemory),
        Err(_) => Err(Status::Usage),
    }
}

/// The words after the first, which is the program's name. Fails only when out of memory.
fn words_after_name(alloc: Global, args: Args) -> Result<Words, AllocError>
    ensures { IfOk result (λ words. words ≡ map string_bytes (drop 1 (into_iter_items args))) }
{
    let mut words = List::new(alloc);
    let mut rest = args;
    rest.next();
    while let Some(word) = rest.next() {
        words.push(Text::from(word))?;
    }
    Ok(words)
}
