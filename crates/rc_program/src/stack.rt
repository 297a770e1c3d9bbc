//! The bytes of stack that the nesting of a document may take. No contract speaks of it.

use rc_pipe::USUAL_STACK;

/// What is left of the stack for all else.
const RESERVE: usize = 256 * 1024;

/// Returns the bytes of stack that nesting may take, by the text of `/proc/self/limits`. A quarter of the stack is left
/// to words and environment, and 256 KiB to all else. Where the text tells no limit, that of 8 MiB is taken.
pub fn stack_for_nesting(limits: &str) -> usize {
    match soft_limit(limits) {
        Some("unlimited") => usize::MAX,
        Some(word) => match word.parse::<usize>() {
            Ok(bytes) => (bytes / 4 * 3).saturating_sub(RESERVE),
            Err(_) => USUAL_STACK,
        },
        None => USUAL_STACK,
    }
}

/// The soft limit of the stack, the first word after its name.
fn soft_limit(limits: &str) -> Option<&str> {
    let (_, line) = limits.split_once("Max stack size")?;
    line.split_whitespace().next()
}
