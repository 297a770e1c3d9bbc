//! Words that are near to a text.

/// The first of these words that is one edit away from a text, or that differs from it in capitals and underscores
/// alone.
pub(crate) fn nearest(words: &[&'static str], text: &str) -> Option<&'static str> {
    for word in words {
        let (known, text) = (word.as_bytes(), text.as_bytes());
        if is_near(known, text) || is_respelled(known, text) {
            return Some(*word);
        }
    }
    None
}

/// Whether both have the same letters, whatever their capitals and underscores, as `nextBlock` and `next_block`.
fn is_respelled(word: &[u8], text: &[u8]) -> bool {
    let mut letters = text.iter().filter(|letter| **letter != b'_');
    for letter in word.iter().filter(|letter| **letter != b'_') {
        match letters.next() {
            Some(other) if other.eq_ignore_ascii_case(letter) => {}
            _ => return false,
        }
    }
    letters.next().is_none()
}

/// Whether one text becomes the other by a letter that is added, left out or another, or by two neighbours that change
/// places.
fn is_near(word: &[u8], text: &[u8]) -> bool {
    let same = common_start(word, text);
    let (Some(word), Some(text)) = (word.get(same..), text.get(same..)) else {
        return false;
    };
    let (later_word, later_text) = (without_first(word), without_first(text));
    word != text
        && (later_word == later_text
            || later_word == text
            || word == later_text
            || are_swapped(word, text))
}

/// The number of letters with which both begin.
fn common_start(word: &[u8], text: &[u8]) -> usize {
    for (index, (letter, other)) in word.iter().zip(text.iter()).enumerate() {
        if letter != other {
            return index;
        }
    }
    word.len().min(text.len())
}

fn without_first(word: &[u8]) -> &[u8] {
    match word {
        [_, later @ ..] => later,
        [] => word,
    }
}

/// Whether both differ in that their first two letters change places.
fn are_swapped(word: &[u8], text: &[u8]) -> bool {
    match (word, text) {
        ([first, second, word @ ..], [other_first, other_second, text @ ..]) => {
            first == other_second && second == other_first && word == text
        }
        _ => false,
    }
}
