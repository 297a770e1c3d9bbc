//! The kinds of jumps: the text of each, and copies, which are like their sources and like no other kind.

use rc_tree::ReactiveTerminalTargetKind as Kind;
use std::alloc::{AllocError, Global};
use std::test::Fail;

/// Each kind with its text.
const KINDS: [(Kind, &str); 3] = [
    (Kind::Implicit, "implicit"),
    (Kind::Labeled, "labeled"),
    (Kind::Unlabeled, "unlabeled"),
];

/// Whether a kind is printed as this text.
fn is_printed(alloc: Global, kind: Kind, due: &str) -> Result<bool, AllocError> {
    Ok(format!(in alloc; "{kind}")?.as_str() == due)
}

#[test]
fn each_kind_of_jump_has_its_text(rt: HostRuntime) -> Result<(), Fail> {
    for (kind, text) in KINDS {
        assert!(rt; is_printed(rt.alloc(), kind, text)?, "of {text}");
        assert_eq!(rt; kind.as_str(), text);
    }
    Ok(())
}

#[test]
fn a_copy_of_a_kind_is_that_kind_alone(rt: HostRuntime) -> Result<(), Fail> {
    for (at, (kind, _)) in KINDS.iter().enumerate() {
        let copy = *kind;
        for (other_at, (other, _)) in KINDS.iter().enumerate() {
            assert_eq!(rt; copy == *other, at == other_at);
        }
    }
    Ok(())
}
