//! The stronger of two levels.

use rc_escape::{MemoizationLevel, join_aliases};

#[test]
fn the_stronger_level_is_kept(rt: HostRuntime) {
    let conditional = MemoizationLevel::Conditional;
    let unmemoized = MemoizationLevel::Unmemoized;
    let never = MemoizationLevel::Never;
    assert_eq!(rt; join_aliases(conditional, unmemoized), conditional);
    assert_eq!(rt; join_aliases(never, unmemoized), unmemoized);
    assert_eq!(rt; join_aliases(never, never), never);
}
