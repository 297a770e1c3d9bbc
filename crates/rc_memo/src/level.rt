//! How much a name asks to be memoized.

ghost use Rattle.std.specs.Prelude.{◌≡◌};
ghost use Rattle.rc_memo.specs.Level as spec;
ghost use Rattle.rc_memo.specs.declared.level.MemoizationLevel.TheVariants as levels;

/// How much a name asks to be memoized, from the strongest level to the weakest.
#[derive(Clone, Copy, Debug, PartialEq, Eq)]
pub enum MemoizationLevel {
    /// The name is memoized wherever it is needed.
    Memoized,
    /// The name is memoized if it is needed and one of its dependencies is memoized, or if it is first needed by a
    /// memoized scope.
    Conditional,
    /// The name is memoized only if it is first needed by a memoized scope.
    Unmemoized,
    /// The name is never memoized.
    Never,
}

impl MemoizationLevel {
    /// Returns the place of the level in the order from the strongest to the weakest.
    fn rank(self) -> u8
        ensures { result ≡ spec.rank self }
    {
        match self {
            MemoizationLevel::Memoized => 0,
            MemoizationLevel::Conditional => 1,
            MemoizationLevel::Unmemoized => 2,
            MemoizationLevel::Never => 3,
        }
    }
}

/// Returns the level of a name to which two rows give a level: the stronger of the two.
#[tactic(auto, using(crate::proofs::LevelLaws::laws))]
pub fn join_aliases(a: MemoizationLevel, b: MemoizationLevel) -> MemoizationLevel
    ensures ok { result ≡ spec.stronger a b }
    ensures commutes { result ≡ spec.stronger b a }
    ensures associates { (c : MemoizationLevel) → spec.stronger result c ≡ spec.stronger a (spec.stronger b c) }
    ensures same { a ≡ b → result ≡ a }
    ensures unit { b ≡ levels.Never → result ≡ a }
{
    if b.rank() < a.rank() { b } else { a }
}
