//! Line levels: one test for every array of them.
#![tactic(auto)]

ghost use Rattle.std.specs.Prelude.{◌≡◌};
ghost use Rattle.levels.specs.Levels.{all_below, all_levels};

/// Whether every number of the slice is below the limit. It looks at all of them, so that the compiler takes several at a time.
pub fn all_below(numbers: &[u8], limit: u8) -> bool
    ensures { result ≡ all_below limit numbers.now }
{
    numbers
        .iter()
        .fold(true, |all, &number| all & (number < limit))
}

/// Whether every number of the slice is a line level, 0 or 1.
pub fn all_levels(levels: &[u8]) -> bool
    ensures { result ≡ all_levels levels.now }
{
    all_below(levels, 2)
}
