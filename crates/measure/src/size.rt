ghost use Rattle.std.specs.Prelude.{◌≡◌, MatchOption, ℕ};
ghost use Rattle.measure.specs.Sizes.{IsSize};

/// The most rules that a configuration has.
pub const RULES: u32 = 4096;
/// The most judgements.
pub const COUNT: u32 = 100_000_000;

/// A number from 1 to the most, in decimal digits.
pub fn read_size(word: &str, most: u32) -> Option<u32>
    ensures { MatchOption result ((n : ℕ) → IsSize most word.now n → ⊥) (IsSize most word.now) }
{
    match word.parse::<u32>() {
        Ok(n) if 1 <= n && n <= most => Some(n),
        _ => None,
    }
}
