//! A line that counts the lines behind it.
ghost use Rattle.std.specs.Prelude.{◌≡◌, ℕ, List as Items, IfOk, MatchOption};
ghost use Rattle.replay_script.specs.Counted.{Counts, IsBehindLines};

use crate::cuts::first_line;
use crate::forms::numbered;
use std::alloc::{AllocError, Global};

/// The text behind so many lines.
fn behind_lines(text: &[u8], count: u64) -> Option<&[u8]>
    ensures { MatchOption result ((behind : Items ℕ) → IsBehindLines count text.now behind → ⊥) (λ behind. IsBehindLines count text.now behind.now) }
{
    let mut rest = text;
    let mut left = count;
    'counting: while left > 0 {
        let Some((_line, behind)) = first_line(rest) else {
            return None;
        };
        rest = behind;
        left -= 1;
    }
    Some(rest)
}

/// The lines that a line with this word counts, as one text, the count of all these lines, and the text behind them.
pub fn counted<'a>(
    alloc: Global,
    text: &'a [u8],
    word: &[u8],
) -> Result<Option<(&'a [u8], u64, &'a [u8])>, AllocError>
    ensures { IfOk result (λ found. MatchOption found ((counted : Items ℕ) (lines : ℕ) (behind : Items ℕ) → Counts word.now text.now counted lines behind → ⊥)
        (λ p. Counts word.now text.now p.0.now p.1 p.2.now)) }
{
    let Some((first, rest)) = first_line(text) else {
        return Ok(None);
    };
    let Some(count) = numbered(alloc, first, word)? else {
        return Ok(None);
    };
    // A line has at least one byte.
    if count >= text.len() as u64 {
        return Ok(None);
    }
    let Some(behind) = behind_lines(rest, count) else {
        return Ok(None);
    };
    Ok(Some((&rest[..rest.len() - behind.len()], count + 1, behind)))
}
