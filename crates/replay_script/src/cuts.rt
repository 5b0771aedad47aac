ghost use Rattle.std.specs.Prelude.{◌≡◌, ◌++◌, ℕ, List, IfOk, MatchOption, MatchBool, ◌≢◌, ◌<◌, [], length, false};
ghost use Rattle.replay_script.specs.Cuts.{Lacks, CutsAt, IsNumber, IsNumberThen, IsLine, is_digit};

use std::alloc::{AllocError, Global};

/// The text before the first such byte, and the text behind it.
pub fn cut(text: &[u8], at: u8) -> Option<(&[u8], &[u8])>
    ensures { MatchOption result (Lacks at text.now) (λ parts. CutsAt at text.now parts.0.now parts.1.now) }
{
    for (i, b) in text.iter().enumerate() {
        if *b == at {
            return Some((&text[..i], &text[i + 1..]));
        }
    }
    None
}

/// Whether two texts are one.
pub fn same(text: &[u8], word: &[u8]) -> bool
    ensures { MatchBool result (text.now ≡ word.now) (text.now ≢ word.now) }
{
    text == word
}

/// The text behind this front.
pub fn behind<'a>(text: &'a [u8], front: &[u8]) -> Option<&'a [u8]>
    ensures { MatchOption result ((rest : List ℕ) → text.now ≡ front.now ++ rest → ⊥) (λ rest. text.now ≡ front.now ++ rest.now) }
{
    text.strip_prefix(front)
}

/// The number that a text spells, without sign or leading zeros.
pub fn number(alloc: Global, text: &[u8], limit: u64) -> Result<Option<u64>, AllocError>
    ensures { IfOk result (λ found. MatchOption found ((n : ℕ) → IsNumber limit text.now n → ⊥) (λ n. IsNumber limit text.now n)) }
{
    let Ok(string) = str::from_utf8(text) else {
        return Ok(None);
    };
    match string.parse::<u64>() {
        Err(_) => Ok(None),
        Ok(n) => {
            if n > limit {
                return Ok(None);
            }
            let spelled = n.to_string(alloc)?;
            if spelled.as_bytes() == text {
                Ok(Some(n))
            } else {
                Ok(None)
            }
        }
    }
}

/// The number before the first such byte, and the text behind that.
pub fn number_then(
    alloc: Global,
    text: &[u8],
    at: u8,
    limit: u64,
) -> Result<Option<(u64, &[u8])>, AllocError>
    requires { is_digit at ≡ false }
    ensures { IfOk result (λ found. MatchOption found ((n : ℕ) (rest : List ℕ) → IsNumberThen at limit text.now n rest → ⊥) (λ p. IsNumberThen at limit text.now p.0 p.1.now)) }
{
    let Some((front, rest)) = cut(text, at) else {
        return Ok(None);
    };
    let Some(n) = number(alloc, front, limit)? else {
        return Ok(None);
    };
    Ok(Some((n, rest)))
}

/// The first line of a text, and what is behind it.
pub fn first_line(text: &[u8]) -> Option<(&[u8], &[u8])>
    ensures found { MatchOption result (text.now ≡ []) (λ p. IsLine text.now p.0.now p.1.now) }
    ensures less { MatchOption result (text.now ≡ []) (λ p. length p.1.now < length text.now) }
{
    if text.is_empty() {
        return None;
    }
    match cut(text, b'\n') {
        Some((line, rest)) => Some((line, rest)),
        None => Some((text, &text[text.len()..])),
    }
}
