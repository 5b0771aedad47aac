ghost use Rattle.std.specs.Prelude.{◌≡◌, ◌∷◌, ◌+◌, ◌<◌, ◌≤◌, ◌^◌, ℕ, [], take, drop, false, true, length};
ghost use Rattle.std.specs.List.{list_all};
ghost use Rattle.conf_text.specs.Words.{words_from, unreadable_from, is_name, is_key_byte, is_readable, word_of};
ghost use Rattle.conf_text.specs.Tokens.{left, seen, FirstOf, is_word_byte, has_word_byte, IsAtWord};

use crate::cursor::Cursor;
use crate::token::Token;

/// A letter, a digit, a dot or a dash.
fn is_key_byte(byte: u8) -> bool
    ensures { result ≡ is_key_byte byte }
{
    byte.is_ascii_alphanumeric() || byte == b'.' || byte == b'-'
}

/// A letter, and then letters, digits, dots and dashes.
fn is_name(bytes: &[u8]) -> bool
    ensures { result ≡ is_name bytes.now }
{
    match bytes.split_first() {
        Some((first, others)) => {
            first.is_ascii_alphabetic() && others.iter().all(|b| is_key_byte(*b))
        }
        None => false,
    }
}

/// The key or the value that a word without braces is.
fn key_or_value(line: u32, word: &[u8]) -> Token<'_>
    requires { list_all is_word_byte word.now ≡ true }
    ensures { seen result ≡ word_of line word.now }
{
    let Some((last, name)) = word.split_last() else {
        return Token::Value(line, word);
    };
    if *last != b':' {
        return Token::Value(line, word);
    }
    if is_name(name) {
        Token::Key(line, name)
    } else {
        Token::Value(line, word)
    }
}

/// A byte of a word that is no brace.
fn is_word_byte(byte: u8) -> bool
    ensures { result ≡ is_word_byte byte }
{
    !matches!(byte, b'\n' | b'#' | b' ' | b'\t' | b'\r' | b'{' | b'}')
}

/// The length of the word at the front of a text.
fn word_len(text: &[u8]) -> usize
    ensures within { result ≤ length text.now }
    ensures word { list_all is_word_byte (take result text.now) ≡ true }
    ensures whole { has_word_byte (drop result text.now) ≡ false }
{
    for (i, byte) in text.iter().enumerate() {
        if !is_word_byte(*byte) {
            return i;
        }
    }
    text.len()
}

/// What is behind the first so many bytes of a text.
fn rest_of(text: &[u8], len: usize) -> &[u8]
    requires { len ≤ length text.now }
    ensures { result.now ≡ drop len text.now }
{
    &text[len..]
}

/// Passes blanks, comments and line ends.
fn past_gap<'a>(from: Cursor<'a>) -> Cursor<'a>
    ensures same { left result ≡ left from.entry }
    ensures at { IsAtWord result.rest.now }
    ensures within { length result.rest.now ≤ length from.entry.rest.now }
{
    let mut line = from.line;
    let mut comment = false;
    let text = from.rest;
    for (i, byte) in text.iter().enumerate() {
        match *byte {
            b'\n' => {
                line += 1;
                comment = false;
            }
            b'#' => comment = true,
            b' ' | b'\t' | b'\r' => {}
            _ => {
                if !comment {
                    return Cursor {
                        line,
                        rest: rest_of(text, i),
                    };
                }
            }
        }
    }
    Cursor {
        line,
        rest: rest_of(text, text.len()),
    }
}

/// The first word of those that are still to be read, and the place behind it.
pub fn first_word<'a>(from: Cursor<'a>) -> Option<(Token<'a>, Cursor<'a>)>
    ensures { FirstOf from.entry result }
{
    let Cursor { line, rest } = past_gap(from);
    let (first, behind) = rest.split_first()?;
    let next = Cursor { line, rest: behind };
    match *first {
        b'{' => Some((Token::Open(line), next)),
        b'}' => Some((Token::Close(line), next)),
        _ => {
            let (word, rest) = rest.split_at(word_len(rest));
            Some((key_or_value(line, word), Cursor { line, rest }))
        }
    }
}

/// A tab, a CR, or a byte from the blank to `~`.
fn is_readable(byte: u8) -> bool
    ensures { result ≡ is_readable byte }
{
    matches!(byte, b'\t' | b'\r' | b' '..=b'~')
}

/// The line of the first byte outside comments that a text may not have.
pub fn unreadable_line(text: &[u8]) -> Option<u32>
    requires { length text.now < 2 ^ 31 }
    ensures { result ≡ unreadable_from 1 text.now }
{
    let mut line = 1;
    let mut comment = false;
    for byte in text {
        match *byte {
            b'\n' => {
                line += 1;
                comment = false;
            }
            b'#' => comment = true,
            _ if comment => {}
            other => {
                if !is_readable(other) {
                    return Some(line);
                }
            }
        }
    }
    None
}
