ghost use Rattle.std.specs.Prelude.{◌≡◌, ◌∷◌, ◌+◌, ◌<◌, ◌≤◌, ◌^◌, ℕ, [], List as Items, Option as Maybe, MatchResult, IfOk, IfSome, length};
ghost use Rattle.std.specs.List.{join_with_byte};
ghost use Rattle.conf_text.specs.Words.{Close as CloseWord, Word};
ghost use Rattle.conf_text.specs.Tokens.{left};
ghost use Rattle.conf_text.specs.Reading.{OnValue, OnOpen, OnEntries, OnBlock, OnStatement};
ghost use Rattle.conf_text.specs.Statements.{OnStatements, Values};

use crate::cursor::Cursor;
use crate::fault::TextFault;
use crate::statement::{Entry, Statement};
use crate::token::Token;
use crate::words::{first_word, unreadable_line};
use lists::{List, Text};
use std::alloc::{AllocError, Global};

/// The value that comes next, if it is of the line in reach, or of any line.
fn value<'a>(words: Cursor<'a>, reach: Option<u32>) -> Option<(&'a [u8], Cursor<'a>)>
    ensures read { OnValue reach (left words.entry) result }
    ensures less { IfSome result (λ p. length p.1.rest.now < length words.entry.rest.now) }
{
    let (word, behind) = first_word(words)?;
    match word {
        Token::Value(line, text) => match reach {
            Some(only) if line != only => None,
            _ => Some((text, behind)),
        },
        Token::Open(_) => None,
        Token::Close(_) => None,
        Token::Key(_, _) => None,
    }
}

/// The values that come next: those of the line in reach, or of any line.
fn values(
    alloc: Global,
    words: &mut Cursor<'_>,
    reach: Option<u32>,
) -> Result<List<Text>, AllocError>
    ensures read { IfOk result (λ texts. Values reach (left words.old) texts (left words.new)) }
    ensures within { length words.new.rest.now ≤ length words.old.rest.now }
{
    let mut values = List::make(alloc);
    while let Some((text, behind)) = value(*words, reach) {
        values.push(Text::from_slice(alloc, text)?)?;
        *words = behind;
    }
    Ok(values)
}

/// The `{` that comes next.
fn open_brace<'a>(words: Cursor<'a>) -> Option<(u32, Cursor<'a>)>
    ensures read { OnOpen (left words.entry) result }
    ensures less { IfSome result (λ p. length p.1.rest.now < length words.entry.rest.now) }
{
    let (word, behind) = first_word(words)?;
    match word {
        Token::Open(line) => Some((line, behind)),
        Token::Close(_) => None,
        Token::Key(_, _) => None,
        Token::Value(_, _) => None,
    }
}

/// The pieces, with one blank between each two. An `AllocError` comes where memory is refused.
pub fn joined(alloc: Global, first: &[u8], others: &[Text]) -> Result<Text, AllocError>
    ensures { IfOk result (λ text. text ≡ join_with_byte 32 (first.now ∷ others.now)) }
{
    let mut text = Text::from_slice(alloc, first)?;
    for other in others {
        text.push(b' ')?;
        text.add(other.as_slice())?;
    }
    Ok(text)
}

/// The entries up to the end of a block, whose `{` stands in a line.
fn entries(alloc: Global, words: &mut Cursor<'_>, at: u32) -> Result<List<Entry>, TextFault>
    ensures read { OnEntries at (left words.old) (left words.new) result }
    ensures within { length words.new.rest.now ≤ length words.old.rest.now }
{
    let mut entries = List::make(alloc);
    loop {
        match first_word(*words) {
            Some((Token::Key(line, name), behind)) => {
                *words = behind;
                let key = Text::from_slice(alloc, name)?;
                let values = values(alloc, words, None)?;
                entries.push(Entry { line, key, values })?;
            }
            Some((Token::Close(_), behind)) => {
                *words = behind;
                return Ok(entries);
            }
            Some((Token::Open(line), _)) => return Err(TextFault::StrayBrace(line)),
            Some((Token::Value(line, _), _)) => return Err(TextFault::NoColon(line)),
            None => return Err(TextFault::UnclosedBlock(at)),
        }
    }
}

/// The block whose first word was read.
fn block(
    alloc: Global,
    words: &mut Cursor<'_>,
    line: u32,
    first: &[u8],
) -> Result<Statement, TextFault>
    ensures read { OnBlock line first.now (left words.old) (left words.new) result }
    ensures within { length words.new.rest.now ≤ length words.old.rest.now }
{
    let others = values(alloc, words, None)?;
    let Some((at, inside)) = open_brace(*words) else {
        return Err(TextFault::NoColon(line));
    };
    *words = inside;
    let key = joined(alloc, first, others.as_slice())?;
    let entries = entries(alloc, words, at)?;
    Ok(Statement {
        line,
        key,
        values: List::make(alloc),
        block: Some(entries),
    })
}

/// The statement that comes next.
fn statement(alloc: Global, words: &mut Cursor<'_>) -> Result<Option<Statement>, TextFault>
    ensures read { OnStatement (left words.old) (left words.new) result }
    ensures less { IfOk result (λ found. IfSome found (λ s. length words.new.rest.now < length words.old.rest.now)) }
{
    let Some((word, behind)) = first_word(*words) else {
        return Ok(None);
    };
    *words = behind;
    match word {
        Token::Key(line, name) => {
            let key = Text::from_slice(alloc, name)?;
            let values = values(alloc, words, Some(line))?;
            Ok(Some(Statement {
                line,
                key,
                values,
                block: None,
            }))
        }
        Token::Value(line, first) => Ok(Some(block(alloc, words, line, first)?)),
        Token::Open(line) => Err(TextFault::StrayBrace(line)),
        Token::Close(line) => Err(TextFault::StrayBrace(line)),
    }
}

/// The statements of a configuration's text.
pub fn read_statements(alloc: Global, text: &[u8]) -> Result<List<Statement>, TextFault>
    ensures { OnStatements text.now result }
{
    if text.len() > 1_048_576 {
        return Err(TextFault::TooLong);
    }
    if let Some(line) = unreadable_line(text) {
        return Err(TextFault::NotAscii(line));
    }
    let mut words = Cursor {
        line: 1,
        rest: text,
    };
    let mut statements = List::make(alloc);
    while let Some(statement) = statement(alloc, &mut words)? {
        statements.push(statement)?;
    }
    Ok(statements)
}
