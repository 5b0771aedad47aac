ghost use Rattle.std.specs.Prelude.{◌≡◌, ◌≢◌, ◌≤◌, ◌++◌, [], ◌∷◌, ℕ, List as Items, length, IfErr, IfOk, OnOk, MatchOption};
ghost use Rattle.replay_script.specs.declared.entry.TextLine.{TextLine as SomeEntry};
ghost use Rattle.replay_script.specs.Conditions.{IsServed};
ghost use Rattle.replay_script.specs.Cuts.{IsLine};
ghost use Rattle.replay_script.specs.Script.{OnRead, OnLines, MayStep, Entered, Begins, BeginsNothing, IsServedEntry, Refuses, RefusesText, SpellsEntry, lines_of, longest};

use crate::conf::publish;
use crate::cuts::{first_line, same};
use crate::entry::TextLine;
use crate::fault::{ScriptFault, ScriptKind};
use crate::forms::{is_skipped, line_of};
use crate::state::State;
use crate::users::give;
use lists::List;
use socks_machine::ScriptLine;
use std::alloc::{AllocError, Global};

/// What a text line is.
fn entry_of(alloc: Global, text: &[u8]) -> Result<Option<TextLine>, AllocError>
    ensures { IfOk result (λ found. MatchOption found ((entry : SomeEntry) → SpellsEntry text.now entry → ⊥) (λ entry. SpellsEntry text.now entry)) }
{
    if is_skipped(text) {
        return Ok(Some(TextLine::Skipped));
    }
    let Some(line) = line_of(alloc, text)? else {
        return Ok(None);
    };
    Ok(Some(TextLine::Served(line)))
}

/// The one text line at the front of a text, and the text behind it.
fn single(alloc: Global, text: &[u8]) -> Result<Option<(TextLine, &[u8])>, AllocError>
    ensures { IfOk result (λ found. MatchOption found ((entry : SomeEntry) (line behind : Items ℕ) → IsLine text.now line behind → SpellsEntry line entry → ⊥)
        (λ p. (line : Items ℕ) × IsLine text.now line p.1.now × SpellsEntry line p.0)) }
{
    let Some((line, behind)) = first_line(text) else {
        return Ok(None);
    };
    match entry_of(alloc, line) {
        Err(e) => Err(e),
        Ok(None) => Ok(None),
        Ok(Some(entry)) => Ok(Some((entry, behind))),
    }
}

/// The entry at the front of a text, its count of lines, and the text behind it.
fn begins(alloc: Global, text: &[u8]) -> Result<Option<(TextLine, u64, &[u8])>, ScriptKind>
    ensures begins { IfOk result (λ found. MatchOption found (BeginsNothing text.now) (λ p. Begins text.now p.0 p.1 p.2.now)) }
    ensures refused { IfErr result (λ kind. kind ≢ ScriptKind.Memory → RefusesText text.now kind) }
{
    match publish(alloc, text) {
        Err(kind) => return Err(kind),
        Ok(Some((config, lines, behind))) => {
            let entry = TextLine::Served(ScriptLine::Publish(config));
            return Ok(Some((entry, lines, behind)));
        }
        Ok(None) => {}
    }
    match give(alloc, text) {
        Err(kind) => return Err(kind),
        Ok(Some((users, lines, behind))) => {
            let entry = TextLine::Served(ScriptLine::UsersAre(users));
            return Ok(Some((entry, lines, behind)));
        }
        Ok(None) => {}
    }
    match single(alloc, text) {
        Err(e) => Err(ScriptKind::from(e)),
        Ok(None) => Ok(None),
        Ok(Some((entry, behind))) => Ok(Some((entry, 1, behind))),
    }
}

/// Goes on behind an entry, and says whether it keeps its condition.
fn enters(alloc: Global, state: &mut State, entry: &TextLine) -> Result<bool, AllocError>
    requires { IsServedEntry entry.now }
    ensures { IfOk result (λ done. Entered state.old state.new entry.now done) }
{
    match entry {
        TextLine::Skipped => Ok(true),
        TextLine::Served(line) => state.step(alloc, line),
    }
}

/// The served entry at the front of a text. A counted text that the state doesn't look at is none.
fn served<'a>(
    alloc: Global,
    state: &mut State,
    text: &'a [u8],
) -> Result<Option<(TextLine, u64, &'a [u8])>, ScriptKind>
    ensures steps { IfOk result (λ found. MayStep state.old state.new text.now found) }
    ensures refused { IfErr result (λ kind. kind ≢ ScriptKind.Memory → Refuses state.old text.now kind) }
{
    match begins(alloc, text) {
        Err(kind) if state.looks_at(kind) => Err(kind),
        Err(_) => Ok(None),
        Ok(None) => Ok(None),
        Ok(Some((entry, lines, behind))) => match enters(alloc, state, &entry) {
            Err(e) => Err(ScriptKind::from(e)),
            Ok(false) => Ok(None),
            Ok(true) => Ok(Some((entry, lines, behind))),
        },
    }
}

/// Goes on with an entry, which adds a line unless it is skipped.
fn add_entry(lines: &mut List<ScriptLine>, entry: TextLine) -> Result<(), AllocError>
    ensures { OnOk result (lines.new ≡ lines.old ++ lines_of (entry ∷ [])) }
{
    match entry {
        TextLine::Skipped => Ok(()),
        TextLine::Served(line) => lines.push(line),
    }
}

/// The lines behind the header.
fn read_lines(alloc: Global, text: &[u8]) -> Result<List<ScriptLine>, ScriptFault>
    requires { length text.now ≤ longest }
    ensures { OnLines text.now result }
{
    let mut state = State::make(alloc);
    let mut lines = List::make(alloc);
    let mut rest = text;
    let mut number: u64 = 2;
    'reading: while !rest.is_empty() {
        match served(alloc, &mut state, rest) {
            Err(kind) => {
                return Err(ScriptFault {
                    line: number as u32,
                    kind,
                });
            }
            Ok(None) => {
                return Err(ScriptFault {
                    line: number as u32,
                    kind: ScriptKind::NotBuilt,
                });
            }
            Ok(Some((entry, count, behind))) => {
                add_entry(&mut lines, entry)?;
                rest = behind;
                number += count;
            }
        }
    }
    Ok(lines)
}

/// The lines of the script that a text spells. A last line without its LF is read.
pub fn read_script(alloc: Global, text: &[u8]) -> Result<List<ScriptLine>, ScriptFault>
    ensures read { OnRead text.now result }
    ensures served { IfOk result (λ lines. IsServed lines) }
{
    if text.len() > 67_108_864 {
        return Err(ScriptFault {
            line: 0,
            kind: ScriptKind::Length,
        });
    }
    let headless = ScriptFault {
        line: 1,
        kind: ScriptKind::Header,
    };
    let Some((line, behind)) = first_line(text) else {
        return Err(headless);
    };
    if !same(line, b"sockd-script 1") {
        return Err(headless);
    }
    read_lines(alloc, behind)
}
