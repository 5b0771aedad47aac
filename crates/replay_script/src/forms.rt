ghost use Rattle.std.specs.Prelude.{◌≡◌, ◌++◌, ℕ, List, IfOk, MatchOption, codes};
ghost use Rattle.addr_pattern.specs.declared.endpoint.Endpoint.{Endpoint as SomeEndpoint};
ghost use Rattle.socks_machine.specs.declared.world.Object.{Object as SomeObject};
ghost use Rattle.socks_machine.specs.declared.world.Outer.{Outer as SomeOuter};
ghost use Rattle.socks_machine.specs.declared.script.CallKind.{CallKind as SomeKind};
ghost use Rattle.socks_machine.specs.declared.script.ScriptLine.{ScriptLine as SomeLine};
ghost use Rattle.replay_script.specs.Forms.{Spells, IsNumbered, IsOpen, IsSent, IsArrival, IsDial, IsOutcome, is_skipped as skips, IsLookup, IsFound, IsBound, IsRoom, IsKind, IsCall, IsFault};

use crate::cuts::{behind, cut, number, number_then, same};
use crate::values::{address, endpoint, hex};
use addr_pattern::Endpoint;
use lists::Text;
use socks_machine::{CallKind, Object, Outer, ScriptLine};
use std::alloc::{AllocError, Global};

/// The most bytes of a client or of a target in one line.
const MOST_AT_ONCE: usize = 65_536;

/// The number of an association, of bytes or of seconds behind a word.
pub fn numbered(alloc: Global, text: &[u8], front: &[u8]) -> Result<Option<u64>, AllocError>
    ensures { IfOk result (λ found. MatchOption found ((n : ℕ) → IsNumbered front.now text.now n → ⊥) (λ n. IsNumbered front.now text.now n)) }
{
    let Some(rest) = behind(text, front) else {
        return Ok(None);
    };
    number(alloc, rest, u64::MAX)
}

fn open_line(alloc: Global, text: &[u8]) -> Result<Option<(u64, Endpoint, Endpoint)>, AllocError>
    ensures { IfOk result (λ found. MatchOption found ((n : ℕ) (peer at : SomeEndpoint) → IsOpen text.now n peer at → ⊥) (λ p. IsOpen text.now p.0 p.1 p.2)) }
{
    let Some(rest) = behind(text, b"open 1 ") else {
        return Ok(None);
    };
    let Some((n, ends)) = number_then(alloc, rest, b' ', u64::MAX)? else {
        return Ok(None);
    };
    let Some((front, back)) = cut(ends, b' ') else {
        return Ok(None);
    };
    let Some(peer) = endpoint(front) else {
        return Ok(None);
    };
    let Some(at) = endpoint(back) else {
        return Ok(None);
    };
    Ok(Some((n, peer, at)))
}

/// The association and the bytes behind a word.
fn sent(alloc: Global, text: &[u8], front: &[u8]) -> Result<Option<(u64, Text)>, AllocError>
    ensures { IfOk result (λ found. MatchOption found ((n : ℕ) (bytes : List ℕ) → IsSent front.now text.now n bytes → ⊥) (λ p. IsSent front.now text.now p.0 p.1)) }
{
    let Some(rest) = behind(text, front) else {
        return Ok(None);
    };
    let Some((n, digits)) = number_then(alloc, rest, b' ', u64::MAX)? else {
        return Ok(None);
    };
    let Some(bytes) = hex(alloc, digits)? else {
        return Ok(None);
    };
    Ok(Some((n, bytes)))
}

/// The association and the bytes behind a word, no more than one line may have.
fn arrival(alloc: Global, text: &[u8], front: &[u8]) -> Result<Option<(u64, Text)>, AllocError>
    ensures { IfOk result (λ found. MatchOption found ((n : ℕ) (bytes : List ℕ) → IsArrival front.now text.now n bytes → ⊥) (λ p. IsArrival front.now text.now p.0 p.1)) }
{
    let Some((n, bytes)) = sent(alloc, text, front)? else {
        return Ok(None);
    };
    if bytes.len() > MOST_AT_ONCE {
        return Ok(None);
    }
    Ok(Some((n, bytes)))
}

/// How a dial comes out.
fn outcome(text: &[u8]) -> Option<Outer>
    ensures { MatchOption result ((outer : SomeOuter) → IsOutcome text.now outer → ⊥) (λ outer. IsOutcome text.now outer) }
{
    if same(text, b"refused") {
        return Some(Outer::Refused);
    }
    if same(text, b"host") {
        return Some(Outer::HostUnreachable);
    }
    if same(text, b"net") {
        return Some(Outer::NetUnreachable);
    }
    if same(text, b"fail") {
        return Some(Outer::Failed);
    }
    let back = behind(text, b"up ")?;
    let local = endpoint(back)?;
    Some(Outer::Up(local))
}

fn dial_line(alloc: Global, text: &[u8]) -> Result<Option<(u64, Outer)>, AllocError>
    ensures { IfOk result (λ found. MatchOption found ((n : ℕ) (outer : SomeOuter) → IsDial text.now n outer → ⊥) (λ p. IsDial text.now p.0 p.1)) }
{
    let Some(rest) = behind(text, b"dial ") else {
        return Ok(None);
    };
    let Some((n, back)) = number_then(alloc, rest, b' ', u64::MAX)? else {
        return Ok(None);
    };
    let Some(outer) = outcome(back) else {
        return Ok(None);
    };
    Ok(Some((n, outer)))
}

/// How a lookup comes out.
fn found(text: &[u8]) -> Option<Outer>
    ensures { MatchOption result ((outer : SomeOuter) → IsFound text.now outer → ⊥) (λ outer. IsFound text.now outer) }
{
    if same(text, b"none") {
        return Some(Outer::Looked(None));
    }
    if same(text, b"fail") {
        return Some(Outer::Failed);
    }
    let addr = address(text)?;
    Some(Outer::Looked(Some(addr)))
}

fn lookup_line(alloc: Global, text: &[u8]) -> Result<Option<(u64, Outer)>, AllocError>
    ensures { IfOk result (λ found. MatchOption found ((n : ℕ) (outer : SomeOuter) → IsLookup text.now n outer → ⊥) (λ p. IsLookup text.now p.0 p.1)) }
{
    let Some(rest) = behind(text, b"lookup ") else {
        return Ok(None);
    };
    let Some((n, back)) = number_then(alloc, rest, b' ', u64::MAX)? else {
        return Ok(None);
    };
    let Some(outer) = found(back) else {
        return Ok(None);
    };
    Ok(Some((n, outer)))
}

/// A side, and how many bytes each write to it takes at most.
fn bound(alloc: Global, text: &[u8]) -> Result<Option<(Object, u64)>, AllocError>
    ensures { IfOk result (λ found. MatchOption found ((object : SomeObject) (most : ℕ) → IsBound text.now object most → ⊥) (λ p. IsBound text.now p.0 p.1)) }
{
    if let Some(most) = numbered(alloc, text, b"client ")? {
        return Ok(Some((Object::Client, most)));
    }
    if let Some(most) = numbered(alloc, text, b"target ")? {
        return Ok(Some((Object::Target, most)));
    }
    Ok(None)
}

fn room_line(alloc: Global, text: &[u8]) -> Result<Option<(u64, Object, u64)>, AllocError>
    ensures { IfOk result (λ found. MatchOption found ((n : ℕ) (object : SomeObject) (most : ℕ) → IsRoom text.now n object most → ⊥) (λ p. IsRoom text.now p.0 p.1 p.2)) }
{
    let Some(rest) = behind(text, b"room ") else {
        return Ok(None);
    };
    let Some((n, back)) = number_then(alloc, rest, b' ', u64::MAX)? else {
        return Ok(None);
    };
    let Some((object, most)) = bound(alloc, back)? else {
        return Ok(None);
    };
    Ok(Some((n, object, most)))
}

/// A kind of call on a link.
fn call_kind(text: &[u8]) -> Option<CallKind>
    ensures { MatchOption result ((kind : SomeKind) → IsKind text.now kind → ⊥) (λ kind. IsKind text.now kind) }
{
    if same(text, b"read") {
        return Some(CallKind::Reading);
    }
    if same(text, b"write") {
        return Some(CallKind::Writing);
    }
    if same(text, b"shut") {
        return Some(CallKind::Shutting);
    }
    None
}

/// A side, and a kind of call on its link.
fn call(text: &[u8]) -> Option<(Object, CallKind)>
    ensures { MatchOption result ((object : SomeObject) (kind : SomeKind) → IsCall text.now object kind → ⊥) (λ p. IsCall text.now p.0 p.1) }
{
    if let Some(rest) = behind(text, b"client ") {
        let kind = call_kind(rest)?;
        return Some((Object::Client, kind));
    }
    let rest = behind(text, b"target ")?;
    let kind = call_kind(rest)?;
    Some((Object::Target, kind))
}

fn fault_line(alloc: Global, text: &[u8]) -> Result<Option<(u64, Object, CallKind)>, AllocError>
    ensures { IfOk result (λ found. MatchOption found ((n : ℕ) (object : SomeObject) (kind : SomeKind) → IsFault text.now n object kind → ⊥) (λ p. IsFault text.now p.0 p.1 p.2)) }
{
    let Some(rest) = behind(text, b"fault ") else {
        return Ok(None);
    };
    let Some((n, back)) = number_then(alloc, rest, b' ', u64::MAX)? else {
        return Ok(None);
    };
    let Some((object, kind)) = call(back) else {
        return Ok(None);
    };
    Ok(Some((n, object, kind)))
}

/// The line that a text spells.
pub fn line_of(alloc: Global, text: &[u8]) -> Result<Option<ScriptLine>, AllocError>
    ensures { IfOk result (λ found. MatchOption found ((l : SomeLine) → Spells text.now l → ⊥) (λ l. Spells text.now l)) }
{
    if same(text, b"see 1") {
        return Ok(Some(ScriptLine::See(1)));
    }
    if let Some(number) = numbered(alloc, text, b"turn 1 ")? {
        return Ok(Some(ScriptLine::Turn(1, number)));
    }
    if let Some(number) = numbered(alloc, text, b"clientend ")? {
        return Ok(Some(ScriptLine::ClientEnd(number)));
    }
    if let Some(number) = numbered(alloc, text, b"targetend ")? {
        return Ok(Some(ScriptLine::TargetEnd(number)));
    }
    if let Some(seconds) = numbered(alloc, text, b"now ")? {
        return Ok(Some(ScriptLine::Now(seconds)));
    }
    if let Some((number, object, most)) = room_line(alloc, text)? {
        return Ok(Some(ScriptLine::Room(number, object, most)));
    }
    if let Some((number, object, kind)) = fault_line(alloc, text)? {
        return Ok(Some(ScriptLine::Fault(number, object, kind)));
    }
    if let Some((number, outer)) = lookup_line(alloc, text)? {
        return Ok(Some(ScriptLine::Lookup(number, outer)));
    }
    if let Some((number, outer)) = dial_line(alloc, text)? {
        return Ok(Some(ScriptLine::Dial(number, outer)));
    }
    if let Some((number, bytes)) = arrival(alloc, text, b"client ")? {
        return Ok(Some(ScriptLine::Client(number, bytes)));
    }
    if let Some((number, bytes)) = arrival(alloc, text, b"target ")? {
        return Ok(Some(ScriptLine::Target(number, bytes)));
    }
    if let Some((number, peer, local)) = open_line(alloc, text)? {
        return Ok(Some(ScriptLine::Open(1, number, peer, local)));
    }
    Ok(None)
}

/// Whether a line says nothing.
pub fn is_skipped(text: &[u8]) -> bool
    ensures { result ≡ skips text.now }
{
    match text.first() {
        None => true,
        Some(byte) => *byte == b'#',
    }
}
