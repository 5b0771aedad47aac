ghost use Rattle.std.specs.Prelude.{◌≡◌, ◌<◌, ◌+◌, ◌==◌, ◌&&◌, ◌++◌, ◌∷◌, [], Some, None, MatchOption, IfSome, option_map, length, slice_index};
ghost use Rattle.addr_pattern.specs.AddressText.{cut_at_gap as cut_at_gap_of, groups_of, groups_of_parts, group_of, hex_value as hex_value_of, ipv6_of, parts, worth, whole_groups, filled as filled_of};
ghost use Rattle.addr_pattern.specs.Groups.{at_most_eight, groups_onto as groups_onto_of};

use crate::cut::cut_first;
use crate::groups::Groups;
use crate::ipv4::read_ipv4;

/// The address that a text is, by the forms of RFC 4291, section 2.2.
pub fn read_ipv6(text: &[u8]) -> Option<u128>
    ensures { result ≡ ipv6_of text.now }
{
    let Some((front, back)) = cut_at_gap(text) else {
        return whole(read_groups(text)?);
    };
    if front.contains(&b'.') {
        return None;
    }
    filled(read_groups(front)?, read_groups(back)?)
}

/// The number of groups that are eight.
fn whole(groups: Groups) -> Option<u128>
    ensures { result ≡ option_map (worth 65536 0) (whole_groups (Some groups)) }
{
    if groups.len() != 8 {
        return None;
    }
    Some(groups.number())
}

/// The number of the groups with one zero or more between them, so that they are eight.
fn filled(front: Groups, back: Groups) -> Option<u128>
    ensures { result ≡ option_map (worth 65536 0) (filled_of (Some front) (Some back)) }
{
    let count = front.len() + back.len();
    if count >= 8 {
        return None;
    }
    let zeros = [0u16; 8];
    let mut groups = front;
    groups.add(&zeros[..8 - count]);
    groups.add(back.as_slice());
    Some(groups.number())
}

/// What stands before and behind the first `::`.
fn cut_at_gap(text: &[u8]) -> Option<(&[u8], &[u8])>
    ensures { MatchOption result (cut_at_gap_of text.now ≡ None) (λ p. cut_at_gap_of text.now ≡ Some (p.0.now, p.1.now)) }
{
    let mut at = 0;
    while at + 1 < text.len() {
        if is_gap(text, at) {
            return Some((&text[..at], &text[at + 2..]));
        }
        at += 1;
    }
    None
}

fn is_gap(text: &[u8], at: usize) -> bool
    requires { at + 1 < length text.now }
    ensures { result ≡ (slice_index text.now at == 58 && slice_index text.now (at + 1) == 58) }
{
    text[at] == b':' && text[at + 1] == b':'
}

/// The groups of a text, where they are at most eight: none in a text of no bytes.
fn read_groups(text: &[u8]) -> Option<Groups>
    ensures { result ≡ at_most_eight (groups_of text.now) }
{
    if text.is_empty() {
        return Some(Groups::empty());
    }
    groups_onto(Groups::empty(), text)
}

/// The groups, and behind them those of a text.
fn groups_onto(groups: Groups, text: &[u8]) -> Option<Groups>
    ensures { result ≡ groups_onto_of groups (groups_of_parts (parts 58 text.now)) }
{
    match cut_first(text, b':') {
        None => last_onto(groups, text),
        Some((group, behind)) => {
            let group = read_group(group)?;
            groups_onto(with_group(groups, group)?, behind)
        }
    }
}

/// The groups, and behind them the last part of a text: a group, or a dotted quad, which is two groups.
fn last_onto(groups: Groups, text: &[u8]) -> Option<Groups>
    ensures { result ≡ groups_onto_of groups (groups_of_parts (text.now ∷ [])) }
{
    if text.contains(&b'.') {
        let tail = read_ipv4(text)?;
        let groups = with_group(groups, (tail / 65536) as u16)?;
        return with_group(groups, (tail % 65536) as u16);
    }
    with_group(groups, read_group(text)?)
}

/// The groups and one more, where they are at most eight.
fn with_group(groups: Groups, group: u16) -> Option<Groups>
    ensures { result ≡ at_most_eight (Some (groups ++ group ∷ [])) }
{
    if groups.len() == 8 {
        return None;
    }
    let mut groups = groups;
    groups.add(&[group]);
    Some(groups)
}

/// The number that one to four hexadecimal digits are.
fn read_group(text: &[u8]) -> Option<u16>
    ensures { result ≡ group_of text.now }
{
    if text.is_empty() || text.len() > 4 {
        return None;
    }
    let mut group = 0u16;
    for digit in text {
        group = group * 16 + hex_value(*digit)?;
    }
    Some(group)
}

fn hex_value(byte: u8) -> Option<u16>
    ensures value { result ≡ hex_value_of byte }
    ensures small { IfSome result (λ v. v < 16) }
{
    match byte {
        b'0'..=b'9' => Some(u16::from(byte - b'0')),
        b'a'..=b'f' => Some(u16::from(byte - b'a') + 10),
        b'A'..=b'F' => Some(u16::from(byte - b'A') + 10),
        _ => None,
    }
}
