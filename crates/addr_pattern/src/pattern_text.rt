ghost use Rattle.std.specs.Prelude.{◌≡◌, ◌≤◌, ◌+◌, ◌++◌, ◌&&◌, length};
ghost use Rattle.std.specs.List.{list_all};
ghost use Rattle.addr_pattern.specs.AddressText.{number_of_text};
ghost use Rattle.addr_pattern.specs.declared.pattern.HostPattern.{HostPattern};
ghost use Rattle.addr_pattern.specs.PatternText.{is_quad_byte as is_quad_byte_of, has_no_host_bits as has_no_host_bits_of, width_of, family_read, net_of, whole_net, masked, with_test, is_host_byte as is_host_byte_of, begins_well as begins_well_of, is_host_name as is_host_name_of, name_read, host_pattern_read, pattern_read, port_read, mask_text, host_text, pattern_text};

use crate::addr::Addr;
use crate::addr_text::{read_v4, read_v6};
use crate::blanks::is_word;
use crate::cut::cut_first;
use crate::fault::AddrFault;
use crate::ipv4::add_ipv4;
use crate::ipv6_text::add_ipv6;
use crate::name::Name;
use crate::number::{add_number, read_number};
use crate::pattern::{HostPattern, Pattern, PortTest};
use crate::port_text::{add_test, read_test};
use crate::short::Short;

impl Pattern {
    /// A host, and behind a blank a port part. What is wrong with the host is found first.
    pub fn read(text: &[u8]) -> Result<Pattern, AddrFault>
        ensures { result ≡ pattern_read text.now }
    {
        match cut_first(text, b' ') {
            None => {
                let host = read_host(text)?;
                Ok(Pattern {
                    host,
                    port: PortTest::Any,
                })
            }
            Some((host, rest)) => {
                if host.is_empty() {
                    return Err(AddrFault::BadName);
                }
                with_port(read_host(host)?, rest)
            }
        }
    }

    /// The canonical text.
    pub fn write(&self) -> Short
        ensures { result ≡ pattern_text self.now }
    {
        let mut text = Short::empty();
        add_host(&mut text, &self.host);
        add_test(&mut text, self.port);
        text
    }
}

fn with_port(host: HostPattern, rest: &[u8]) -> Result<Pattern, AddrFault>
    ensures { result ≡ with_test host (port_read rest.now) }
{
    match read_test(rest) {
        None => Err(AddrFault::BadPort),
        Some(port) => Ok(Pattern { host, port }),
    }
}

fn read_host(text: &[u8]) -> Result<HostPattern, AddrFault>
    ensures { result ≡ host_pattern_read text.now }
{
    if is_word(text, b"0/0") {
        return Ok(HostPattern::Any);
    }
    let six = text.contains(&b':');
    match cut_first(text, b'/') {
        None => {
            if six || are_quad_bytes(text) {
                read_whole(six, text)
            } else {
                read_name(text)
            }
        }
        Some((addr, mask)) => {
            if six || are_quad_parts(addr, mask) {
                read_net(six, addr, mask)
            } else {
                read_name(text)
            }
        }
    }
}

fn are_quad_bytes(text: &[u8]) -> bool
    ensures { result ≡ list_all is_quad_byte_of text.now }
{
    text.iter().all(|byte| is_quad_byte(*byte))
}

fn are_quad_parts(addr: &[u8], mask: &[u8]) -> bool
    ensures { result ≡ (list_all is_quad_byte_of addr.now && list_all is_quad_byte_of mask.now) }
{
    are_quad_bytes(addr) && are_quad_bytes(mask)
}

fn is_quad_byte(byte: u8) -> bool
    ensures { result ≡ is_quad_byte_of byte }
{
    byte.is_ascii_digit() || byte == b'.'
}

fn read_family(six: bool, text: &[u8]) -> Result<Addr, AddrFault>
    ensures { result ≡ family_read six text.now }
{
    if six { read_v6(text) } else { read_v4(text) }
}

fn width(addr: Addr) -> u8
    ensures { result ≡ width_of addr }
{
    match addr {
        Addr::V4(_) => 32,
        Addr::V6(_) => 128,
    }
}

/// A network of which all bits count.
fn read_whole(six: bool, text: &[u8]) -> Result<HostPattern, AddrFault>
    ensures { result ≡ whole_net (family_read six text.now) }
{
    match read_family(six, text) {
        Err(fault) => Err(fault),
        Ok(addr) => Ok(HostPattern::Net {
            addr,
            bits: width(addr),
        }),
    }
}

/// A network of which so many bits count, and no bit behind these is set.
fn read_net(six: bool, addr: &[u8], mask: &[u8]) -> Result<HostPattern, AddrFault>
    ensures { result ≡ net_of (family_read six addr.now) mask.now }
{
    match read_family(six, addr) {
        Err(fault) => Err(fault),
        Ok(addr) => read_masked(addr, mask),
    }
}

fn read_masked(addr: Addr, mask: &[u8]) -> Result<HostPattern, AddrFault>
    ensures { result ≡ masked addr (number_of_text (width_of addr) mask.now) }
{
    match read_number(mask, u32::from(width(addr))) {
        None => Err(AddrFault::BadMask),
        Some(bits) => {
            let bits = bits as u8;
            if has_no_host_bits(addr, bits) {
                Ok(HostPattern::Net { addr, bits })
            } else {
                Err(AddrFault::HostBits)
            }
        }
    }
}

/// No bit is set behind the first so many.
fn has_no_host_bits(addr: Addr, bits: u8) -> bool
    requires { bits ≤ width_of addr }
    ensures { result ≡ has_no_host_bits_of addr bits }
{
    match addr {
        Addr::V4(addr) => u64::from(addr) % 2u64.pow(u32::from(32 - bits)) == 0,
        Addr::V6(addr) => {
            if bits == 0 {
                addr == 0
            } else {
                addr % 2u128.pow(u32::from(128 - bits)) == 0
            }
        }
    }
}

/// A name, or behind a dot a domain.
fn read_name(text: &[u8]) -> Result<HostPattern, AddrFault>
    ensures { result ≡ name_read text.now }
{
    match text {
        [] => Err(AddrFault::BadName),
        [b'.', domain @ ..] => {
            if is_host_name(254, domain) {
                Ok(HostPattern::Domain(Name::from_bytes(domain)))
            } else {
                Err(AddrFault::BadName)
            }
        }
        _ => {
            if is_host_name(255, text) {
                Ok(HostPattern::Name(Name::from_bytes(text)))
            } else {
                Err(AddrFault::BadName)
            }
        }
    }
}

/// Letters, digits, `-`, `_` and `.`, the first a letter or a digit.
fn is_host_name(limit: usize, text: &[u8]) -> bool
    ensures { result ≡ is_host_name_of limit text.now }
{
    begins_well(text) && text.len() <= limit && are_host_bytes(text)
}

fn are_host_bytes(text: &[u8]) -> bool
    ensures { result ≡ list_all is_host_byte_of text.now }
{
    text.iter().all(|byte| is_host_byte(*byte))
}

fn begins_well(text: &[u8]) -> bool
    ensures { result ≡ begins_well_of text.now }
{
    match text {
        [] => false,
        [first, ..] => first.is_ascii_alphanumeric(),
    }
}

fn is_host_byte(byte: u8) -> bool
    ensures { result ≡ is_host_byte_of byte }
{
    byte.is_ascii_alphanumeric() || byte == b'-' || byte == b'.' || byte == b'_'
}

/// Puts the host behind what the text holds.
fn add_host(out: &mut Short, host: &HostPattern)
    requires { length out.old ≤ 10 }
    ensures added { out.new ≡ out.old ++ host_text host.now }
    ensures short { length out.new ≤ length out.old + 256 }
{
    match host {
        HostPattern::Any => out.add(b"0/0"),
        HostPattern::Net { addr, bits } => add_net(out, *addr, *bits),
        HostPattern::Name(name) => out.add(name.as_bytes()),
        HostPattern::Domain(name) => {
            out.add(b".");
            out.add(name.as_bytes());
        }
    }
}

fn add_net(out: &mut Short, addr: Addr, bits: u8)
    requires { length out.old ≤ 10 }
    ensures added { out.new ≡ out.old ++ host_text (HostPattern.Net addr bits) }
    ensures short { length out.new ≤ length out.old + 88 }
{
    match addr {
        Addr::V4(addr) => add_ipv4(out, addr),
        Addr::V6(addr) => add_ipv6(out, addr),
    }
    add_mask(out, width(addr), bits);
}

/// Puts the bits behind what the text holds, unless all count.
fn add_mask(out: &mut Short, width: u8, bits: u8)
    requires { length out.old ≤ 100 }
    ensures added { out.new ≡ out.old ++ mask_text width bits }
    ensures short { length out.new ≤ length out.old + 6 }
{
    if bits == width {
        return;
    }
    out.add(b"/");
    add_number(out, u16::from(bits));
}
