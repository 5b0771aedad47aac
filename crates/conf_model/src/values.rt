//! The values of an entry.
ghost use Rattle.std.specs.Prelude.{◌≡◌, ◌≢◌, bytes_eq, fold, IfOk, IfErr, OnOk, true, [], ◌∷◌, Ok, Err};
ghost use Rattle.std.specs.Char.{is_ascii_alphabetic};
ghost use Rattle.std.specs.List.{list_all, list_any};
ghost use Rattle.socks_grammar.specs.Equal.{method_eq};
ghost use Rattle.conf_model.specs.Values.{address_of, are_all, at_port as at_port_of, client_methods_fault as client_methods_fault_of, commands_of, endpoint_of, has as has_of, hop_of, is_command as is_command_of, is_direct as is_direct_of, is_empty as is_empty_of, is_interface as is_interface_of, is_method as is_method_of, is_pam as is_pam_of, is_protocol as is_protocol_of, is_version as is_version_of, joined as joined_of, login_of, login_with as login_with_of, method_fault as method_fault_of, method_word as method_word_of, methods_of, number_of, pattern_of, protocols_of, readable, refusal_of, rule_methods_of, users_of, versions_of, with_method};
ghost use Rattle.conf_types.specs.Kept.{is_loopback as is_loopback_of, is_name as is_name_of};
ghost use Rattle.addr_pattern.specs.Reading.{addr_read};
ghost use Rattle.addr_pattern.specs.Names.{name_of};

use crate::fault::ConfKind;
use crate::given::{Commands, Hop, Methods, Protocols, Versions};
use addr_pattern::{
    Addr, Endpoint, Name, Pattern, cut_first, is_word, read_number, read_port_part,
};
use conf_text::joined;
use lists::{List, Text};
use socks_grammar::{Login, Method};
use std::alloc::{AllocError, Global};

/// The values with one blank between each two.
pub fn as_text(alloc: Global, values: &[Text]) -> Result<Text, AllocError>
    ensures { IfOk result (λ text. text ≡ joined_of values.now) }
{
    match values {
        [] => Ok(Text::make(alloc)),
        [first, others @ ..] => joined(alloc, first.as_slice(), others),
    }
}

pub fn is_empty(values: &[Text]) -> bool
    ensures { result ≡ is_empty_of values.now }
{
    match values {
        [] => true,
        [_, ..] => false,
    }
}

fn has(values: &[Text], word: &[u8]) -> bool
    ensures { result ≡ has_of word.now values.now }
{
    values.iter().any(|value| is_word(value.as_slice(), word))
}

/// A pattern, or None where the values are none.
pub fn read_pattern(alloc: Global, values: &[Text]) -> Result<Option<Pattern>, AllocError>
    ensures { IfOk result (λ pattern. pattern ≡ pattern_of values.now) }
{
    let text = as_text(alloc, values)?;
    match Pattern::read(text.as_slice()) {
        Ok(pattern) => Ok(Some(pattern)),
        Err(_) => Ok(None),
    }
}

/// One number, at most the limit.
pub fn number(values: &[Text], limit: u32) -> Option<u32>
    ensures { result ≡ number_of limit values.now }
{
    match values {
        [value] => read_number(value.as_slice(), limit),
        _ => None,
    }
}

fn read_addr(text: &[u8]) -> Option<Addr>
    ensures { result ≡ readable (addr_read text.now) }
{
    match Addr::read(text) {
        Ok(addr) => Some(addr),
        Err(_) => None,
    }
}

/// One address.
pub fn address(values: &[Text]) -> Option<Addr>
    ensures { result ≡ address_of values.now }
{
    match values {
        [value] => read_addr(value.as_slice()),
        _ => None,
    }
}

fn at_port(addr: Option<Addr>, port: Option<u16>) -> Option<Endpoint>
    ensures { result ≡ at_port_of addr port }
{
    match (addr, port) {
        (Some(addr), Some(port)) => Some(Endpoint { addr, port }),
        _ => None,
    }
}

/// An address with a port part behind it; without one the port is the one given, if any.
pub fn endpoint(
    alloc: Global,
    default: Option<u16>,
    values: &[Text],
) -> Result<Option<Endpoint>, AllocError>
    ensures { IfOk result (λ endpoint. endpoint ≡ endpoint_of default values.now) }
{
    match values {
        [] => Ok(None),
        [addr] => Ok(at_port(read_addr(addr.as_slice()), default)),
        [addr, first, others @ ..] => {
            let part = joined(alloc, first.as_slice(), others)?;
            Ok(at_port(read_addr(addr.as_slice()), read_port_part(part.as_slice())))
        }
    }
}

/// Whether the name of an interface stands where an address should: a letter, and no colon.
pub fn is_interface(values: &[Text]) -> bool
    ensures { result ≡ is_interface_of values.now }
{
    match values {
        [] => false,
        [value, ..] => is_interface_name(value.as_slice()),
    }
}

fn is_interface_name(value: &[u8]) -> bool
    ensures { result ≡ is_interface_of (value.now ∷ []) }
{
    has_letter(value) && !value.contains(&b':')
}

fn has_letter(value: &[u8]) -> bool
    ensures { result ≡ list_any is_ascii_alphabetic value.now }
{
    value.iter().any(|byte| byte.is_ascii_alphabetic())
}

/// 127.0.0.0/8, or ::1.
pub fn is_loopback(addr: Addr) -> bool
    ensures { result ≡ is_loopback_of addr }
{
    match addr {
        Addr::V4(number) => number / 2u32.pow(24) == 127,
        Addr::V6(number) => number == 1,
    }
}

// ---- methods

fn is_pam(value: &[u8]) -> bool
    ensures { result ≡ is_pam_of value.now }
{
    is_word(value, b"pam")
        || is_word(value, b"pam.address")
        || is_word(value, b"pam.any")
        || is_word(value, b"pam.username")
}

/// How a word is refused that is no method of its place.
fn refusal(value: &[u8]) -> ConfKind
    ensures { result ≡ refusal_of value.now }
{
    if is_word(value, b"gssapi") {
        return ConfKind::GssapiRefused;
    }
    if is_pam(value) {
        return ConfKind::PamRefused;
    }
    ConfKind::MethodRefused
}

fn is_method(value: &[u8]) -> bool
    ensures { result ≡ is_method_of value.now }
{
    is_word(value, b"none") || is_word(value, b"username")
}

/// What is wrong with the methods of the server or of a rule.
fn method_fault(values: &[Text]) -> Option<ConfKind>
    ensures { result ≡ method_fault_of is_method_of values.now }
{
    for value in values {
        if !is_method(value.as_slice()) {
            return Some(refusal(value.as_slice()));
        }
    }
    None
}

/// What is wrong with the methods of a client rule, which may say `none` alone.
pub fn client_methods_fault(values: &[Text]) -> Option<ConfKind>
    ensures { result ≡ client_methods_fault_of values.now }
{
    for value in values {
        if !is_word(value.as_slice(), b"none") {
            return Some(refusal(value.as_slice()));
        }
    }
    if values.len() == 1 {
        None
    } else {
        Some(ConfKind::BadValue)
    }
}

/// The method that a word names that is one.
fn method_word(value: &[u8]) -> Method
    ensures { result ≡ method_word_of value.now }
{
    if is_word(value, b"none") {
        Method::NoAuth
    } else {
        Method::Username
    }
}

fn is_same(method: Method, other: Method) -> bool
    ensures { result ≡ method_eq method other }
{
    method == other
}

fn lists(methods: &[Method], method: Method) -> bool
    ensures { result ≡ list_any (λ m. method_eq m method) methods.now }
{
    methods.iter().any(|listed| is_same(*listed, method))
}

/// Adds a method, unless it is listed.
fn add_method(methods: &mut List<Method>, value: &[u8]) -> Result<(), AllocError>
    ensures { OnOk result (methods.new ≡ with_method methods.old value.now) }
{
    let method = method_word(value);
    if lists(methods.as_slice(), method) {
        return Ok(());
    }
    methods.push(method)
}

/// The methods in their order, without repeats.
fn listed(alloc: Global, values: &[Text]) -> Result<List<Method>, AllocError>
    ensures { IfOk result (λ methods. methods ≡ fold with_method [] values.now) }
{
    let mut methods = List::make(alloc);
    for value in values {
        add_method(&mut methods, value.as_slice())?;
    }
    Ok(methods)
}

/// The methods that the server takes.
pub fn methods(alloc: Global, values: &[Text]) -> Result<List<Method>, ConfKind>
    ensures ok { IfOk result (λ methods. methods_of values.now ≡ Ok methods) }
    ensures err { IfErr result (λ kind. kind ≢ ConfKind.Memory → methods_of values.now ≡ Err kind) }
{
    if is_empty(values) {
        return Err(ConfKind::BadValue);
    }
    if let Some(kind) = method_fault(values) {
        return Err(kind);
    }
    Ok(listed(alloc, values)?)
}

/// The methods that a rule takes.
pub fn rule_methods(values: &[Text]) -> Result<Methods, ConfKind>
    ensures { result ≡ rule_methods_of values.now }
{
    if is_empty(values) {
        return Err(ConfKind::BadValue);
    }
    match method_fault(values) {
        Some(kind) => Err(kind),
        None => Ok(Methods {
            noauth: has(values, b"none"),
            username: has(values, b"username"),
        }),
    }
}

// ---- sets of words

fn is_command(value: &[u8]) -> bool
    ensures { result ≡ is_command_of value.now }
{
    is_word(value, b"connect")
        || is_word(value, b"bind")
        || is_word(value, b"udpassociate")
        || is_word(value, b"bindreply")
        || is_word(value, b"udpreply")
}

fn all_are_commands(values: &[Text]) -> bool
    ensures { result ≡ list_all is_command_of values.now }
{
    values.iter().all(|value| is_command(value.as_slice()))
}

fn are_commands(values: &[Text]) -> bool
    ensures { result ≡ are_all is_command_of values.now }
{
    !is_empty(values) && all_are_commands(values)
}

/// Commands; a repeat is ignored.
pub fn commands(values: &[Text]) -> Option<Commands>
    ensures { result ≡ commands_of values.now }
{
    if !are_commands(values) {
        return None;
    }
    Some(Commands {
        connect: has(values, b"connect"),
        bind: has(values, b"bind"),
        udpassociate: has(values, b"udpassociate"),
        bindreply: has(values, b"bindreply"),
        udpreply: has(values, b"udpreply"),
    })
}

fn is_protocol(value: &[u8]) -> bool
    ensures { result ≡ is_protocol_of value.now }
{
    is_word(value, b"tcp") || is_word(value, b"udp")
}

fn all_are_protocols(values: &[Text]) -> bool
    ensures { result ≡ list_all is_protocol_of values.now }
{
    values.iter().all(|value| is_protocol(value.as_slice()))
}

fn are_protocols(values: &[Text]) -> bool
    ensures { result ≡ are_all is_protocol_of values.now }
{
    !is_empty(values) && all_are_protocols(values)
}

/// Protocols; a repeat is ignored.
pub fn protocols(values: &[Text]) -> Option<Protocols>
    ensures { result ≡ protocols_of values.now }
{
    if !are_protocols(values) {
        return None;
    }
    Some(Protocols {
        tcp: has(values, b"tcp"),
        udp: has(values, b"udp"),
    })
}

fn is_version(value: &[u8]) -> bool
    ensures { result ≡ is_version_of value.now }
{
    is_word(value, b"socks_v4") || is_word(value, b"socks_v5")
}

fn all_are_versions(values: &[Text]) -> bool
    ensures { result ≡ list_all is_version_of values.now }
{
    values.iter().all(|value| is_version(value.as_slice()))
}

fn are_versions(values: &[Text]) -> bool
    ensures { result ≡ are_all is_version_of values.now }
{
    !is_empty(values) && all_are_versions(values)
}

/// Versions of SOCKS; a repeat is ignored.
pub fn versions(values: &[Text]) -> Option<Versions>
    ensures { result ≡ versions_of values.now }
{
    if !are_versions(values) {
        return None;
    }
    Some(Versions {
        v4: has(values, b"socks_v4"),
        v5: has(values, b"socks_v5"),
    })
}

// ---- names, proxies and logins

fn is_name(value: &[u8]) -> bool
    ensures { result ≡ is_name_of value.now }
{
    Name::read(value).is_ok()
}

fn all_are_names(values: &[Text]) -> bool
    ensures { result ≡ list_all is_name_of values.now }
{
    values.iter().all(|value| is_name(value.as_slice()))
}

fn are_names(values: &[Text]) -> bool
    ensures { result ≡ are_all is_name_of values.now }
{
    !is_empty(values) && all_are_names(values)
}

/// The values as names, of which each is one.
fn names(alloc: Global, values: &[Text]) -> Result<List<Name>, AllocError>
    ensures { IfOk result (λ names. list_all is_name_of values.now ≡ true → names ≡ values.now) }
{
    let mut names = List::make(alloc);
    for value in values {
        if let Ok(name) = Name::read(value.as_slice()) {
            names.push(name)?;
        }
    }
    Ok(names)
}

/// 1 to 64 names of users.
pub fn users(alloc: Global, values: &[Text]) -> Result<Option<List<Name>>, AllocError>
    ensures { IfOk result (λ users. users ≡ users_of values.now) }
{
    if !are_names(values) || values.len() > 64 {
        return Ok(None);
    }
    Ok(Some(names(alloc, values)?))
}

fn is_direct(values: &[Text]) -> bool
    ensures { result ≡ is_direct_of values.now }
{
    match values {
        [value] => is_word(value.as_slice(), b"direct"),
        _ => false,
    }
}

/// Where a route leads: `direct`, or the endpoint of a proxy, by default at port 1080.
pub fn hop(alloc: Global, values: &[Text]) -> Result<Option<Hop>, AllocError>
    ensures { IfOk result (λ hop. hop ≡ hop_of values.now) }
{
    if is_direct(values) {
        return Ok(Some(Hop::Direct));
    }
    match endpoint(alloc, Some(1080), values)? {
        Some(at) => Ok(Some(Hop::At(at))),
        None => Ok(None),
    }
}

fn read_name(text: &[u8]) -> Option<Name>
    ensures { result ≡ readable (name_of text.now) }
{
    match Name::read(text) {
        Ok(name) => Some(name),
        Err(_) => None,
    }
}

fn login_with(name: Option<Name>, password: Option<Name>) -> Option<Login>
    ensures { result ≡ login_with_of name password }
{
    match (name, password) {
        (Some(name), Some(password)) => Some(Login { name, password }),
        _ => None,
    }
}

/// A name and a password, cut at the first colon.
pub fn login(values: &[Text]) -> Option<Login>
    ensures { result ≡ login_of values.now }
{
    match values {
        [value] => {
            let (name, password) = cut_first(value.as_slice(), b':')?;
            login_with(read_name(name), read_name(password))
        }
        _ => None,
    }
}
