//! The canonical text of a configuration.
ghost use Rattle.std.specs.Prelude.{◌≡◌, ◌++◌, ◌&&◌, [], ◌∷◌, codes, map, if◌then◌else◌, IfOk, OnOk};
ghost use Rattle.std.specs.List.{flat_map};
ghost use Rattle.conf_model.specs.Canonical.{canonical_text, client_lines, command_lines, command_words as command_words_of, control_lines, entry, external_line, inner, internal_line, listener, login_lines, max_lines, method_lines, method_word as method_word_of, method_words as method_words_of, pattern_lines, protocol_lines, route_lines, set_lines, setting_lines, socks_lines, user_lines, version_lines, version_word as version_word_of, via_lines, word_if};
ghost use Rattle.conf_model.specs.Reads.{IsReadAgain};
ghost use Rattle.conf_types.specs.Kept.{IsConfig};
ghost use Rattle.conf_model.specs.Writing.{Adds};

use crate::values::as_text;
use addr_pattern::{Addr, Endpoint, Name, Pattern, write_number};
use conf_types::{ClientRule, Config, Entries, Route, SocksRule, Via};
use lists::{List, Text};
use socks_grammar::{Login, Method, Version};
use std::alloc::{AllocError, Global};

// ---- lines

/// Adds the line `key: value`.
#[tactic(auto, unfolding(crate::specs::Writing::Adds))]
fn add_entry(text: &mut Text, key: &[u8], value: &[u8]) -> Result<(), AllocError>
    ensures { OnOk result (Adds text.old text.new (entry key.now value.now ∷ [])) }
{
    text.add(key)?;
    text.add(b": ")?;
    text.add(value)?;
    text.add(b"\n")
}

/// Adds the line of an entry in a block.
#[tactic(auto, unfolding(crate::specs::Writing::Adds))]
fn add_inner(text: &mut Text, key: &[u8], value: &[u8]) -> Result<(), AllocError>
    ensures { OnOk result (Adds text.old text.new (inner key.now value.now ∷ [])) }
{
    text.add(b"  ")?;
    add_entry(text, key, value)
}

/// Adds the line with which a block begins.
#[tactic(auto, unfolding(crate::specs::Writing::Adds))]
fn add_head(text: &mut Text, key: &[u8]) -> Result<(), AllocError>
    ensures { OnOk result (Adds text.old text.new ((key.now ++ codes " {") ∷ [])) }
{
    text.add(key)?;
    text.add(b" {\n")
}

/// Adds the line with which a block ends.
#[tactic(auto, unfolding(crate::specs::Writing::Adds))]
fn add_end(text: &mut Text) -> Result<(), AllocError>
    ensures { OnOk result (Adds text.old text.new (codes "}" ∷ [])) }
{
    text.add(b"}\n")
}

// ---- values

/// `ADDR port = N`.
fn listener_text(alloc: Global, endpoint: Endpoint) -> Result<Text, AllocError>
    ensures { IfOk result (λ text. text ≡ listener endpoint) }
{
    let mut text = Text::from_slice(alloc, endpoint.addr.write().as_slice())?;
    text.add(b" port = ")?;
    text.add(write_number(u32::from(endpoint.port)).as_slice())?;
    Ok(text)
}

/// Adds a word to others, if it is said.
fn add_if(alloc: Global, words: &mut List<Text>, said: bool, word: &[u8]) -> Result<(), AllocError>
    ensures { OnOk result (words.new ≡ words.old ++ word_if said word.now) }
{
    if said {
        words.push(Text::from_slice(alloc, word)?)?;
    }
    Ok(())
}

fn method_word(method: Method) -> &'static [u8]
    ensures { result.now ≡ method_word_of method }
{
    match method {
        Method::NoAuth => b"none",
        Method::Username => b"username",
    }
}

fn method_words(alloc: Global, methods: &[Method]) -> Result<List<Text>, AllocError>
    ensures { IfOk result (λ words. words ≡ method_words_of methods.now) }
{
    let mut words = List::make(alloc);
    for method in methods {
        words.push(Text::from_slice(alloc, method_word(*method))?)?;
    }
    Ok(words)
}

fn user_words(alloc: Global, users: &[Name]) -> Result<List<Text>, AllocError>
    ensures { IfOk result (λ words. words ≡ users.now) }
{
    let mut words = List::make(alloc);
    for user in users {
        words.push(Text::from_slice(alloc, user.as_bytes())?)?;
    }
    Ok(words)
}

fn command_words(alloc: Global, rule: &SocksRule) -> Result<List<Text>, AllocError>
    ensures { IfOk result (λ words. words ≡ command_words_of rule.now) }
{
    let mut words = List::make(alloc);
    add_if(alloc, &mut words, rule.connect, b"connect")?;
    add_if(alloc, &mut words, rule.bind, b"bind")?;
    add_if(alloc, &mut words, rule.udpassociate, b"udpassociate")?;
    add_if(alloc, &mut words, rule.bindreply, b"bindreply")?;
    add_if(alloc, &mut words, rule.udpreply, b"udpreply")?;
    Ok(words)
}

/// Two words, each if it is said.
fn two_words(
    alloc: Global,
    first_said: bool,
    first: &[u8],
    second_said: bool,
    second: &[u8],
) -> Result<List<Text>, AllocError>
    ensures { IfOk result (λ words. words ≡ word_if first_said first.now ++ word_if second_said second.now) }
{
    let mut words = List::make(alloc);
    add_if(alloc, &mut words, first_said, first)?;
    add_if(alloc, &mut words, second_said, second)?;
    Ok(words)
}

fn both(first: bool, second: bool) -> bool
    ensures { result ≡ (first && second) }
{
    first && second
}

// ---- entries of rules

/// Adds the line of a set of words, unless it has all.
fn add_set(
    alloc: Global,
    text: &mut Text,
    key: &[u8],
    all: bool,
    words: &[Text],
) -> Result<(), AllocError>
    ensures { OnOk result (Adds text.old text.new (set_lines key.now all words.now)) }
{
    if all {
        return Ok(());
    }
    let value = as_text(alloc, words)?;
    add_inner(text, key, value.as_slice())?;
    Ok(())
}

fn add_patterns(text: &mut Text, from: &Pattern, to: &Pattern) -> Result<(), AllocError>
    ensures { OnOk result (Adds text.old text.new (pattern_lines from.now to.now)) }
{
    add_inner(text, b"from", from.write().as_slice())?;
    add_inner(text, b"to", to.write().as_slice())?;
    Ok(())
}

fn add_commands(alloc: Global, text: &mut Text, rule: &SocksRule) -> Result<(), AllocError>
    ensures { OnOk result (Adds text.old text.new (command_lines rule.now)) }
{
    let all = rule.connect && rule.bind && rule.udpassociate && rule.bindreply && rule.udpreply;
    let words = command_words(alloc, rule)?;
    add_set(alloc, text, b"command", all, words.as_slice())?;
    Ok(())
}

fn add_protocols(alloc: Global, text: &mut Text, rule: &SocksRule) -> Result<(), AllocError>
    ensures { OnOk result (Adds text.old text.new (protocol_lines rule.now)) }
{
    let words = two_words(alloc, rule.tcp, b"tcp", rule.udp, b"udp")?;
    let all = both(rule.tcp, rule.udp);
    add_set(alloc, text, b"protocol", all, words.as_slice())?;
    Ok(())
}

fn add_methods(alloc: Global, text: &mut Text, rule: &SocksRule) -> Result<(), AllocError>
    ensures { OnOk result (Adds text.old text.new (method_lines rule.now)) }
{
    let words = two_words(alloc, rule.noauth, b"none", rule.username, b"username")?;
    let all = both(rule.noauth, rule.username);
    add_set(alloc, text, b"socksmethod", all, words.as_slice())?;
    Ok(())
}

fn add_versions(alloc: Global, text: &mut Text, rule: &SocksRule) -> Result<(), AllocError>
    ensures { OnOk result (Adds text.old text.new (version_lines rule.now)) }
{
    let words = two_words(alloc, rule.v4, b"socks_v4", rule.v5, b"socks_v5")?;
    let all = both(rule.v4, rule.v5);
    add_set(alloc, text, b"proxyprotocol", all, words.as_slice())?;
    Ok(())
}

fn add_users(alloc: Global, text: &mut Text, users: &[Name]) -> Result<(), AllocError>
    ensures { OnOk result (Adds text.old text.new (user_lines users.now)) }
{
    match users {
        [] => Ok(()),
        [_, ..] => {
            let words = user_words(alloc, users)?;
            let value = as_text(alloc, words.as_slice())?;
            add_inner(text, b"user", value.as_slice())?;
            Ok(())
        }
    }
}

fn add_max(text: &mut Text, max: Option<u32>) -> Result<(), AllocError>
    ensures { OnOk result (Adds text.old text.new (max_lines max)) }
{
    match max {
        None => Ok(()),
        Some(number) => {
            add_inner(text, b"session.max", write_number(number).as_slice())?;
            Ok(())
        }
    }
}

fn pass_or_block(pass: bool, passes: &'static [u8], blocks: &'static [u8]) -> &'static [u8]
    ensures { result.now ≡ (if pass then passes.now else blocks.now) }
{
    if pass { passes } else { blocks }
}

fn add_client_rule(text: &mut Text, rule: &ClientRule) -> Result<(), AllocError>
    ensures { OnOk result (Adds text.old text.new (client_lines rule.now)) }
{
    add_head(
        text,
        pass_or_block(rule.pass, b"client pass", b"client block"),
    )?;
    add_patterns(text, &rule.from, &rule.to)?;
    add_max(text, rule.max)?;
    add_end(text)?;
    Ok(())
}

fn add_socks_rule(alloc: Global, text: &mut Text, rule: &SocksRule) -> Result<(), AllocError>
    ensures { OnOk result (Adds text.old text.new (socks_lines rule.now)) }
{
    add_head(
        text,
        pass_or_block(rule.pass, b"socks pass", b"socks block"),
    )?;
    add_patterns(text, &rule.from, &rule.to)?;
    add_commands(alloc, text, rule)?;
    add_protocols(alloc, text, rule)?;
    add_methods(alloc, text, rule)?;
    add_users(alloc, text, rule.users.as_slice())?;
    add_versions(alloc, text, rule)?;
    add_max(text, rule.max)?;
    add_end(text)?;
    Ok(())
}

// ---- routes

fn version_word(version: Version) -> &'static [u8]
    ensures { result.now ≡ version_word_of version }
{
    match version {
        Version::V4 => b"socks_v4",
        Version::V5 => b"socks_v5",
    }
}

fn add_login(alloc: Global, text: &mut Text, login: &Option<Login>) -> Result<(), AllocError>
    ensures { OnOk result (Adds text.old text.new (login_lines login.now)) }
{
    match login {
        None => Ok(()),
        Some(login) => {
            let mut value = Text::from_slice(alloc, login.name.as_bytes())?;
            value.push(b':')?;
            value.add(login.password.as_bytes())?;
            add_inner(text, b"login", value.as_slice())?;
            Ok(())
        }
    }
}

fn add_via(alloc: Global, text: &mut Text, via: &Via) -> Result<(), AllocError>
    ensures { OnOk result (Adds text.old text.new (via_lines via.now)) }
{
    match via {
        Via::Direct => {
            add_inner(text, b"via", b"direct")?;
            Ok(())
        }
        Via::Proxy { at, version, login } => {
            let value = listener_text(alloc, *at)?;
            add_inner(text, b"via", value.as_slice())?;
            add_inner(text, b"proxyprotocol", version_word(*version))?;
            add_login(alloc, text, login)?;
            Ok(())
        }
    }
}

fn add_route(alloc: Global, text: &mut Text, route: &Route) -> Result<(), AllocError>
    ensures { OnOk result (Adds text.old text.new (route_lines route.now)) }
{
    add_head(text, b"route")?;
    add_patterns(text, &route.from, &route.to)?;
    add_via(alloc, text, &route.via)?;
    add_end(text)?;
    Ok(())
}

// ---- entries at the top

fn add_internal(alloc: Global, text: &mut Text, endpoint: Endpoint) -> Result<(), AllocError>
    ensures { OnOk result (Adds text.old text.new (internal_line endpoint ∷ [])) }
{
    let value = listener_text(alloc, endpoint)?;
    add_entry(text, b"internal", value.as_slice())?;
    Ok(())
}

fn add_internals(alloc: Global, text: &mut Text, internals: &[Endpoint]) -> Result<(), AllocError>
    ensures { OnOk result (Adds text.old text.new (map internal_line internals.now)) }
{
    for endpoint in internals {
        add_internal(alloc, text, *endpoint)?;
    }
    Ok(())
}

fn add_external(text: &mut Text, addr: Addr) -> Result<(), AllocError>
    ensures { OnOk result (Adds text.old text.new (external_line addr ∷ [])) }
{
    add_entry(text, b"external", addr.write().as_slice())?;
    Ok(())
}

fn add_externals(text: &mut Text, externals: &[Addr]) -> Result<(), AllocError>
    ensures { OnOk result (Adds text.old text.new (map external_line externals.now)) }
{
    for addr in externals {
        add_external(text, *addr)?;
    }
    Ok(())
}

fn add_control(alloc: Global, text: &mut Text, control: Option<Endpoint>) -> Result<(), AllocError>
    ensures { OnOk result (Adds text.old text.new (control_lines control)) }
{
    match control {
        None => Ok(()),
        Some(endpoint) => {
            let value = listener_text(alloc, endpoint)?;
            add_entry(text, b"control", value.as_slice())?;
            Ok(())
        }
    }
}

fn add_settings(alloc: Global, text: &mut Text, entries: &Entries) -> Result<(), AllocError>
    ensures { OnOk result (Adds text.old text.new (setting_lines entries.now)) }
{
    let words = method_words(alloc, entries.methods.as_slice())?;
    let methods = as_text(alloc, words.as_slice())?;
    add_entry(text, b"socksmethod", methods.as_slice())?;
    add_entry(
        text,
        b"timeout.negotiate",
        write_number(entries.negotiate).as_slice(),
    )?;
    add_entry(text, b"timeout.io", write_number(entries.io).as_slice())?;
    Ok(())
}

// ---- the whole

fn add_client_rules(text: &mut Text, rules: &[ClientRule]) -> Result<(), AllocError>
    ensures { OnOk result (Adds text.old text.new (flat_map client_lines rules.now)) }
{
    for rule in rules {
        add_client_rule(text, rule)?;
    }
    Ok(())
}

fn add_socks_rules(alloc: Global, text: &mut Text, rules: &[SocksRule]) -> Result<(), AllocError>
    ensures { OnOk result (Adds text.old text.new (flat_map socks_lines rules.now)) }
{
    for rule in rules {
        add_socks_rule(alloc, text, rule)?;
    }
    Ok(())
}

fn add_routes(alloc: Global, text: &mut Text, routes: &[Route]) -> Result<(), AllocError>
    ensures { OnOk result (Adds text.old text.new (flat_map route_lines routes.now)) }
{
    for route in routes {
        add_route(alloc, text, route)?;
    }
    Ok(())
}

/// The canonical text of a configuration: the entries at the top, the client rules, the socks rules and the routes, each in
/// its order. An `AllocError` comes where memory is refused.
pub fn write_config(alloc: Global, config: &Config) -> Result<Text, AllocError>
    ensures canonical { IfOk result (λ text. text ≡ canonical_text config.now) }
    ensures read_again { OnOk result (IsReadAgain config.now) }
{
    write_entries(alloc, config.entries())
}

fn write_entries(alloc: Global, entries: &Entries) -> Result<Text, AllocError>
    requires { IsConfig entries.now }
    ensures canonical { IfOk result (λ text. text ≡ canonical_text entries.now) }
    ensures read_again { OnOk result (IsReadAgain entries.now) }
{
    let mut text = Text::make(alloc);
    add_internals(alloc, &mut text, entries.internals.as_slice())?;
    add_externals(&mut text, entries.externals.as_slice())?;
    add_control(alloc, &mut text, entries.control)?;
    add_settings(alloc, &mut text, entries)?;
    add_client_rules(&mut text, entries.client.as_slice())?;
    add_socks_rules(alloc, &mut text, entries.socks.as_slice())?;
    add_routes(alloc, &mut text, entries.routes.as_slice())?;
    Ok(text)
}
