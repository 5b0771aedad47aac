//! What one statement says.
ghost use Rattle.std.specs.Prelude.{◌≡◌, ◌≢◌, IfErr, IfOk, Some, Ok, Err};
ghost use Rattle.conf_model.specs.Keys.{block_kind, top_key};
ghost use Rattle.conf_model.specs.Settings.{block_of_kind, block_setting, external, internal, listening as listening_of, on_loopback, route_setting, seconds_of, setting_of, top_setting};

use crate::entries::read_entries;
use crate::fault::{ConfFault, ConfKind};
use crate::given::Given;
use crate::keys::{BlockKind, TopKey};
use crate::setting::Setting;
use crate::values;
use addr_pattern::Endpoint;
use conf_text::{Entry, Statement};
use lists::Text;
use std::alloc::Global;

/// An endpoint to listen on, which has a port.
fn listening(endpoint: Option<Endpoint>) -> Option<Endpoint>
    ensures { result ≡ listening_of endpoint }
{
    match endpoint {
        Some(endpoint) if endpoint.port == 0 => None,
        _ => endpoint,
    }
}

fn read_internal(alloc: Global, values: &[Text]) -> Result<Setting, ConfKind>
    ensures ok { IfOk result (λ setting. internal values.now ≡ Ok setting) }
    ensures err { IfErr result (λ kind. kind ≢ ConfKind.Memory → internal values.now ≡ Err kind) }
{
    if values::is_interface(values) {
        return Err(ConfKind::InterfaceRefused);
    }
    let endpoint = values::endpoint(alloc, Some(1080), values)?;
    match listening(endpoint) {
        Some(endpoint) => Ok(Setting::Internal(endpoint)),
        None => Err(ConfKind::BadValue),
    }
}

fn read_external(values: &[Text]) -> Result<Setting, ConfKind>
    ensures { result ≡ external values.now }
{
    if values::is_interface(values) {
        return Err(ConfKind::InterfaceRefused);
    }
    match values::address(values) {
        Some(addr) => Ok(Setting::External(addr)),
        None => Err(ConfKind::BadValue),
    }
}

fn read_control(alloc: Global, values: &[Text]) -> Result<Setting, ConfKind>
    ensures ok { IfOk result (λ setting. top_setting values.now (Some TopKey.Control) ≡ Ok setting) }
    ensures err { IfErr result (λ kind. kind ≢ ConfKind.Memory → top_setting values.now (Some TopKey.Control) ≡ Err kind) }
{
    let endpoint = values::endpoint(alloc, None, values)?;
    let Some(endpoint) = listening(endpoint) else {
        return Err(ConfKind::BadValue);
    };
    if values::is_loopback(endpoint.addr) {
        Ok(Setting::Control(endpoint))
    } else {
        Err(ConfKind::ControlNotLoopback)
    }
}

/// A limit of time, in seconds.
fn read_seconds(values: &[Text]) -> Option<u32>
    ensures { result ≡ seconds_of values.now }
{
    values::number(values, 4_000_000)
}

/// What an entry at the top says.
fn read_top(alloc: Global, key: &[u8], values: &[Text]) -> Result<Setting, ConfKind>
    ensures ok { IfOk result (λ setting. top_setting values.now (top_key key.now) ≡ Ok setting) }
    ensures err { IfErr result (λ kind. kind ≢ ConfKind.Memory → top_setting values.now (top_key key.now) ≡ Err kind) }
{
    let Some(key) = TopKey::read(key) else {
        return Err(ConfKind::UnknownKeyword);
    };
    match key {
        TopKey::Internal => read_internal(alloc, values),
        TopKey::External => read_external(values),
        TopKey::Control => read_control(alloc, values),
        TopKey::Methods => Ok(Setting::Methods(values::methods(alloc, values)?)),
        TopKey::ClientMethods => match values::client_methods_fault(values) {
            Some(kind) => Err(kind),
            None => Ok(Setting::NoEffect),
        },
        TopKey::Negotiate => match read_seconds(values) {
            Some(seconds) => Ok(Setting::Negotiate(seconds)),
            None => Err(ConfKind::BadValue),
        },
        TopKey::Io => match read_seconds(values) {
            Some(seconds) => Ok(Setting::Io(seconds)),
            None => Err(ConfKind::BadValue),
        },
        TopKey::Ignored => {
            if values::is_empty(values) {
                Err(ConfKind::BadValue)
            } else {
                Ok(Setting::NoEffect)
            }
        }
    }
}

/// The rule or the route of a block.
fn make_block(alloc: Global, kind: BlockKind, given: Given) -> Result<Setting, ConfKind>
    ensures { result ≡ block_setting kind given }
{
    match kind {
        BlockKind::Client { pass } => Ok(Setting::Client(given.client_rule(pass))),
        BlockKind::Socks { pass } => Ok(Setting::Socks(given.socks_rule(alloc, pass))),
        BlockKind::Route => make_route(given),
    }
}

fn make_route(given: Given) -> Result<Setting, ConfKind>
    ensures { result ≡ route_setting given given.via }
{
    let Some(hop) = given.via else {
        return Err(ConfKind::BadValue);
    };
    if given.is_kept() {
        Ok(Setting::Route(given.route(hop)))
    } else {
        Ok(Setting::NoEffect)
    }
}

/// What a block says. What is missing in it has the line of its first word.
fn read_block(alloc: Global, line: u32, key: &[u8], entries: &[Entry]) -> Result<Setting, ConfFault>
    ensures ok { IfOk result (λ setting. block_of_kind line entries.now (block_kind key.now) ≡ Ok setting) }
    ensures err { IfErr result (λ fault. fault.kind ≢ ConfKind.Memory → block_of_kind line entries.now (block_kind key.now) ≡ Err fault) }
{
    let Some(kind) = BlockKind::read(key) else {
        return Err(ConfFault {
            line,
            kind: ConfKind::UnknownKeyword,
        });
    };
    let given = read_entries(alloc, kind, entries)?;
    match make_block(alloc, kind, given) {
        Ok(setting) => Ok(setting),
        Err(kind) => Err(ConfFault { line, kind }),
    }
}

/// What a statement says by itself.
pub fn read_setting(alloc: Global, statement: &Statement) -> Result<Setting, ConfFault>
    ensures ok { IfOk result (λ setting. setting_of statement.now ≡ Ok setting) }
    ensures err { IfErr result (λ fault. fault.kind ≢ ConfKind.Memory → setting_of statement.now ≡ Err fault) }
{
    let key = statement.key.as_slice();
    match &statement.block {
        Some(entries) => read_block(alloc, statement.line, key, entries.as_slice()),
        None => match read_top(alloc, key, statement.values.as_slice()) {
            Ok(setting) => Ok(setting),
            Err(kind) => Err(ConfFault {
                line: statement.line,
                kind,
            }),
        },
    }
}
