//! A configuration from its text.
ghost use Rattle.std.specs.Prelude.{◌≡◌, ◌≢◌, IfErr, IfOk, OnOk, Some, None, Ok, Err};
ghost use Rattle.conf_types.specs.Kept.{IsConfig};
ghost use Rattle.conf_model.specs.Reads.{OnConfig};
ghost use Rattle.conf_model.specs.Taking.{IsAdded, IsTaken, fault_of_text};
ghost use Rattle.conf_model.specs.Settings.{config_of, default as default_entries, set as set_of, statement_onto, statements_onto};

use crate::fault::{ConfFault, ConfKind};
use crate::setting::Setting;
use crate::statement::read_setting;
use conf_text::{Statement, TextFault, read_statements};
use conf_types::{Config, Entries};
use lists::List;
use socks_grammar::Method;
use std::alloc::{AllocError, Global};

const INTERNALS: usize = 16;

const EXTERNALS: usize = 16;

const RULES: usize = 4096;

const ROUTES: usize = 256;

/// Adds an item to a list that has fewer than the limit, and says whether it did.
fn add<T: Drop>(items: &mut List<T>, limit: usize, item: T) -> Result<bool, AllocError>
    ensures { IfOk result (λ added. IsAdded limit items.old item items.new added) }
{
    if items.len() >= limit {
        return Ok(false);
    }
    items.push(item)?;
    Ok(true)
}

/// The entries of no statements.
fn unset(alloc: Global) -> Result<Entries, AllocError>
    ensures { IfOk result (λ entries. entries ≡ default_entries) }
{
    let mut methods = List::make(alloc);
    methods.push(Method::NoAuth)?;
    Ok(Entries {
        internals: List::make(alloc),
        externals: List::make(alloc),
        control: None,
        methods,
        negotiate: 30,
        io: 0,
        client: List::make(alloc),
        socks: List::make(alloc),
        routes: List::make(alloc),
    })
}

/// Takes up a setting, and says whether it did: one beyond a limit isn't taken.
fn set(entries: &mut Entries, setting: Setting) -> Result<bool, AllocError>
    ensures { IfOk result (λ taken. IsTaken (set_of entries.old setting) entries.new taken) }
{
    match setting {
        Setting::Internal(endpoint) => add(&mut entries.internals, INTERNALS, endpoint),
        Setting::External(addr) => add(&mut entries.externals, EXTERNALS, addr),
        Setting::Control(endpoint) => {
            entries.control = Some(endpoint);
            Ok(true)
        }
        Setting::Methods(methods) => {
            entries.methods = methods;
            Ok(true)
        }
        Setting::Negotiate(seconds) => {
            entries.negotiate = seconds;
            Ok(true)
        }
        Setting::Io(seconds) => {
            entries.io = seconds;
            Ok(true)
        }
        Setting::Client(rule) => add(&mut entries.client, RULES, rule),
        Setting::Socks(rule) => add(&mut entries.socks, RULES, rule),
        Setting::Route(route) => add(&mut entries.routes, ROUTES, route),
        Setting::NoEffect => Ok(true),
    }
}

/// Takes up what a statement says.
fn take(alloc: Global, entries: &mut Entries, statement: &Statement) -> Result<(), ConfFault>
    ensures ok { OnOk result (statement_onto entries.old statement.now ≡ Ok entries.new) }
    ensures err { IfErr result (λ fault. fault.kind ≢ ConfKind.Memory → statement_onto entries.old statement.now ≡ Err fault) }
{
    let setting = read_setting(alloc, statement)?;
    if set(entries, setting)? {
        Ok(())
    } else {
        Err(ConfFault {
            line: statement.line,
            kind: ConfKind::TooMany,
        })
    }
}

/// What statements say, one after the other.
fn of_statements(alloc: Global, statements: &[Statement]) -> Result<Entries, ConfFault>
    ensures ok { IfOk result (λ entries. config_of statements.now ≡ Ok entries) }
    ensures err { IfErr result (λ fault. fault.kind ≢ ConfKind.Memory → config_of statements.now ≡ Err fault) }
{
    let mut entries = unset(alloc)?;
    for statement in statements {
        take(alloc, &mut entries, statement)?;
    }
    if entries.internals.len() == 0 {
        return Err(ConfFault {
            line: 0,
            kind: ConfKind::MissingInternal,
        });
    }
    Ok(entries)
}

/// The entries that a text says.
fn read_entries(alloc: Global, text: &[u8]) -> Result<Entries, ConfFault>
    ensures read { OnConfig text.now result }
    ensures kept { IfOk result IsConfig }
{
    let statements = match read_statements(alloc, text) {
        Ok(statements) => statements,
        Err(fault) => return Err(text_fault(fault)),
    };
    of_statements(alloc, statements.as_slice())
}

/// The configuration that a text is. A fault is the text's first: those of its statements come before those of what
/// they say, and these in the order of the text; a missing `internal` is the last.
pub fn read_config(alloc: Global, text: &[u8]) -> Result<Config, ConfFault>
    ensures { OnConfig text.now result }
{
    match read_entries(alloc, text) {
        Ok(entries) => Ok(Config::of_entries(entries)),
        Err(fault) => Err(fault),
    }
}

/// The fault of a configuration whose text isn't made of statements.
fn text_fault(fault: TextFault) -> ConfFault
    ensures { result ≡ fault_of_text fault }
{
    let line = match fault {
        TextFault::NotAscii(line) => line,
        TextFault::NoColon(line) => line,
        TextFault::UnclosedBlock(line) => line,
        TextFault::StrayBrace(line) => line,
        TextFault::TooLong => 0,
        TextFault::Memory => {
            return ConfFault {
                line: 0,
                kind: ConfKind::Memory,
            };
        }
    };
    ConfFault {
        line,
        kind: ConfKind::Text(fault),
    }
}
