//! The entries of a block.
ghost use Rattle.std.specs.Prelude.{◌≡◌, ◌≢◌, IfErr, IfOk, OnOk, Ok, Err};
ghost use Rattle.conf_model.specs.Keys.{entry_key};
ghost use Rattle.conf_model.specs.Blocks.{entries_onto, entry_of_key, given_by, is_given as is_given_of, nothing_given};

use crate::fault::{ConfFault, ConfKind};
use crate::given::Given;
use crate::keys::{BlockKind, EntryKey};
use crate::values;
use conf_text::Entry;
use lists::Text;
use std::alloc::Global;

impl Given {
    /// What no entries say.
    pub fn nothing() -> Given
        ensures { result ≡ nothing_given }
    {
        Given {
            from: None,
            to: None,
            log: false,
            clientmethod: false,
            max: None,
            commands: None,
            protocols: None,
            methods: None,
            users: None,
            versions: None,
            via: None,
            login: None,
        }
    }

    /// Whether an entry of this key came before.
    fn is_given(&self, key: EntryKey) -> bool
        ensures { result ≡ is_given_of key self.now }
    {
        match key {
            EntryKey::From => self.from.is_some(),
            EntryKey::To => self.to.is_some(),
            EntryKey::Log => self.log,
            EntryKey::ClientMethods => self.clientmethod,
            EntryKey::Max => self.max.is_some(),
            EntryKey::Commands => self.commands.is_some(),
            EntryKey::Protocols => self.protocols.is_some(),
            EntryKey::Methods => self.methods.is_some(),
            EntryKey::Users => self.users.is_some(),
            EntryKey::Versions => self.versions.is_some(),
            EntryKey::Via => self.via.is_some(),
            EntryKey::Login => self.login.is_some(),
        }
    }

    /// Takes up what an entry says.
    fn take(&mut self, alloc: Global, key: EntryKey, values: &[Text]) -> Result<(), ConfKind>
        ensures ok { OnOk result (given_by key values.now self.old ≡ Ok self.new) }
        ensures err { IfErr result (λ kind. kind ≢ ConfKind.Memory → given_by key values.now self.old ≡ Err kind) }
    {
        match key {
            EntryKey::From => {
                let from = values::read_pattern(alloc, values)?;
                self.from = Some(from.ok_or(ConfKind::BadValue)?);
            }
            EntryKey::To => {
                let to = values::read_pattern(alloc, values)?;
                self.to = Some(to.ok_or(ConfKind::BadValue)?);
            }
            EntryKey::Log => self.log = true,
            EntryKey::ClientMethods => {
                if let Some(kind) = values::client_methods_fault(values) {
                    return Err(kind);
                }
                self.clientmethod = true;
            }
            EntryKey::Max => {
                let max = values::number(values, 4_294_967_295);
                self.max = Some(max.ok_or(ConfKind::BadValue)?);
            }
            EntryKey::Commands => {
                let commands = values::commands(values);
                self.commands = Some(commands.ok_or(ConfKind::BadValue)?);
            }
            EntryKey::Protocols => {
                let protocols = values::protocols(values);
                self.protocols = Some(protocols.ok_or(ConfKind::BadValue)?);
            }
            EntryKey::Methods => self.methods = Some(values::rule_methods(values)?),
            EntryKey::Users => {
                let users = values::users(alloc, values)?;
                self.users = Some(users.ok_or(ConfKind::BadValue)?);
            }
            EntryKey::Versions => {
                let versions = values::versions(values);
                self.versions = Some(versions.ok_or(ConfKind::BadValue)?);
            }
            EntryKey::Via => {
                let via = values::hop(alloc, values)?;
                self.via = Some(via.ok_or(ConfKind::BadValue)?);
            }
            EntryKey::Login => {
                let login = values::login(values);
                self.login = Some(login.ok_or(ConfKind::BadValue)?);
            }
        }
        Ok(())
    }
}

/// Takes up an entry of a block of this kind.
fn take_entry(
    alloc: Global,
    kind: BlockKind,
    given: &mut Given,
    key: &[u8],
    values: &[Text],
) -> Result<(), ConfKind>
    ensures ok { OnOk result (entry_of_key kind given.old values.now (entry_key key.now) ≡ Ok given.new) }
    ensures err { IfErr result (λ k. k ≢ ConfKind.Memory → entry_of_key kind given.old values.now (entry_key key.now) ≡ Err k) }
{
    let Some(key) = EntryKey::read(key) else {
        return Err(ConfKind::UnknownKeyword);
    };
    if !kind.allows(key) {
        return Err(ConfKind::UnknownKeyword);
    }
    if given.is_given(key) {
        return Err(ConfKind::BadValue);
    }
    given.take(alloc, key, values)
}

/// What the entries of a block say.
pub fn read_entries(alloc: Global, kind: BlockKind, entries: &[Entry]) -> Result<Given, ConfFault>
    ensures ok { IfOk result (λ given. entries_onto kind nothing_given entries.now ≡ Ok given) }
    ensures err { IfErr result (λ fault. fault.kind ≢ ConfKind.Memory → entries_onto kind nothing_given entries.now ≡ Err fault) }
{
    let mut given = Given::nothing();
    for entry in entries {
        let taken = take_entry(
            alloc,
            kind,
            &mut given,
            entry.key.as_slice(),
            entry.values.as_slice(),
        );
        if let Err(kind) = taken {
            return Err(ConfFault {
                line: entry.line,
                kind,
            });
        }
    }
    Ok(given)
}
