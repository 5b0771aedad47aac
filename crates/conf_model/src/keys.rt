//! The keys of a configuration.
ghost use Rattle.std.specs.Prelude.{◌≡◌};
ghost use Rattle.conf_model.specs.Keys.{allows as allows_of, block_kind as block_kind_of, client_allows as client_allows_of, entry_key as entry_key_of, is_ignored as is_ignored_of, is_methods as is_methods_of, route_allows as route_allows_of, socks_allows as socks_allows_of, top_key as top_key_of};

use addr_pattern::is_word;

/// A key at the top.
#[derive(Clone, Copy)]
pub enum TopKey {
    Internal,
    External,
    Control,
    Methods,
    ClientMethods,
    Negotiate,
    Io,
    /// One that is read and has no effect.
    Ignored,
}

/// A kind of block.
#[derive(Clone, Copy)]
pub enum BlockKind {
    Client { pass: bool },
    Socks { pass: bool },
    Route,
}

/// A key in a block.
#[derive(Clone, Copy)]
pub enum EntryKey {
    From,
    To,
    Log,
    ClientMethods,
    Max,
    Commands,
    Protocols,
    Methods,
    Users,
    Versions,
    Via,
    Login,
}

fn is_ignored(text: &[u8]) -> bool
    ensures { result ≡ is_ignored_of text.now }
{
    is_word(text, b"logoutput")
        || is_word(text, b"errorlog")
        || is_word(text, b"user.privileged")
        || is_word(text, b"user.unprivileged")
        || is_word(text, b"user.notprivileged")
        || is_word(text, b"user.libwrap")
}

fn is_methods(text: &[u8]) -> bool
    ensures { result ≡ is_methods_of text.now }
{
    is_word(text, b"socksmethod") || is_word(text, b"method")
}

impl TopKey {
    pub fn read(text: &[u8]) -> Option<TopKey>
        ensures { result ≡ top_key_of text.now }
    {
        if is_word(text, b"internal") {
            return Some(TopKey::Internal);
        }
        if is_word(text, b"external") {
            return Some(TopKey::External);
        }
        if is_word(text, b"control") {
            return Some(TopKey::Control);
        }
        if is_methods(text) {
            return Some(TopKey::Methods);
        }
        if is_word(text, b"clientmethod") {
            return Some(TopKey::ClientMethods);
        }
        if is_word(text, b"timeout.negotiate") {
            return Some(TopKey::Negotiate);
        }
        if is_word(text, b"timeout.io") {
            return Some(TopKey::Io);
        }
        if is_ignored(text) {
            return Some(TopKey::Ignored);
        }
        None
    }
}

impl BlockKind {
    pub fn read(text: &[u8]) -> Option<BlockKind>
        ensures { result ≡ block_kind_of text.now }
    {
        if is_word(text, b"client pass") {
            return Some(BlockKind::Client { pass: true });
        }
        if is_word(text, b"client block") {
            return Some(BlockKind::Client { pass: false });
        }
        if is_word(text, b"socks pass") || is_word(text, b"pass") {
            return Some(BlockKind::Socks { pass: true });
        }
        if is_word(text, b"socks block") || is_word(text, b"block") {
            return Some(BlockKind::Socks { pass: false });
        }
        if is_word(text, b"route") {
            return Some(BlockKind::Route);
        }
        None
    }

    /// Whether the entry may stand in such a block.
    pub fn allows(self, key: EntryKey) -> bool
        ensures { result ≡ allows_of self key }
    {
        match self {
            BlockKind::Client { .. } => client_allows(key),
            BlockKind::Socks { .. } => socks_allows(key),
            BlockKind::Route => route_allows(key),
        }
    }
}

fn client_allows(key: EntryKey) -> bool
    ensures { result ≡ client_allows_of key }
{
    match key {
        EntryKey::From | EntryKey::To | EntryKey::Log => true,
        EntryKey::ClientMethods | EntryKey::Max => true,
        _ => false,
    }
}

fn socks_allows(key: EntryKey) -> bool
    ensures { result ≡ socks_allows_of key }
{
    match key {
        EntryKey::ClientMethods | EntryKey::Via | EntryKey::Login => false,
        _ => true,
    }
}

fn route_allows(key: EntryKey) -> bool
    ensures { result ≡ route_allows_of key }
{
    match key {
        EntryKey::ClientMethods | EntryKey::Max | EntryKey::Users => false,
        _ => true,
    }
}

impl EntryKey {
    pub fn read(text: &[u8]) -> Option<EntryKey>
        ensures { result ≡ entry_key_of text.now }
    {
        if is_word(text, b"from") {
            return Some(EntryKey::From);
        }
        if is_word(text, b"to") {
            return Some(EntryKey::To);
        }
        if is_word(text, b"log") {
            return Some(EntryKey::Log);
        }
        if is_word(text, b"clientmethod") {
            return Some(EntryKey::ClientMethods);
        }
        if is_word(text, b"session.max") {
            return Some(EntryKey::Max);
        }
        if is_word(text, b"command") {
            return Some(EntryKey::Commands);
        }
        if is_word(text, b"protocol") {
            return Some(EntryKey::Protocols);
        }
        if is_methods(text) {
            return Some(EntryKey::Methods);
        }
        if is_word(text, b"user") {
            return Some(EntryKey::Users);
        }
        if is_word(text, b"proxyprotocol") {
            return Some(EntryKey::Versions);
        }
        if is_word(text, b"via") {
            return Some(EntryKey::Via);
        }
        if is_word(text, b"login") {
            return Some(EntryKey::Login);
        }
        None
    }
}
