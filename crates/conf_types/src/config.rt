ghost use Rattle.std.specs.Prelude.{◌≡◌, ◌≤◌, length, IfOk};
ghost use Rattle.conf_types.specs.Closed.{closed_at};
ghost use Rattle.conf_types.specs.Kept.{IsConfig, IsListener};

use crate::entries::Entries;
use addr_pattern::Endpoint;
use lists::List;
use socks_grammar::Method;
use std::alloc::{AllocError, Global};
use std::marker::Model;

/// A configuration: entries that a text can say, within all limits. Contracts see its entries.
#[derive(Drop)]
pub struct Config {
    entries: Entries,
}

impl Model for Config {
    ghost use Rattle.conf_types.specs.declared.entries.Entries.{Entries as Said};
    ghost use Rattle.conf_types.specs.Kept.{IsConfig};

    ghost Value = { Said };

    ghost view = { λ c. c.entries };

    ghost invariant = { λ c. IsConfig c.entries };
}

impl Config {
    /// The configuration of these entries.
    pub fn of_entries(entries: Entries) -> Config
        requires { IsConfig entries }
        ensures { result ≡ entries }
    {
        Config { entries }
    }

    /// A configuration without rules: it listens at one endpoint, and lets nobody in.
    pub fn closed(alloc: Global, at: Endpoint) -> Result<Config, AllocError>
        requires { IsListener at }
        ensures { IfOk result (λ config. config ≡ closed_at at) }
    {
        let mut internals = List::make(alloc);
        internals.push(at)?;
        let mut methods = List::make(alloc);
        methods.push(Method::NoAuth)?;
        Ok(Config {
            entries: Entries {
                internals,
                externals: List::make(alloc),
                control: None,
                methods,
                negotiate: 30,
                io: 0,
                client: List::make(alloc),
                socks: List::make(alloc),
                routes: List::make(alloc),
            },
        })
    }

    /// Its entries.
    pub fn entries(&self) -> &Entries
        ensures same { result.now ≡ self.now }
        ensures kept { IsConfig self.now }
        ensures few_client { length self.now.client ≤ 4096 }
        ensures few_socks { length self.now.socks ≤ 4096 }
        ensures few_routes { length self.now.routes ≤ 256 }
    {
        &self.entries
    }
}
