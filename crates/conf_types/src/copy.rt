//! Copies of a configuration.
ghost use Rattle.std.specs.Prelude.{◌≡◌, IfOk};

use crate::config::Config;
use crate::entries::Entries;
use crate::route::{Route, Via};
use crate::rule::{ClientRule, SocksRule};
use addr_pattern::Name;
use lists::List;
use socks_grammar::Login;
use std::alloc::{AllocError, Global};

impl ClientRule {
    fn copy(&self) -> ClientRule
        ensures { result ≡ self.now }
    {
        ClientRule {
            pass: self.pass,
            from: self.from.copy(),
            to: self.to.copy(),
            max: self.max,
        }
    }
}

fn copy_users(alloc: Global, users: &[Name]) -> Result<List<Name>, AllocError>
    ensures { IfOk result (λ copy. copy ≡ users.now) }
{
    let mut copy = List::make(alloc);
    for user in users {
        copy.push(user.copy())?;
    }
    Ok(copy)
}

impl SocksRule {
    fn copy(&self, alloc: Global) -> Result<SocksRule, AllocError>
        ensures { IfOk result (λ copy. copy ≡ self.now) }
    {
        Ok(SocksRule {
            pass: self.pass,
            from: self.from.copy(),
            to: self.to.copy(),
            connect: self.connect,
            bind: self.bind,
            udpassociate: self.udpassociate,
            bindreply: self.bindreply,
            udpreply: self.udpreply,
            tcp: self.tcp,
            udp: self.udp,
            noauth: self.noauth,
            username: self.username,
            v4: self.v4,
            v5: self.v5,
            users: copy_users(alloc, self.users.as_slice())?,
            max: self.max,
        })
    }
}

fn copy_login(login: &Option<Login>) -> Option<Login>
    ensures { result ≡ login.now }
{
    match login {
        None => None,
        Some(login) => Some(Login {
            name: login.name.copy(),
            password: login.password.copy(),
        }),
    }
}

impl Via {
    fn copy(&self) -> Via
        ensures { result ≡ self.now }
    {
        match self {
            Via::Direct => Via::Direct,
            Via::Proxy { at, version, login } => Via::Proxy {
                at: *at,
                version: *version,
                login: copy_login(login),
            },
        }
    }
}

impl Route {
    fn copy(&self) -> Route
        ensures { result ≡ self.now }
    {
        Route {
            from: self.from.copy(),
            to: self.to.copy(),
            via: self.via.copy(),
        }
    }
}

fn copy_client_rules(alloc: Global, rules: &[ClientRule]) -> Result<List<ClientRule>, AllocError>
    ensures { IfOk result (λ copy. copy ≡ rules.now) }
{
    let mut copy = List::make(alloc);
    for rule in rules {
        copy.push(rule.copy())?;
    }
    Ok(copy)
}

fn copy_socks_rules(alloc: Global, rules: &[SocksRule]) -> Result<List<SocksRule>, AllocError>
    ensures { IfOk result (λ copy. copy ≡ rules.now) }
{
    let mut copy = List::make(alloc);
    for rule in rules {
        copy.push(rule.copy(alloc)?)?;
    }
    Ok(copy)
}

fn copy_routes(alloc: Global, routes: &[Route]) -> Result<List<Route>, AllocError>
    ensures { IfOk result (λ copy. copy ≡ routes.now) }
{
    let mut copy = List::make(alloc);
    for route in routes {
        copy.push(route.copy())?;
    }
    Ok(copy)
}

impl Entries {
    fn copy(&self, alloc: Global) -> Result<Entries, AllocError>
        ensures { IfOk result (λ copy. copy ≡ self.now) }
    {
        let client = copy_client_rules(alloc, self.client.as_slice())?;
        let socks = copy_socks_rules(alloc, self.socks.as_slice())?;
        let routes = copy_routes(alloc, self.routes.as_slice())?;
        Ok(Entries {
            internals: List::from_slice(alloc, self.internals.as_slice())?,
            externals: List::from_slice(alloc, self.externals.as_slice())?,
            control: self.control,
            methods: List::from_slice(alloc, self.methods.as_slice())?,
            negotiate: self.negotiate,
            io: self.io,
            client,
            socks,
            routes,
        })
    }
}

impl Config {
    /// An equal configuration. An `AllocError` comes where memory is refused.
    pub fn copy(&self, alloc: Global) -> Result<Config, AllocError>
        ensures { IfOk result (λ copy. copy ≡ self.now) }
    {
        let entries = self.entries();
        let copy = entries.copy(alloc)?;
        Ok(Config::of_entries(copy))
    }
}
