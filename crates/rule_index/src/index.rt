ghost use Rattle.std.specs.Prelude.{◌≡◌, ◌≤◌, ℕ, true, length, IfOk, OnOk};
ghost use Rattle.std.specs.List.{list_any, position_or_len};
ghost use Rattle.rule_list.specs.Rules.{first_socks as first_socks_of, judge as judge_of, judge_after_client as judge_after_client_of, judge_socks as judge_socks_of, numbered, socks_passes as socks_passes_of, socks_rule_matches};
ghost use Rattle.rule_index.specs.declared.class.Class.{Class};
ghost use Rattle.rule_index.specs.Classes.{class_eq};
ghost use Rattle.rule_index.specs.Index.{AreClassesOf, IsIndexOf};

use crate::class::{Class, lists_class};
use crate::links::Links;
use crate::rule::lists_method;
use conf_types::{Config, SocksRule};
use lists::{List, Memory};
use rule_list::{Facts, Verdict, client_passes, first_client};
use std::alloc::{AllocError, Global};

/// The socks rules of a configuration by what of a destination they look at: the first bits of its address, and one port or
/// any. A rule for names or for every address is looked at for every destination. It takes 12 bytes for each rule, and 3 for each class, of
/// which there are at most 326.
#[derive(Drop)]
pub struct RuleIndex {
    classes: List<Class>,
    links: Links,
}

impl RuleIndex {
    /// The index of a configuration. `Memory` comes where memory is refused.
    pub fn build(alloc: Global, config: &Config) -> Result<RuleIndex, Memory>
        ensures { IfOk result (λ index. IsIndexOf config.now index) }
    {
        match RuleIndex::of_rules(alloc, config) {
            Ok(index) => Ok(index),
            Err(_) => Err(Memory),
        }
    }

    fn of_rules(alloc: Global, config: &Config) -> Result<RuleIndex, AllocError>
        ensures { IfOk result (λ index. IsIndexOf config.now index) }
    {
        let rules = config.entries().socks.as_slice();
        let classes = classes_of(alloc, rules)?;
        let links = Links::of_rules(alloc, rules)?;
        Ok(RuleIndex { classes, links })
    }

    /// What `rule_list::judge` says of these facts, over the configuration from which the index was built. It takes no memory.
    pub fn judge(&self, config: &Config, facts: &Facts) -> Verdict
        requires { IsIndexOf config.now self.now }
        ensures { result ≡ judge_of config.now facts.now }
    {
        let Some(client) = first_client(config, &facts.peer, &facts.local) else {
            return Verdict::ClientNone;
        };
        if client_passes(config, Some(client)) {
            self.judge_after_client(config, facts, client)
        } else {
            Verdict::ClientBlock { client }
        }
    }

    fn judge_after_client(&self, config: &Config, facts: &Facts, client: u32) -> Verdict
        requires { IsIndexOf config.now self.now }
        ensures { result ≡ judge_after_client_of config.now facts.now client }
    {
        if lists_method(config.entries().methods.as_slice(), facts.method) {
            judge_socks(config, client, self.first_socks(config, facts))
        } else {
            Verdict::SocksNone { client }
        }
    }

    fn first_socks(&self, config: &Config, facts: &Facts) -> Option<u32>
        requires { IsIndexOf config.now self.now }
        ensures { result ≡ first_socks_of config.now facts.now }
    {
        let rules = config.entries().socks.as_slice();
        let place = self.place_of_first(config, facts);
        if place < rules.len() {
            Some(place as u32 + 1)
        } else {
            None
        }
    }

    /// The place of the first socks rule that matches, or the number of rules.
    fn place_of_first(&self, config: &Config, facts: &Facts) -> usize
        requires { IsIndexOf config.now self.now }
        ensures { result ≡ position_or_len (socks_rule_matches facts.now) config.now.socks }
    {
        let rules = config.entries().socks.as_slice();
        let slots = self.links.heads.len() as u32;
        let mut best = rules.len();
        for class in self.classes.as_slice() {
            let slot = class.slot(&facts.to.addr, facts.to.port, slots);
            best = self.links.least(rules, facts, slot, best);
        }
        best
    }
}

/// Adds the class, unless it is there.
fn add_class(classes: &mut List<Class>, class: Class) -> Result<(), AllocError>
    ensures added { OnOk result (list_any (class_eq class) classes.new ≡ true) }
    ensures kept { OnOk result ((other : Class) → list_any (class_eq other) classes.old ≡ true → list_any (class_eq other) classes.new ≡ true) }
{
    if lists_class(classes.as_slice(), class) {
        return Ok(());
    }
    classes.push(class)
}

fn classes_of(alloc: Global, rules: &[SocksRule]) -> Result<List<Class>, AllocError>
    ensures { IfOk result (λ classes. AreClassesOf rules.now classes) }
{
    let mut classes = List::make(alloc);
    for rule in rules {
        add_class(&mut classes, Class::of(&rule.to))?;
    }
    Ok(classes)
}

fn socks_passes(config: &Config, number: u32) -> bool
    ensures { result ≡ socks_passes_of (numbered config.now.socks number) }
{
    if number == 0 {
        return false;
    }
    match config.entries().socks.get(number as usize - 1) {
        None => false,
        Some(rule) => rule.pass,
    }
}

fn judge_socks(config: &Config, client: u32, rule: Option<u32>) -> Verdict
    ensures { result ≡ judge_socks_of config.now client rule }
{
    match rule {
        None => Verdict::SocksNone { client },
        Some(socks) => {
            if socks_passes(config, socks) {
                Verdict::Pass { client, socks }
            } else {
                Verdict::SocksBlock { client, socks }
            }
        },
    }
}
