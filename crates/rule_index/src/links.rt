ghost use Rattle.std.specs.Prelude.{◌≡◌, ◌<◌, ◌≤◌, ◌+◌, ◌*◌, length, replicate, IfOk};
ghost use Rattle.rule_index.specs.Index.{IsLinked};
ghost use Rattle.rule_index.specs.Search.{MatchesAt, NoneBefore};

use crate::class::slot_of;
use crate::rule::matches_socks;
use conf_types::SocksRule;
use lists::List;
use rule_list::Facts;
use std::alloc::{AllocError, Global};

/// The rules of each slot, in rising order: `heads` has the place of the first rule of a slot, and `nexts` that of the next rule of the
/// same slot behind each rule. The number of rules stands where there is none.
#[derive(Drop)]
pub struct Links {
    pub heads: List<u32>,
    pub nexts: List<u32>,
}

impl Links {
    /// Twice as many slots as rules, and one.
    pub fn of_rules(alloc: Global, rules: &[SocksRule]) -> Result<Links, AllocError>
        requires { length rules.now ≤ 4096 }
        ensures { IfOk result (λ links. IsLinked rules.now links.heads links.nexts) }
    {
        let mut heads = vec![in alloc; rules.len() as u32; 2 * rules.len() + 1]?;
        let mut nexts = vec![in alloc; 0u32; rules.len()]?;
        link(rules, &mut heads, &mut nexts);
        Ok(Links {
            heads: List::from_vec(heads),
            nexts: List::from_vec(nexts),
        })
    }

    /// The place of the first rule of the slot before `best` that matches, or `best`.
    pub fn least(&self, rules: &[SocksRule], facts: &Facts, slot: u32, best: usize) -> usize
        requires linked { IsLinked rules.now self.now.heads self.now.nexts }
        requires slot { slot < length self.now.heads }
        requires within { best ≤ length rules.now }
        requires sound { MatchesAt rules.now facts.now best }
        ensures below { result ≤ best }
        ensures sound { MatchesAt rules.now facts.now result }
        ensures none { NoneBefore rules.now facts.now (length self.now.heads) slot result }
    {
        let heads = self.heads.as_slice();
        let nexts = self.nexts.as_slice();
        let mut at = heads[slot as usize] as usize;
        while at < best {
            if matches_socks(&rules[at], facts) {
                return at;
            }
            at = nexts[at] as usize;
        }
        best
    }
}

/// Links the rules from the last to the first.
fn link(rules: &[SocksRule], heads: &mut [u32], nexts: &mut [u32])
    requires few { length rules.now ≤ 4096 }
    requires heads { heads.old ≡ replicate (2 * length rules.now + 1) (length rules.now) }
    requires nexts { length nexts.old ≡ length rules.now }
    ensures { IsLinked rules.now heads.new nexts.new }
{
    let mut at = rules.len();
    while at > 0 {
        at -= 1;
        let slot = slot_of(&rules[at].to, heads.len() as u32) as usize;
        nexts[at] = heads[slot];
        heads[slot] = at as u32;
    }
}
