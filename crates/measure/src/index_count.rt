ghost use Rattle.std.specs.Prelude.{◌≡◌, ◌≤◌};
ghost use Rattle.rule_list.specs.Rules.{is_pass, judge as judge_of};
ghost use Rattle.rule_index.specs.Index.{IsIndexOf};
ghost use Rattle.measure.specs.Passes.{passes_of};

use conf_types::Config;
use rule_index::RuleIndex;
use rule_list::{Facts, Verdict};
use std::alloc::Global;

fn passes(index: &RuleIndex, config: &Config, facts: &Facts) -> bool
    requires { IsIndexOf config.now index.now }
    ensures { result ≡ is_pass (judge_of config.now facts.now) }
{
    matches!(index.judge(config, facts), Verdict::Pass { .. })
}

/// The number of passes of this many judgements by the index.
pub fn count_indexed(index: &RuleIndex, config: &Config, facts: &Facts, count: u32) -> u32
    requires { IsIndexOf config.now index.now }
    ensures { result ≡ passes_of count config.now facts.now }
{
    let mut passed = 0;
    for _ in 0..count {
        if passes(index, config, facts) {
            passed += 1;
        }
    }
    passed
}

/// How many of this many indexes of the configuration were built; the others were refused memory.
pub fn count_built(alloc: Global, config: &Config, count: u32) -> u32
    ensures { result ≤ count }
{
    let mut built = 0;
    for _ in 0..count {
        if RuleIndex::build(alloc, config).is_ok() {
            built += 1;
        }
    }
    built
}
