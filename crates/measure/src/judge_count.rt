ghost use Rattle.std.specs.Prelude.{◌≡◌};
ghost use Rattle.rule_list.specs.Rules.{is_pass, judge as judge_of};
ghost use Rattle.measure.specs.Passes.{passes_of};

use conf_types::Config;
use rule_list::{Facts, Verdict, judge};

fn passes(config: &Config, facts: &Facts) -> bool
    ensures { result ≡ is_pass (judge_of config.now facts.now) }
{
    matches!(judge(config, facts), Verdict::Pass { .. })
}

/// The number of passes of this many judgements.
pub fn count_passes(config: &Config, facts: &Facts, count: u32) -> u32
    ensures { result ≡ passes_of count config.now facts.now }
{
    let mut passed = 0;
    for _ in 0..count {
        if passes(config, facts) {
            passed += 1;
        }
    }
    passed
}
