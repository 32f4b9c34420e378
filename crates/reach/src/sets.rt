// Sets of states as 64-bit numbers.
ghost use Rattle.std.specs.Prelude.{◌≡◌};
ghost use Rattle.rule.specs.Sets.{has, including};

use rule::{Rule, StateNo};

// Whether s is a member. No set has a state past 63.
pub fn contains(set: u64, s: StateNo) -> bool
    ensures { result ≡ has set s.0 }
{
    let i = s.0;
    i < Rule::STATES && (set >> i) % 2 == 1
}

// The set with s, or the set itself where s is past 63.
#[tactic(auto, using(rule::proofs::SetLaws::or_including, rule::proofs::SetLaws::including_past))]
pub fn insert(set: u64, s: StateNo) -> u64
    ensures { result ≡ including set s.0 }
{
    let i = s.0;
    if i < Rule::STATES {
        set | (1u64 << i)
    } else {
        set
    }
}
