// Prorating by any rule, with what a caller may conclude from the laws alone.
ghost use Rattle.std.specs.Prelude.{◌≡◌, ◌≤◌, sum};
ghost use Rattle.prorating.specs.Laws.{amount_shared, Within};

use crate::rule::Rule;
use crate::weights::{PLACES, Weights};

// The shares of a pot by a rule. They add up to the pot, or to 0 where nothing is shared; where the pot is at most the total, no share
// exceeds its weight; and a pot equal to the total gives every weight back.
pub fn prorated<R: Rule>(rule: &R, pot: u64, weights: &Weights) -> [u64; PLACES]
    ensures meant { result ≡ R.Rule.shares rule.now pot weights.now.at }
    ensures whole { sum result ≡ amount_shared pot weights.now.at }
    ensures within { pot ≤ sum weights.now.at → Within result weights.now.at }
    ensures back { pot ≡ sum weights.now.at → result ≡ weights.now.at }
{
    rule.prorate(pot, weights)
}
