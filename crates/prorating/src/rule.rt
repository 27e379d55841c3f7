// What a prorating rule is asked, and what it has to keep.
ghost use Rattle.std.specs.Prelude.{◌≡◌, ℕ, List};
ghost use Rattle.prorating.specs.Laws.{Long, Nothing, Whole, EachNear, Weightless, NoRuleOfZeros, NoRuleForOne, is_shared as is_shared_of};

use crate::weights::{LIMIT, PLACES, Weights};

// A way to share a pot of cents over 48 places by their weights.
// Kept: pot and weights are two arguments, since one list of weights serves many pots.
pub trait Rule {
    // What the rule means: for a pot and the weights, one list of shares.
    ghost shares: { Self → ℕ → List ℕ → List ℕ };

    // The shares that the rule means, in cents. Nothing is refused.
    fn prorate(&self, pot: u64, weights: &Weights) -> [u64; PLACES]
        ensures { result ≡ shares self.now pot weights.now.at };

    // There is a share for each place.
    ghost long: { (s : Self) → Long (shares s) };

    // With a total of 0, or a pot above the limit, all shares are 0.
    ghost nothing: { (s : Self) → Nothing (shares s) };

    // Otherwise the shares add up to the pot.
    ghost whole: { (s : Self) → Whole (shares s) };

    // And each is less than one cent away from pot × weight ÷ total.
    ghost near: { (s : Self) → EachNear (shares s) };

    // A place without weight has no share.
    ghost weightless: { (s : Self) → Weightless (shares s) };
}

// Whether a pot is shared at all: it is within the limit, and there is some weight.
pub fn is_shared(pot: u64, weights: &Weights) -> bool
    ensures { result ≡ is_shared_of pot weights.now.at }
{
    pot <= LIMIT && weights.total() > 0
}

// The laws rule out shares that are all 0, and the whole pot for one place. The function does nothing: its contract is the statement.
pub fn laws_rule_out() -> u8
    ensures zeros { NoRuleOfZeros }
    ensures one { NoRuleForOne }
{
    0
}
