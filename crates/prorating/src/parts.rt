// A pot that is shared: a weight's part of it, and what the division leaves.
ghost use Rattle.std.specs.Prelude.{◌≡◌, ◌*◌, ◌/◌, ◌%◌, ◌<◌, ◌≤◌, true, false, sum, MatchOption};
ghost use Rattle.prorating.specs.Weights.{limit};
ghost use Rattle.prorating.specs.Laws.{is_shared as is_shared_of};

use crate::rule::is_shared;
use crate::weights::Weights;

// A pot with the total of the weights that it is shared by. Both are within the limit, and there is some weight.
#[derive(Clone, Copy)]
pub(crate) struct SharedPot {
    pot: u64,
    total: u64,
    ghost small: { pot ≤ limit },
    ghost some: { 0 < total },
    ghost light: { total ≤ limit },
}

impl SharedPot {
    // None where the pot is not shared.
    pub(crate) fn of(pot: u64, weights: &Weights) -> Option<SharedPot>
        ensures { MatchOption result (is_shared_of pot weights.now.at ≡ false) (λ shared. (is_shared_of pot weights.now.at ≡ true) × (shared.pot ≡ pot) × (shared.total ≡ sum weights.now.at)) }
    {
        if !is_shared(pot, weights) {
            return None;
        }
        Some(SharedPot {
            pot,
            total: weights.total(),
        })
    }

    // pot × weight, which fits 64 bits.
    // Kept: the weight's bound stands here and at the two that call this; a type of a weight with its total would be made for each of 48 weights.
    fn product(&self, weight: u64) -> u64
        requires { weight ≤ self.now.total }
        ensures { result ≡ self.now.pot * weight }
    {
        self.pot * weight
    }

    // pot × weight ÷ total, rounded down.
    pub(crate) fn floor(&self, weight: u64) -> u64
        requires { weight ≤ self.now.total }
        ensures { result ≡ self.now.pot * weight / self.now.total }
    {
        self.product(weight) / self.total
    }

    // What that division leaves.
    pub(crate) fn remainder(&self, weight: u64) -> u64
        requires { weight ≤ self.now.total }
        ensures { result ≡ self.now.pot * weight % self.now.total }
    {
        self.product(weight) % self.total
    }
}
