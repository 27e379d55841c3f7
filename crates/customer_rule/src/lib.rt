// An example of a customer's own rule: pots up to a threshold by the running rule, larger ones by the largest remainders.

#![tactic(auto)]

ghost use Rattle.customer_rule.specs.Mixed.{mixed, mixed_keeps};

use prorating::largest::Largest;
use prorating::rule::Rule;
use prorating::running::Running;
use prorating::weights::{PLACES, Weights};

#[cfg(test)]
mod tests;

#[derive(Clone, Copy)]
pub struct Mixed {
    pub threshold: u64,
}

impl Rule for Mixed {
    ghost shares = { λ rule. mixed rule.threshold };

    ghost long = { λ rule. (mixed_keeps rule.threshold).long };

    ghost nothing = { λ rule. (mixed_keeps rule.threshold).nothing };

    ghost whole = { λ rule. (mixed_keeps rule.threshold).whole };

    ghost near = { λ rule. (mixed_keeps rule.threshold).near };

    ghost weightless = { λ rule. (mixed_keeps rule.threshold).weightless };

    fn prorate(&self, pot: u64, weights: &Weights) -> [u64; PLACES] {
        if pot <= self.threshold {
            Running.prorate(pot, weights)
        } else {
            Largest.prorate(pot, weights)
        }
    }
}
