// One of the two rules, chosen by its name.
ghost use Rattle.prorating.specs.BuiltIn.{shares_of};
ghost use Rattle.prorating.specs.BuiltInRuleLemmas.{keeps};

use crate::largest::Largest;
use crate::rule::Rule;
use crate::running::Running;
use crate::weights::{PLACES, Weights};

// Kept: an enum, since a script hands the chosen rule on, and a function that hands out a `dyn` is refused.
#[derive(Clone, Copy)]
pub enum BuiltIn {
    Running,
    Largest,
}

impl Rule for BuiltIn {
    ghost shares = { shares_of };

    ghost long = { λ rule. (keeps rule).long };

    ghost nothing = { λ rule. (keeps rule).nothing };

    ghost whole = { λ rule. (keeps rule).whole };

    ghost near = { λ rule. (keeps rule).near };

    ghost weightless = { λ rule. (keeps rule).weightless };

    fn prorate(&self, pot: u64, weights: &Weights) -> [u64; PLACES] {
        match self {
            BuiltIn::Running => Running.prorate(pot, weights),
            BuiltIn::Largest => Largest.prorate(pot, weights),
        }
    }
}
