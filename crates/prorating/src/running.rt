// The running rule.
ghost use Rattle.std.specs.Prelude.{◌≡◌, true};
ghost use Rattle.prorating.specs.Laws.{is_shared as is_shared_of};
ghost use Rattle.prorating.specs.Running.{running, RunningSums};
ghost use Rattle.prorating.specs.PartsTo.{running_keeps};

use crate::parts::SharedPot;
use crate::rule::Rule;
use crate::weights::{PLACES, Weights};

// A place gets the difference of two parts of the pot, each rounded down: that of the places up to it, and that of the places before it.
#[derive(Clone, Copy)]
pub struct Running;

impl Rule for Running {
    ghost shares = { λ _ pot ws. running pot ws };

    ghost long = { λ s. running_keeps.long };

    ghost nothing = { λ s. running_keeps.nothing };

    ghost whole = { λ s. running_keeps.whole };

    ghost near = { λ s. running_keeps.near };

    ghost weightless = { λ s. running_keeps.weightless };

    fn prorate(&self, pot: u64, weights: &Weights) -> [u64; PLACES]
        ensures meant { result ≡ running pot weights.now.at }
        ensures sums { is_shared_of pot weights.now.at ≡ true → RunningSums pot weights.now.at result }
    {
        let Some(shared) = SharedPot::of(pot, weights) else {
            return [0; PLACES];
        };
        // The weight of each place, and then its share.
        let mut shares = *weights.each();
        let mut weight = 0;
        let mut given = 0;
        for share in shares.iter_mut() {
            weight += *share;
            let part = shared.floor(weight);
            *share = part - given;
            given = part;
        }
        shares
    }
}
