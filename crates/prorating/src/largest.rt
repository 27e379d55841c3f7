// The largest-remainder rule.
ghost use Rattle.std.specs.Prelude.{◌≡◌, ◌<◌, ◌≤◌, true, if◌then◌else◌, nat_lt};
ghost use Rattle.prorating.specs.Laws.{is_shared as is_shared_of};
ghost use Rattle.prorating.specs.Largest.{comes_before, rank as rank_of, largest as largest_of, LargestRemainders};
ghost use Rattle.prorating.specs.OddCents.{largest_keeps};

use crate::parts::SharedPot;
use crate::rule::Rule;
use crate::weights::{PLACES, Weights};
use std::array;

// Whether the remainder at j comes before that at k: it is larger, or equal and of the lower number.
fn comes_before(remainders: &[u64; PLACES], j: usize, k: usize) -> bool
    requires { (j < 48) × (k < 48) }
    ensures { result ≡ comes_before remainders.now j k }
{
    remainders[k] < remainders[j] || (remainders[j] == remainders[k] && j < k)
}

// How many remainders come before the one at k.
fn rank(remainders: &[u64; PLACES], k: usize) -> u64
    requires { k < 48 }
    ensures { result ≡ rank_of remainders.now k }
{
    (0..PLACES)
        .map(|j| u64::from(comes_before(remainders, j, k)))
        .sum::<u64>()
}

// The odd cent of a rank: the lowest ranks get one each, as many as cents are left.
fn odd_cent(rank: u64, left: u64) -> u64
    ensures value { result ≡ (if nat_lt rank left then 1 else 0) }
    ensures small { result ≤ 1 }
{
    u64::from(rank < left)
}

// Every share is rounded down, and the cents left go one each to the largest remainders, of equal ones to the lower number.
#[derive(Clone, Copy)]
pub struct Largest;

impl Rule for Largest {
    ghost shares = { λ _ pot ws. largest_of pot ws };

    ghost long = { λ s. largest_keeps.long };

    ghost nothing = { λ s. largest_keeps.nothing };

    ghost whole = { λ s. largest_keeps.whole };

    ghost near = { λ s. largest_keeps.near };

    ghost weightless = { λ s. largest_keeps.weightless };

    fn prorate(&self, pot: u64, weights: &Weights) -> [u64; PLACES]
        ensures meant { result ≡ largest_of pot weights.now.at }
        ensures fair { is_shared_of pot weights.now.at ≡ true → LargestRemainders pot weights.now.at result }
    {
        let Some(shared) = SharedPot::of(pot, weights) else {
            return [0; PLACES];
        };
        let each = weights.each();
        let floors: [u64; PLACES] = array::from_fn(|k| shared.floor(each[k]));
        let remainders: [u64; PLACES] = array::from_fn(|k| shared.remainder(each[k]));
        let left = pot - floors.iter().sum::<u64>();
        array::from_fn(|k| floors[k] + odd_cent(rank(&remainders, k), left))
    }
}
