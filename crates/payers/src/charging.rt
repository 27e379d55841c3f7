// Charging: a pot's 32 charges, over any base and by any rule.
ghost use Rattle.std.specs.Prelude.{◌≡◌, take, sum};
ghost use Rattle.prorating.specs.Weights.{padded};
ghost use Rattle.payers.specs.Charges.{charges_of, Charged};

use crate::base::{COMPANIES, PayerBase};
use prorating::prorated::prorated;
use prorating::rule::Rule;
use prorating::weights::{PLACES, Weights};
use std::array;

// The weights of a base, that of company 1 first.
pub fn weights_of<B: PayerBase>(base: &B) -> [u64; COMPANIES]
    ensures { result ≡ B.PayerBase.weights base.now }
{
    array::from_fn(|k| base.weight(k as u64 + 1))
}

// The weight list of a base. None is refused, since a base keeps its total within the limit.
fn weight_list<B: PayerBase>(base: &B) -> Weights
    ensures { result.at ≡ padded (B.PayerBase.weights base.now) }
{
    Weights::of(&weights_of(base)).unwrap()
}

// The total of a base's weights.
pub fn total_weight<B: PayerBase>(base: &B) -> u64
    ensures { result ≡ sum (B.PayerBase.weights base.now) }
{
    weight_list(base).total()
}

// The shares of the companies' places.
fn companies_shares(shares: &[u64; PLACES]) -> [u64; COMPANIES]
    ensures { result ≡ take 32 shares.now }
{
    *shares.first_chunk().unwrap()
}

// The charges of a pot, in cents: the rule's shares over the base's weights, that of company 1 first.
pub fn charges<B: PayerBase, R: Rule>(pot: u64, base: &B, rule: &R) -> [u64; COMPANIES]
    ensures meant { result ≡ charges_of (R.Rule.shares rule.now) pot (B.PayerBase.weights base.now) }
    ensures charged { Charged pot (B.PayerBase.weights base.now) result }
{
    companies_shares(&prorated(rule, pot, &weight_list(base)))
}
