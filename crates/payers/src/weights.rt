// What our bases weigh: the bases over the meters and the zone's hour, held as a list, and each base under replacement.
ghost use Rattle.std.specs.Prelude.{◌≡◌, ◌<◌, ◌≤◌, length, replicate, sum, MatchOption};
ghost use Rattle.prorating.specs.Weights.{limit};
ghost use Rattle.payers.specs.Replacements.{Moves};

use crate::base::{COMPANIES, PayerBase};
use crate::charging::weights_of;
use crate::replacement::{Replacement, Replacements};
use numbered::entry_of;
use prorating::weights::LIMIT;

// The weight of each company, held as a list. The type keeps the total within the limit of a weight list.
#[derive(Clone, Copy)]
pub struct CompanyWeights {
    pub(crate) at: [u64; COMPANIES],
    ghost long: { length at ≡ 32 },
    ghost light: { sum at ≤ limit },
}

impl CompanyWeights {
    // The base in which nobody weighs anything.
    pub fn none() -> CompanyWeights
        ensures { result.at ≡ replicate 32 0 }
    {
        CompanyWeights { at: [0; COMPANIES] }
    }

    // The base of these weights, that of company 1 first; None where their total is above the limit of a weight list.
    pub fn of(weights: &[u64; COMPANIES]) -> Option<CompanyWeights>
        ensures { MatchOption result (limit < sum weights.now) (λ base. base.at ≡ weights.now) }
    {
        let total = weights
            .iter()
            .fold(0_u64, |total, weight| total.saturating_add(*weight));
        // Kept: tried `then`; inside a closure the total's bound, which the type keeps, stayed open.
        if total > LIMIT {
            return None;
        }
        Some(CompanyWeights { at: *weights })
    }

    // What each company weighs, as a list that a caller gets: that of company 1 first.
    pub fn list(&self) -> [u64; COMPANIES]
        ensures { result ≡ self.now.at }
    {
        weights_of(self)
    }
}

impl PayerBase for CompanyWeights {
    ghost weights = { λ s. s.at };

    ghost based = { λ s. record { long = s.long; light = s.light } };

    fn weight(&self, company: u64) -> u64 {
        entry_of(&self.at, company, 0)
    }
}

// Replacement over any base moves the weights of those that are replaced, and nothing else.
pub fn replaced_weights<B: PayerBase + Drop>(
    base: B,
    replacements: Replacements,
) -> [u64; COMPANIES]
    ensures { Moves replacements.participants (B.PayerBase.weights base) result }
{
    weights_of(&Replacement::over(base, replacements))
}
