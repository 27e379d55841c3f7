// The charges of a settled month.
ghost use Rattle.std.specs.Prelude.{◌≡◌, ℕ, ◌+◌, ◌*◌, ◌<◌, ◌≤◌, [], ◌++◌, slice_index, map, Some, None, MatchOption};
ghost use Rattle.prorating.specs.Weights.{limit};
ghost use Rattle.payers.specs.Companies.{by_company};
ghost use Rattle.month.specs.Book.{book};
ghost use Rattle.month.specs.Figures.{charge_at, charge_over};
ghost use Rattle.month.specs.Pots.{pot_charges, charged as charged_by};
ghost use Rattle.month.specs.Steps.{service_pots, all_pots};
ghost use Rattle.tables.specs.Accounts.{pot_at};
ghost use Rattle.tables.specs.Tables.{as_pot};

use super::{Charges, Month, POTS};
use numbered::{entry_of, index_of};
use payers::base::COMPANIES;
use payers::charging::charges;
use payers::replacement::Replacement;
use prorating::rule::Rule;
use std::array;
use tables::accounts::{SERVICES, WeightedPot};

impl Charges {
    // What a company is charged of a pot; 0 for numbers that are none of 1 to 32 and 1 to 19.
    pub(super) fn of(&self, company: u64, pot: u64) -> u64
        ensures { result ≡ charge_at self.now.of_pots company pot }
    {
        index_of(pot, POTS).map_or(0, |index| entry_of(&self.of_pots[index], company, 0))
    }

    // What a company is charged over all pots.
    pub(super) fn over(&self, company: u64) -> u64
        ensures is { result ≡ charge_over self.now.of_pots company }
        ensures small { result ≤ 19 * limit }
    {
        self.of_pots
            .iter()
            .map(|charges| entry_of(charges, company, 0))
            .sum()
    }

    // What each company is charged over all pots, that of company 1 first.
    pub(super) fn over_all(&self) -> [u64; COMPANIES]
        ensures { result ≡ by_company (charge_over self.now.of_pots) }
    {
        array::from_fn(|k| self.over(k as u64 + 1))
    }
}

impl Month {
    // The pots of services: frequency and voltage over what was withdrawn, installations over what was injected.
    pub(super) fn service_pots(&self) -> [WeightedPot; SERVICES]
        ensures { map as_pot result ≡ service_pots (book self.now) }
    {
        let withdrawals = self.meters.withdrawals();
        [
            WeightedPot {
                cents: self.accounts.service(1),
                base: withdrawals,
            },
            WeightedPot {
                cents: self.accounts.service(2),
                base: withdrawals,
            },
            WeightedPot {
                cents: self.accounts.service(3),
                base: self.meters.injections(),
            },
        ]
    }

    // The pot at an index, 0 for pot 1; None where it is unused.
    fn pot(&self, index: usize) -> Option<WeightedPot>
        ensures { MatchOption result (pot_at (all_pots (book self.now)) index ≡ None) (λ p. pot_at (all_pots (book self.now)) index ≡ Some (as_pot p)) }
    {
        match index.checked_sub(SERVICES) {
            Some(shedding) => self.accounts.shedding(shedding),
            None => Some(self.service_pots()[index]),
        }
    }

    // The charges of the pot at an index. An unused pot charges nobody.
    fn pot_charges<R: Rule>(&self, index: usize, rule: &R) -> [u64; COMPANIES]
        ensures meant { result ≡ pot_charges (R.Rule.shares rule.now) (book self.now).participants (all_pots (book self.now)) index }
        ensures small { (k : ℕ) → slice_index result k ≤ limit }
    {
        let Some(pot) = self.pot(index) else {
            return [0; COMPANIES];
        };
        let base = Replacement::over(pot.base, self.replacements);
        charges(pot.cents, &base, rule)
    }

    // The charges of all pots by a rule.
    pub(super) fn charged<R: Rule>(&self, rule: &R) -> Charges
        ensures { result.of_pots ≡ charged_by (R.Rule.shares rule.now) (book self.now).participants (all_pots (book self.now)) }
    {
        let mut of_pots = [[0; COMPANIES]; POTS];
        // Kept: tried `array::from_fn`; of its closure, which calls a generic function, the proof found neither the meaning nor the bound.
        for (k, charges) in of_pots.iter_mut().enumerate() {
            *charges = self.pot_charges(k, rule);
        }
        Charges { of_pots }
    }
}
