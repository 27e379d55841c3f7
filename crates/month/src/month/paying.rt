// The payments of a settled or final month.
ghost use Rattle.std.specs.Prelude.{◌≡◌, ◌-◌};
ghost use Rattle.payers.specs.Companies.{by_company};
ghost use Rattle.month.specs.Answers.{credit_in, payments_answer, payments_after};
ghost use Rattle.month.specs.Book.{book};
ghost use Rattle.month.specs.Figures.{charge_over};

use super::{Charges, Month};
use crate::refusal::Refusal;
use clearing::payments::{ENTRIES, pay};
use payers::base::COMPANIES;
use prorating::rule::Rule;
use std::array;

// What each company owes, and what is due to each.
// Kept: two lists, not a list of pairs, since `pay` takes each as it stands.
#[derive(Clone, Copy)]
pub struct Balances {
    debts: [u64; COMPANIES],
    dues: [u64; COMPANIES],
}

impl Month {
    // By these charges: a company owes by how much its charge is above its credit, and is due by how much its credit is above its charge.
    fn balances(&self, charges: &Charges) -> Balances
        ensures debts { result.debts ≡ by_company (λ c. charge_over charges.now.of_pots c - credit_in (book self.now) c) }
        ensures dues { result.dues ≡ by_company (λ c. credit_in (book self.now) c - charge_over charges.now.of_pots c) }
    {
        let credits = self.credits();
        let charged = charges.over_all();
        Balances {
            debts: array::from_fn(|k| charged[k].saturating_sub(credits[k])),
            dues: array::from_fn(|k| credits[k].saturating_sub(charged[k])),
        }
    }

    // Writes who pays whom into the first 1,024 entries of a table, each debt spread by the rule.
    pub fn payments<R: Rule>(&self, rule: &R, table: &mut [u64]) -> Result<(), Refusal>
        ensures answer { result ≡ payments_answer (book self.now) table.old }
        ensures after { table.new ≡ payments_after (R.Rule.shares rule.now) (book self.now) table.old }
    {
        let charges = self.charges()?;
        // Kept: `pay` tests this too; here a table that is too short is refused before the balances are worked out.
        if table.len() < ENTRIES {
            return Err(Refusal::Short);
        }
        let balances = self.balances(charges);
        Ok(pay(&balances.debts, &balances.dues, rule, table)?)
    }
}
