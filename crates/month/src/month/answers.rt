// What a settled or final month answers.
ghost use Rattle.std.specs.Prelude.{◌≡◌, ◌≤◌, true, false, MatchResult};
ghost use Rattle.prorating.specs.Weights.{limit};
ghost use Rattle.payers.specs.Companies.{by_company};
ghost use Rattle.payers.specs.Replacements.{weight_moved};
ghost use Rattle.month.specs.Answers.{is_charged, credit_in, figures_answer, charge_answer, answer_if_any, outcome_answer};
ghost use Rattle.month.specs.Book.{book};
ghost use Rattle.month.specs.declared.refusal.Refusal.TheVariants.{Stage as StageRefusal};

use super::{Charges, Month, Stage};
use crate::figures::{Figures, Outcome};
use crate::limits::outside;
use crate::refusal::Refusal;
use payers::base::{COMPANIES, PayerBase};
use payers::replacement::Replacement;
use payers::weights::CompanyWeights;
use std::array;

impl Month {
    // The charges of a settled or final month.
    pub(super) fn charges(&self) -> Result<&Charges, Refusal>
        ensures { MatchResult result (λ c. (is_charged (book self.now).phase ≡ true) × (c.now.of_pots ≡ (book self.now).charges)) (λ e. (is_charged (book self.now).phase ≡ false) × (e ≡ StageRefusal)) }
    {
        match &self.stage {
            Stage::Settled(charges) | Stage::Final(charges) => Ok(charges),
            _ => Err(Refusal::Stage),
        }
    }

    // What the companies earned, under replacement.
    fn credited(&self) -> Replacement<CompanyWeights>
        ensures { (result.replacements.participants ≡ (book self.now).participants) × (result.base.at ≡ (book self.now).accounts.earned) }
    {
        Replacement::over(self.accounts.earnings(), self.replacements)
    }

    // What a company earned, with what those earned that it takes part for; 0 where it is replaced.
    pub(super) fn credit(&self, company: u64) -> u64
        ensures is { result ≡ weight_moved (book self.now).participants (book self.now).accounts.earned company }
        ensures small { result ≤ limit }
    {
        self.credited().weight(company)
    }

    // What is credited to each company, that of company 1 first.
    pub(super) fn credits(&self) -> [u64; COMPANIES]
        ensures { result ≡ by_company (credit_in (book self.now)) }
    {
        let credited = self.credited();
        // Kept: weight by weight; with a second call of `weights_of` over this base the charges, which are most of the work of a
        // settlement, would have it no longer inlined.
        array::from_fn(|k| credited.weight(k as u64 + 1))
    }

    // A company's credit, its charge over all pots and its net.
    pub fn figures(&self, company: u64) -> Result<Figures, Refusal>
        ensures { result ≡ figures_answer (book self.now) company }
    {
        let charges = self.charges()?;
        if outside(1, 32, company) {
            return Err(Refusal::Limits);
        }
        if !self.registered.has(company) {
            return Err(Refusal::Unregistered);
        }
        Ok(Figures::of(self.credit(company), charges.over(company)))
    }

    // What a company is charged of a pot.
    pub fn charge(&self, company: u64, pot: u64) -> Result<u64, Refusal>
        ensures { result ≡ charge_answer (book self.now) company pot }
    {
        let charges = self.charges()?;
        if outside(1, 32, company) || outside(1, 19, pot) {
            return Err(Refusal::Limits);
        }
        if !self.registered.has(company) {
            return Err(Refusal::Unregistered);
        }
        Ok(charges.of(company, pot))
    }

    // A company's figures, where it is registered and the month has any.
    fn figures_if_registered(&self, company: u64) -> Option<Figures>
        ensures { result ≡ answer_if_any (figures_answer (book self.now) company) }
    {
        self.figures(company).ok()
    }

    // The figures of all companies and the charges of all pots.
    pub fn outcome(&self) -> Result<Outcome, Refusal>
        ensures { result ≡ outcome_answer (book self.now) }
    {
        let charges = self.charges()?;
        let figures = array::from_fn(|k| self.figures_if_registered(k as u64 + 1));
        let charges = charges.of_pots;
        Ok(Outcome { figures, charges })
    }
}
