// The posts, one by one: each is judged row by row, and then entered.
// Kept: the arguments of a post stand one by one; a struct of unit and family, say, would be made at each call and taken apart in its first line.
ghost use Rattle.std.specs.Prelude.{◌≡◌, if◌then◌else◌, Ok, Err};
ghost use Rattle.month.specs.Meant.{company as a_company, replace as a_replace, unit as a_unit, performance as a_performance, meter as a_meter, point as a_point};
ghost use Rattle.month.specs.Table.{is_begun};
ghost use Rattle.month.specs.Book.{book};
ghost use Rattle.month.specs.declared.refusal.Refusal.TheVariants.{Stage as StageRefusal};
ghost use Rattle.month.specs.Steps.{post_answer, post_after};

use super::{Month, Stage};
use crate::limits::{meter_outside, outside, performance_outside, unit_outside};
use crate::refusal::Refusal;
use payers::meters::Meter;
use tables::units::Place;
use worth::Performance;

impl Month {
    // Refuses where the month takes no posts.
    pub(super) fn takes_posts(&self) -> Result<(), Refusal>
        ensures { result ≡ (if is_begun (book self.now).phase then Ok tt else Err StageRefusal) }
    {
        match self.stage {
            Stage::Open => Ok(()),
            _ => Err(Refusal::Stage),
        }
    }

    // Registers a company.
    pub fn company(&mut self, number: u64) -> Result<(), Refusal>
        ensures answer { result ≡ post_answer (book self.old) (a_company number) }
        ensures after { book self.new ≡ post_after (book self.old) (a_company number) }
    {
        self.takes_posts()?;
        if outside(1, 32, number) {
            return Err(Refusal::Limits);
        }
        if self.registered.has(number) {
            return Err(Refusal::Again);
        }
        self.registered.put(number);
        Ok(())
    }

    // Registers a unit.
    pub fn unit(&mut self, number: u64, place: Place) -> Result<(), Refusal>
        ensures answer { result ≡ post_answer (book self.old) (a_unit number place.owner place.zone) }
        ensures after { book self.new ≡ post_after (book self.old) (a_unit number place.owner place.zone) }
    {
        self.takes_posts()?;
        if unit_outside(number, &place) {
            return Err(Refusal::Limits);
        }
        if !self.registered.has(place.owner) {
            return Err(Refusal::Unregistered);
        }
        if self.units.place(number).is_some() {
            return Err(Refusal::Again);
        }
        if self.units.is_full() {
            return Err(Refusal::Full);
        }
        self.units.add(number, place);
        Ok(())
    }

    // Has one company take part for another.
    pub fn replace(&mut self, old: u64, new: u64) -> Result<(), Refusal>
        ensures answer { result ≡ post_answer (book self.old) (a_replace old new) }
        ensures after { book self.new ≡ post_after (book self.old) (a_replace old new) }
    {
        self.takes_posts()?;
        if outside(1, 32, old) || outside(1, 32, new) {
            return Err(Refusal::Limits);
        }
        if !(self.registered.has(old) && self.registered.has(new)) {
            return Err(Refusal::Unregistered);
        }
        Ok(self.replacements.replace(old, new)?)
    }

    // Posts a unit's performance in a family.
    // Kept: a family's number, since a call brings any figures.
    pub fn performance(
        &mut self,
        unit: u64,
        family: u64,
        performance: Performance,
    ) -> Result<(), Refusal>
        ensures answer { result ≡ post_answer (book self.old) (a_performance unit family performance) }
        ensures after { book self.new ≡ post_after (book self.old) (a_performance unit family performance) }
    {
        self.takes_posts()?;
        if performance_outside(&self.terms, unit, family, &performance) {
            return Err(Refusal::Limits);
        }
        if self.units.place(unit).is_none() {
            return Err(Refusal::Unregistered);
        }
        if self.units.performance(unit, family).is_some() {
            return Err(Refusal::Again);
        }
        self.units.perform(unit, family, performance);
        Ok(())
    }

    // Posts what a company withdrew and injected in the month.
    pub fn meter(&mut self, company: u64, meter: Meter) -> Result<(), Refusal>
        ensures answer { result ≡ post_answer (book self.old) (a_meter company meter.withdrawals meter.injections) }
        ensures after { book self.new ≡ post_after (book self.old) (a_meter company meter.withdrawals meter.injections) }
    {
        self.takes_posts()?;
        if meter_outside(company, &meter) {
            return Err(Refusal::Limits);
        }
        if !self.registered.has(company) {
            return Err(Refusal::Unregistered);
        }
        if self.metered.has(company) {
            return Err(Refusal::Again);
        }
        self.metered.put(company);
        Ok(self.meters.put(company, meter)?)
    }

    // Registers a point of withdrawal and its supplier.
    pub fn point(&mut self, number: u64, supplier: u64) -> Result<(), Refusal>
        ensures answer { result ≡ post_answer (book self.old) (a_point number supplier) }
        ensures after { book self.new ≡ post_after (book self.old) (a_point number supplier) }
    {
        self.takes_posts()?;
        if outside(1, 32, number) || outside(1, 32, supplier) {
            return Err(Refusal::Limits);
        }
        if !self.registered.has(supplier) {
            return Err(Refusal::Unregistered);
        }
        if self.points.point(number).supplier.is_some() {
            return Err(Refusal::Again);
        }
        self.points.supply(number, supplier);
        Ok(())
    }
}
