// The posts that a company earns by: lines, installations and sheddings.
// Kept: the arguments of a post stand one by one; a struct of unit and family, say, would be made at each call and taken apart in its first line.
ghost use Rattle.std.specs.Prelude.{◌≡◌, ◌&&◌, ◌||◌, nat_le, nat_lt};
ghost use Rattle.month.specs.Meant.{line as a_line, installation as an_installation, shed as a_shed};
ghost use Rattle.month.specs.Book.{book};
ghost use Rattle.month.specs.Steps.{shown, post_answer, post_after};

use super::Month;
use super::stages::is_stranded;
use crate::limits::{installation_outside, line_outside, shed_outside};
use crate::readings::twice;
use crate::refusal::Refusal;
use payers::readings::Reading;
use worth::{Installation, Line, Shedding};

impl Month {
    // Kept: a family's number here and below, since a call brings any figures.
    // Posts a line of a unit in an hour. Its worth joins the pot of its family and the earnings of the unit's owner.
    pub fn line(&mut self, unit: u64, hour: u64, family: u64, line: Line) -> Result<(), Refusal>
        ensures answer { result ≡ post_answer (book self.old) (a_line unit hour family line) }
        ensures after { book self.new ≡ post_after (book self.old) (a_line unit hour family line) }
    {
        self.takes_posts()?;
        if line_outside(&self.terms, unit, hour, family, &line) {
            return Err(Refusal::Limits);
        }
        let place = self.units.place(unit).ok_or(Refusal::Unregistered)?;
        if self.units.is_given(unit, hour, &line) {
            return Err(Refusal::Again);
        }
        if self.lacks_performance(unit, family, &line) {
            return Err(Refusal::NoPerformance);
        }
        let cents = self.line_worth(unit, family, &line);
        if self.accounts.passes(cents) {
            return Err(Refusal::Credits);
        }
        self.units.give(unit, hour, &line);
        self.accounts.enter(place.owner, family, cents);
        Ok(())
    }

    // Posts an installation of a unit. Its worth joins the pot of installations and the earnings of the unit's owner.
    pub fn installation(
        &mut self,
        unit: u64,
        family: u64,
        installation: Installation,
    ) -> Result<(), Refusal>
        ensures answer { result ≡ post_answer (book self.old) (an_installation unit family installation.annuity installation.maintenance) }
        ensures after { book self.new ≡ post_after (book self.old) (an_installation unit family installation.annuity installation.maintenance) }
    {
        self.takes_posts()?;
        if installation_outside(unit, family, &installation) {
            return Err(Refusal::Limits);
        }
        let place = self.units.place(unit).ok_or(Refusal::Unregistered)?;
        if self.units.is_installed(unit, family) {
            return Err(Refusal::Again);
        }
        let cents = installation.worth();
        if self.accounts.passes(cents) {
            return Err(Refusal::Credits);
        }
        self.units.install(unit, family);
        self.accounts.enter(place.owner, 3, cents);
        Ok(())
    }

    // Whether there is no room for a shedding of this worth.
    fn is_full_for(&self, cents: u64) -> bool
        ensures { result ≡ (nat_le 10_000 (shown (book self.now)).sheddings || (nat_lt 0 cents && nat_le 16 (shown (book self.now)).shed_pots)) }
    {
        self.points.is_full() || cents > 0 && self.accounts.is_full()
    }

    // Posts a shedding of load at a point. It counts at its point; where it is paid, its worth joins the earnings of the point's supplier and, where it
    // is worth anything, is a pot of its own, charged to those who were injecting in the zone.
    pub fn shed(
        &mut self,
        point: u64,
        shedding: Shedding,
        zone: u64,
        readings: &[Reading],
    ) -> Result<(), Refusal>
        ensures answer { result ≡ post_answer (book self.old) (a_shed point shedding.kw shedding.seconds zone readings.now) }
        ensures after { book self.new ≡ post_after (book self.old) (a_shed point shedding.kw shedding.seconds zone readings.now) }
    {
        self.takes_posts()?;
        if shed_outside(point, &shedding, zone, readings) {
            return Err(Refusal::Limits);
        }
        let supplier = self
            .points
            .point(point)
            .supplier
            .ok_or(Refusal::Unregistered)?;
        if self.is_unknown_in(readings) {
            return Err(Refusal::Unregistered);
        }
        if twice(readings) {
            return Err(Refusal::Again);
        }
        let cents = self.shed_worth(point, &shedding);
        if self.is_full_for(cents) {
            return Err(Refusal::Full);
        }
        if self.accounts.passes(cents) {
            return Err(Refusal::Credits);
        }
        let hour = self.zone_hour(zone, readings);
        if is_stranded(cents, &hour) {
            return Err(Refusal::NoWeight);
        }
        self.points.shed(point, shedding.seconds);
        self.accounts.shed(supplier, cents, hour);
        Ok(())
    }
}
