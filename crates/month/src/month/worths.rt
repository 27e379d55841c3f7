// What a line and a shedding are worth after what was posted, and who pays for a shedding.
// Kept: unit, family and line stand one by one; a struct of them would be made at each call and taken apart in its first line.
ghost use Rattle.std.specs.Prelude.{◌≡◌, ◌≤◌, true, not, ◌&&◌, is_some};
ghost use Rattle.payers.specs.Zones.{are_readings};
ghost use Rattle.worth.specs.Families.{numbered};
ghost use Rattle.worth.specs.Limits.{within as line_within};
ghost use Rattle.worth.specs.Lines.{needs_performance};
ghost use Rattle.worth.specs.Performances.{whole};
ghost use Rattle.worth.specs.Sheddings.{within as shedding_within};
ghost use Rattle.month.specs.Book.{book};
ghost use Rattle.month.specs.Seen.{factor_in};
ghost use Rattle.month.specs.Steps.{shown};
ghost use Rattle.month.specs.Table.{line_worth, shed_worth, shed_weights, some_reading};

use super::Month;
use payers::readings::Reading;
use payers::weights::CompanyWeights;
use payers::zone::zone_weights;
use worth::{Family, Line, Shedding, UnpaidLimits};

impl Month {
    // The performance factor of a unit in a family; 0 where none is given.
    // Kept: the bound stands here as on `Performance::factor`, since a type of a factor would be unwrapped again for each worth.
    // Kept: a family's number here and below; the tables are asked by it, and a `Family` would be turned back for each look-up.
    fn factor(&self, unit: u64, family: u64) -> u64
        ensures value { result ≡ factor_in (book self.now).terms.hours (numbered family) ((shown (book self.now)).performed unit family) }
        ensures at_most_whole { result ≤ whole }
    {
        let Ok(service) = Family::try_from(family) else {
            return 0;
        };
        self.units.performance(unit, family).map_or(
            0,
            |performance| performance.factor(self.terms.hours, service),
        )
    }

    // Whether a line needs a performance of its unit and family that is not given.
    pub(super) fn lacks_performance(&self, unit: u64, family: u64, line: &Line) -> bool
        ensures { result ≡ (needs_performance line.now && not (is_some ((shown (book self.now)).performed unit family))) }
    {
        line.needs_performance() && self.units.performance(unit, family).is_none()
    }

    // What a line is worth, whose figures are within their limits.
    pub(super) fn line_worth(&self, unit: u64, family: u64, line: &Line) -> u64
        requires { line_within line.now ≡ true }
        ensures { result ≡ line_worth (shown (book self.now)) unit family line.now }
    {
        line.worth(self.factor(unit, family)).unwrap()
    }

    // What a shedding is worth, whose figures are within their limits: nothing where it is unpaid.
    pub(super) fn shed_worth(&self, point: u64, shedding: &Shedding) -> u64
        requires { shedding_within shedding.now.kw shedding.now.seconds ≡ true }
        ensures { result ≡ shed_worth (shown (book self.now)) point shedding.now.kw shedding.now.seconds }
    {
        let before = self.points.point(point);
        let limits = UnpaidLimits {
            count: self.terms.count,
            seconds: self.terms.seconds,
        };
        if !limits.pays(before.count + 1, before.seconds + shedding.seconds) {
            return 0;
        }
        shedding.worth(self.terms.failure_cost).unwrap()
    }

    // Who was injecting in a zone, by readings that a shedding may bring.
    pub(super) fn zone_hour(&self, zone: u64, readings: &[Reading]) -> CompanyWeights
        requires { are_readings readings.now ≡ true }
        ensures { result.at ≡ shed_weights (shown (book self.now)) zone readings.now }
    {
        zone_weights(readings, &self.units, zone).unwrap()
    }

    // Whether a reading is of a unit that is not registered.
    pub(super) fn is_unknown_in(&self, readings: &[Reading]) -> bool
        ensures { result ≡ some_reading (λ q. not (is_some ((shown (book self.now)).place q.unit))) readings.now }
    {
        readings
            .iter()
            .any(|reading| self.units.place(reading.unit).is_none())
    }
}
