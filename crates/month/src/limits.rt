// The limits of the figures that a call brings.
// Kept: the arguments of a post stand one by one; a struct of unit and family, say, would be made at each call and taken apart in its first line.
ghost use Rattle.std.specs.Prelude.{◌≡◌};
ghost use Rattle.month.specs.Table.{outside as is_outside, no_family as is_no_family, terms_outside as are_terms_outside, unit_outside as is_unit_outside, performance_outside as is_performance_outside, line_outside as is_line_outside, installation_outside as is_installation_outside, meter_outside as is_meter_outside, shed_outside as is_shed_outside, disallowed as is_disallowed, no_period as is_no_period};
ghost use Rattle.worth.specs.Families.{numbered};

use crate::calls::Terms;
use crate::readings::unit_outside_in;
use payers::meters::Meter;
use payers::readings::{Reading, are_readings};
use tables::units::Place;
use worth::{Family, HIGHEST_FAILURE_COST, Installation, Line, Performance, Shedding};

// Whether a number is outside its limits.
pub(crate) fn outside(low: u64, high: u64, x: u64) -> bool
    ensures { result ≡ is_outside low high x }
{
    x < low || x > high
}

// Whether a number is no family's.
// Kept: a number here and below, since it is judged here (see calls.rt).
fn no_family(family: u64) -> bool
    ensures { result ≡ is_no_family family }
{
    Family::try_from(family).is_err()
}

// Whether a family is none, or one that the kind of a line does not allow.
fn disallowed(line: &Line, family: u64) -> bool
    ensures { result ≡ is_disallowed line.now (numbered family) }
{
    Family::try_from(family).map_or(true, |family| !line.allows(family))
}

// Whether a period is no month of the years 2000 to 2099, as YYYYMM.
fn no_period(period: u64) -> bool
    ensures { result ≡ is_no_period period }
{
    outside(2000, 2099, period / 100) || outside(1, 12, period % 100)
}

impl Terms {
    // Whether a month cannot be opened with these.
    pub(crate) fn are_outside(&self) -> bool
        ensures { result ≡ are_terms_outside self.now }
    {
        no_period(self.period)
            || outside(672, 745, self.hours)
            || self.failure_cost > HIGHEST_FAILURE_COST
            || self.count > 1_000
            || self.seconds > 31_536_000
    }
}

pub(crate) fn unit_outside(number: u64, place: &Place) -> bool
    ensures { result ≡ is_unit_outside number place.now.owner place.now.zone }
{
    outside(1, 255, number) || outside(1, 32, place.owner) || place.zone > 15
}

pub(crate) fn performance_outside(
    terms: &Terms,
    unit: u64,
    family: u64,
    performance: &Performance,
) -> bool
    ensures { result ≡ is_performance_outside terms.now unit family performance.now }
{
    outside(1, 255, unit) || no_family(family) || !performance.within_limits(terms.hours)
}

pub(crate) fn line_outside(terms: &Terms, unit: u64, hour: u64, family: u64, line: &Line) -> bool
    ensures { result ≡ is_line_outside terms.now unit hour family line.now }
{
    outside(1, 255, unit)
        || hour >= terms.hours
        || disallowed(line, family)
        || !line.within_limits()
}

pub(crate) fn installation_outside(unit: u64, family: u64, installation: &Installation) -> bool
    ensures { result ≡ is_installation_outside unit family installation.now.annuity installation.now.maintenance }
{
    outside(1, 255, unit) || no_family(family) || !installation.within_limits()
}

pub(crate) fn meter_outside(company: u64, meter: &Meter) -> bool
    ensures { result ≡ is_meter_outside company meter.now.withdrawals meter.now.injections }
{
    outside(1, 32, company) || !meter.within_limits()
}

pub(crate) fn shed_outside(point: u64, shedding: &Shedding, zone: u64, readings: &[Reading]) -> bool
    ensures { result ≡ is_shed_outside point shedding.now.kw shedding.now.seconds zone readings.now }
{
    outside(1, 32, point)
        || !shedding.within_limits()
        || zone > 15
        || !are_readings(readings)
        || unit_outside_in(readings)
}
