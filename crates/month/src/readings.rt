// The readings that a shedding brings: whether they may stand together.
ghost use Rattle.std.specs.Prelude.{◌≡◌, nat_eq};
ghost use Rattle.month.specs.Table.{some_reading, no_unit, twice as is_twice};

use crate::limits::outside;
use payers::readings::Reading;

// Whether a reading is of a number that is no unit's.
pub(crate) fn unit_outside_in(readings: &[Reading]) -> bool
    ensures { result ≡ some_reading (λ q. no_unit q.unit) readings.now }
{
    readings.iter().any(|reading| outside(1, 255, reading.unit))
}

// Whether a reading is of this unit.
fn stands_in(readings: &[Reading], unit: u64) -> bool
    ensures { result ≡ some_reading (λ q. nat_eq q.unit unit) readings.now }
{
    readings.iter().any(|reading| reading.unit == unit)
}

// Whether a unit stands in two readings.
pub(crate) fn twice(readings: &[Reading]) -> bool
    ensures { result ≡ is_twice readings.now }
{
    let mut rest = readings;
    while let [first, others @ ..] = rest {
        if stands_in(others, first.unit) {
            return true;
        }
        rest = others;
    }
    false
}
