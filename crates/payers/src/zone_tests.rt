// Readings in and out of a zone, of known and unknown units, and the edges of what a shedding may bring.
ghost use Rattle.std.specs.Prelude.{◌&&◌, ◌||◌, if◌then◌else◌, Some, None, ◌==◌};
ghost use Rattle.std.proofs.Common.{rules};

use crate::base::PayerBase;
use crate::readings::{KWH_LIMIT, Reading, are_readings};
use crate::zone::{Owners, zone_weights};
use std::test::Fail;

// Units 10 and 11, in zone 1, are company 7's; unit 12, in zone 1, and unit 20, in zone 2, are company 32's.
struct FourUnits;

impl Owners for FourUnits {
    ghost owner = { λ _ unit zone. (if (unit == 10 || unit == 11) && zone == 1 then Some 7 else (if (unit == 12 && zone == 1) || (unit == 20 && zone == 2) then Some 32 else None)) };

    ghost company = { Prim.search rules };

    fn owner_in(&self, unit: u64, zone: u64) -> Option<u64> {
        if (unit == 10 || unit == 11) && zone == 1 {
            Some(7)
        } else if (unit == 12 && zone == 1) || (unit == 20 && zone == 2) {
            Some(32)
        } else {
            None
        }
    }
}

// Two readings of one unit, a unit in another zone, and one that nobody knows.
const HOUR: [Reading; 6] = [
    Reading { unit: 10, kwh: 500 },
    Reading { unit: 12, kwh: 40 },
    Reading {
        unit: 20,
        kwh: 9_000,
    },
    Reading { unit: 11, kwh: 250 },
    Reading {
        unit: 99,
        kwh: 1_000,
    },
    Reading { unit: 10, kwh: 3 },
];

#[test]
fn zone_readings_count_for_the_owners(rt: HostRuntime) -> Result<(), Fail> {
    // a zone, and what companies 7 and 32 injected there
    for (zone, seven, last) in [(1, 753, 40), (2, 0, 9_000), (3, 0, 0)] {
        let Some(hour) = zone_weights(&HOUR, &FourUnits, zone) else {
            return Err(Fail::new("refused"));
        };
        assert_eq!(rt; (hour.weight(7), hour.weight(32)), (seven, last));
        // the numbers of units, and numbers of no company
        assert_eq!(rt; (hour.weight(10), hour.weight(20)), (0, 0));
        assert_eq!(rt; (hour.weight(0), hour.weight(33)), (0, 0));
    }
    Ok(())
}

#[test]
fn zone_without_readings(rt: HostRuntime) -> Result<(), Fail> {
    let Some(hour) = zone_weights(&[], &FourUnits, 1) else {
        return Err(Fail::new("refused"));
    };
    for company in 0..34 {
        assert_eq!(rt; hour.weight(company), 0);
    }
    Ok(())
}

#[test]
fn zone_limits(rt: HostRuntime) -> Result<(), Fail> {
    let largest = Reading {
        unit: 10,
        kwh: KWH_LIMIT,
    };
    let Some(hour) = zone_weights(&[largest; 48], &FourUnits, 1) else {
        return Err(Fail::new("refused"));
    };
    assert_eq!(rt; hour.weight(7), 96_000_000);
    let larger = Reading {
        unit: 10,
        kwh: KWH_LIMIT + 1,
    };
    // refused in the zone and elsewhere
    assert!(rt; !are_readings(&[largest; 49]) && !are_readings(&[largest, larger]));
    assert!(rt; zone_weights(&[largest; 49], &FourUnits, 1).is_none());
    assert!(rt; zone_weights(&[largest, larger], &FourUnits, 2).is_none());
    Ok(())
}
