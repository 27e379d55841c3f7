// Worked figures, and each formula at its limits.

use crate::*;

// The line of a kind with its figures in their order; a kind of fewer figures leaves the last ones out.
// Kept: over 40 lines, since the layout gives each of the 25 figures a line.
fn line(kind: u64, figures: [u64; 4]) -> Line {
    let [a, b, c, d] = figures;
    match kind {
        1 => Line::UpwardAvailability {
            awarded_value: a,
            reserve: b,
        },
        2 => Line::UpwardActivation {
            marginal_cost: a,
            energy: b,
        },
        3 => Line::Downward {
            awarded_value: a,
            reserve: b,
            seconds: c,
        },
        4 => Line::OverCost {
            variable_cost: a,
            marginal_cost: b,
            energy: c,
        },
        5 => Line::Opportunity {
            variable_cost: a,
            marginal_cost: b,
            full_load_energy: c,
            energy: d,
        },
        6 => Line::ExtraFuel {
            fuel_price: a,
            dispatched_consumption: b,
            full_load_consumption: c,
            energy: d,
        },
        7 => Line::ExtraResource {
            operation_price: a,
            dispatched_efficiency: b,
            full_load_efficiency: c,
            energy: d,
        },
        _ => Line::ExtraWithdrawal {
            marginal_cost: a,
            withdrawn: b,
            withdrawn_without: c,
        },
    }
}

// Kind, figures, factor, cents: one line of each kind, as worked by hand in docs/WORTH.md.
#[test]
fn lines_worked_by_hand(rt: HostRuntime) {
    let cases = [
        (1, [2_000, 50_000, 0, 0], 9_000, 90_000),
        (2, [4_500, 333, 0, 0], 0, 1_498),
        (3, [2_000, 50_000, 1_800, 0], 10_000, 50_000),
        (4, [6_000, 4_500, 30_001, 0], 0, 45_001),
        (5, [4_500, 6_000, 40_000, 30_000], 10_000, 15_000),
        (6, [1_200, 260, 240, 30_001], 0, 720),
        (7, [3_000, 400, 500, 8_000], 0, 6_000),
        (8, [4_500, 12_345, 2_000, 0], 0, 46_552),
    ];
    for (kind, figures, factor, cents) in cases {
        assert_eq!(rt; line(kind, figures).worth(factor), Some(cents));
    }
}

// Kind, figures, cents at the whole factor: the largest worth of each kind, the smallest figures, and where max and
// difference come to 0.
#[test]
fn lines_at_their_limits(rt: HostRuntime) {
    let cases = [
        (1, [100_000, 1_000_000, 0, 0], 100_000_000),
        (2, [100_000, 1_000_000, 0, 0], 100_000_000),
        (3, [100_000, 1_000_000, 3_600, 0], 100_000_000),
        (4, [100_000, 0, 1_000_000, 0], 100_000_000),
        (5, [0, 100_000, 1_000_000, 0], 100_000_000),
        (6, [100_000, 1_000_000, 0, 1_000_000], 100_000_000_000),
        (7, [100_000, 1, 1_000_000, 1_000_000], 99_999_900_000_000),
        (8, [100_000, 1_000_000, 0, 0], 100_000_000),
        (1, [0, 0, 0, 0], 0),
        (2, [0, 0, 0, 0], 0),
        (3, [0, 0, 0, 0], 0),
        (4, [0, 0, 0, 0], 0),
        (5, [0, 0, 0, 0], 0),
        (6, [0, 0, 0, 0], 0),
        (7, [0, 1, 1, 0], 0),
        (8, [0, 0, 0, 0], 0),
        (4, [4_500, 6_000, 30_000, 0], 0),
        (5, [6_000, 4_500, 40_000, 30_000], 0),
        (5, [4_500, 6_000, 40_000, 40_000], 0),
        (6, [1_200, 240, 260, 30_000], 0),
        (7, [3_000, 500, 400, 8_000], 0),
        (7, [3_000, 1, 2, 999], 2_997),
        (8, [4_500, 2_000, 2_000, 0], 0),
    ];
    for (kind, figures, cents) in cases {
        assert_eq!(rt; line(kind, figures).worth(10_000), Some(cents));
    }
}

// Kind and figures, one of them just outside its limits: no answer.
#[test]
fn lines_outside_their_limits(rt: HostRuntime) {
    let cases = [
        (1, [100_001, 0, 0, 0]),
        (1, [0, 1_000_001, 0, 0]),
        (2, [100_001, 0, 0, 0]),
        (2, [0, 1_000_001, 0, 0]),
        (3, [100_001, 0, 0, 0]),
        (3, [0, 1_000_001, 0, 0]),
        (3, [0, 0, 3_601, 0]),
        (4, [100_001, 0, 0, 0]),
        (4, [0, 100_001, 0, 0]),
        (4, [0, 0, 1_000_001, 0]),
        (5, [100_001, 0, 0, 0]),
        (5, [0, 100_001, 0, 0]),
        (5, [0, 0, 1_000_001, 0]),
        (5, [0, 0, 30_000, 30_001]),
        (6, [100_001, 0, 0, 0]),
        (6, [0, 1_000_001, 0, 0]),
        (6, [0, 0, 1_000_001, 0]),
        (6, [0, 0, 0, 1_000_001]),
        (7, [100_001, 1, 1, 0]),
        (7, [0, 0, 1, 0]),
        (7, [0, 1_000_001, 1, 0]),
        (7, [0, 1, 0, 0]),
        (7, [0, 1, 1_000_001, 0]),
        (7, [0, 1, 1, 1_000_001]),
        (8, [100_001, 0, 0, 0]),
        (8, [0, 1_000_001, 0, 0]),
        (8, [0, 2_000, 2_001, 0]),
    ];
    for (kind, figures) in cases {
        assert_eq!(rt; line(kind, figures).worth(10_000), None);
    }
    assert_eq!(rt; line(2, [0, 0, 0, 0]).worth(10_001), None);
}

// Kind, whether it may be of family 1 and of family 2, and whether it needs a performance.
#[test]
fn kinds_and_families(rt: HostRuntime) {
    let cases = [
        (1, true, false, true),
        (2, true, false, false),
        (3, true, false, true),
        (4, true, true, false),
        (5, true, true, true),
        (6, true, true, false),
        (7, true, true, false),
        (8, false, true, false),
    ];
    for (kind, frequency, voltage, performance) in cases {
        let line = line(kind, [0, 1, 1, 0]);
        assert_eq!(rt; line.kind(), kind);
        assert_eq!(rt; line.allows(Family::Frequency), frequency);
        assert_eq!(rt; line.allows(Family::Voltage), voltage);
        assert_eq!(rt; line.needs_performance(), performance);
    }
}

#[test]
fn numbers_of_families(rt: HostRuntime) {
    assert_eq!(rt; Family::try_from(0), Err(NoFamily));
    assert_eq!(rt; Family::try_from(1), Ok(Family::Frequency));
    assert_eq!(rt; Family::try_from(2), Ok(Family::Voltage));
    assert_eq!(rt; Family::try_from(3), Err(NoFamily));
    assert_eq!(rt; u64::from(Family::Frequency), 1);
    assert_eq!(rt; u64::from(Family::Voltage), 2);
}

// Hours of the month, unavailable hours, activation, and the factor in family 1 and in family 2.
#[test]
fn performance_factors(rt: HostRuntime) {
    let cases = [
        (720, 72, 10_000, 9_000, 0),
        (720, 36, 10_000, 10_000, 0),
        (720, 36, 9_999, 9_499, 0),
        (720, 0, 9_500, 10_000, 0),
        (720, 0, 9_499, 9_499, 0),
        (720, 0, 7_500, 7_500, 0),
        (720, 0, 7_499, 0, 0),
        (720, 0, 9_800, 10_000, 10_000),
        (720, 0, 9_799, 10_000, 0),
        (720, 720, 10_000, 0, 0),
        (720, 721, 10_000, 0, 0),
        (0, 0, 10_000, 0, 0),
        (u64::MAX, 0, u64::MAX, 10_000, 10_000),
    ];
    for (hours, unavailable, activation, frequency, voltage) in cases {
        let performance = Performance {
            unavailable,
            activation,
        };
        assert_eq!(rt; performance.factor(hours, Family::Frequency), frequency);
        assert_eq!(rt; performance.factor(hours, Family::Voltage), voltage);
    }
}

// Unavailable hours, activation, and whether they are within their limits in a month of 720 hours.
#[test]
fn performance_limits(rt: HostRuntime) {
    let cases = [
        (720, 10_000, true),
        (721, 10_000, false),
        (720, 10_001, false),
    ];
    for (unavailable, activation, within) in cases {
        let performance = Performance {
            unavailable,
            activation,
        };
        assert_eq!(rt; performance.within_limits(720), within);
    }
}

// Annuity, maintenance and the worth of a month; and whether the two are within their limits.
#[test]
fn installations(rt: HostRuntime) {
    let cases = [
        (1_200_000, 60_007, 105_000),
        (10_000_000_000, 10_000_000_000, 1_666_666_666),
        (u64::MAX, u64::MAX, 3_074_457_345_618_258_602),
    ];
    for (annuity, maintenance, cents) in cases {
        let installation = Installation {
            annuity,
            maintenance,
        };
        assert_eq!(rt; installation.worth(), cents);
    }
    let limits = [
        (10_000_000_000, 10_000_000_000, true),
        (10_000_000_001, 0, false),
        (0, 10_000_000_001, false),
    ];
    for (annuity, maintenance, within) in limits {
        let installation = Installation {
            annuity,
            maintenance,
        };
        assert_eq!(rt; installation.within_limits(), within);
    }
}

// With 4 sheddings and 36,000 seconds to bear unpaid: which is paid.
#[test]
fn unpaid_sheddings(rt: HostRuntime) {
    let limits = UnpaidLimits {
        count: 4,
        seconds: 36_000,
    };
    assert!(rt; limits.pays(5, 36_000));
    assert!(rt; !limits.pays(5, 35_999));
    assert!(rt; !limits.pays(4, 36_000));
}

// kW, seconds and whether they are within their limits; and failure cost, kW, seconds and worth.
#[test]
fn sheddings(rt: HostRuntime) {
    let limits = [
        (1_000_000, 86_400, true),
        (1_000_001, 0, false),
        (0, 86_401, false),
    ];
    for (kw, seconds, within) in limits {
        assert_eq!(rt; Shedding { kw, seconds }.within_limits(), within);
    }
    let cases = [
        (1_500, 2_000, 1_801, Some(1_500_833)),
        (10_000, 1_000_000, 86_400, Some(240_000_000_000)),
        (0, 0, 0, Some(0)),
        (10_001, 0, 0, None),
        (0, 1_000_001, 0, None),
        (0, 0, 86_401, None),
    ];
    for (failure_cost, kw, seconds, worth) in cases {
        assert_eq!(rt; Shedding { kw, seconds }.worth(failure_cost), worth);
    }
}
