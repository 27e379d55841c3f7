// Worked pots, charged over the meters and under replacement, and what is refused.
use crate::base::{COMPANIES, PayerBase};
use crate::charging::charges;
use crate::meters::{FIGURE_LIMIT, Meter, Meters};
use crate::refusal::Refusal;
use crate::replacement::{Replacement, Replacements};
use crate::suspension::Suspension;
use crate::weights::CompanyWeights;
use prorating::largest::Largest;
use prorating::running::Running;
use std::test::Fail;

fn meter(withdrawals: u64, injections: u64) -> Meter {
    Meter {
        withdrawals,
        injections,
    }
}

// The meters of a month with three companies.
fn meters(withdrawals: [u64; 3]) -> Result<Meters, Refusal> {
    let mut meters = Meters::none();
    meters.put(1, meter(withdrawals[0], 700))?;
    meters.put(2, meter(withdrawals[1], 300))?;
    meters.put(3, meter(withdrawals[2], 0))?;
    Ok(meters)
}

fn first_three(charges: [u64; COMPANIES]) -> [u64; 3] {
    [charges[0], charges[1], charges[2]]
}

// A pot over what three companies withdrew, before and after one replaces another.
#[derive(Clone, Copy)]
struct Case {
    pot: u64,
    withdrawals: [u64; 3],
    old: u64,
    new: u64,
    running: [u64; 3],
    running_replaced: [u64; 3],
    largest: [u64; 3],
    largest_replaced: [u64; 3],
}

const CASES: [Case; 2] = [
    Case {
        pot: 45_001,
        withdrawals: [100, 200, 400],
        old: 1,
        new: 3,
        running: [6_428, 12_858, 25_715],
        running_replaced: [0, 12_857, 32_144],
        largest: [6_429, 12_857, 25_715],
        largest_replaced: [0, 12_857, 32_144],
    },
    Case {
        pot: 2,
        withdrawals: [7, 7, 7],
        old: 2,
        new: 1,
        running: [0, 1, 1],
        running_replaced: [1, 0, 1],
        largest: [1, 1, 0],
        largest_replaced: [1, 0, 1],
    },
];

#[test]
fn worked_pots_before_and_after_replacement(rt: HostRuntime) -> Result<(), Fail> {
    for case in CASES {
        let base = meters(case.withdrawals)?.withdrawals();
        let mut replacements = Replacements::none();
        replacements.replace(case.old, case.new)?;
        let replaced = Replacement::over(base, replacements);
        assert_eq!(rt;
            first_three(charges(case.pot, &base, &Running)),
            case.running
        );
        assert_eq!(rt;
            first_three(charges(case.pot, &replaced, &Running)),
            case.running_replaced
        );
        assert_eq!(rt;
            first_three(charges(case.pot, &base, &Largest)),
            case.largest
        );
        assert_eq!(rt;
            first_three(charges(case.pot, &replaced, &Largest)),
            case.largest_replaced
        );
    }
    Ok(())
}

// Moving the charge would add the old company's to the new one's; moving the weight comes to one cent more or less.
#[test]
fn moving_the_weight_is_not_moving_the_charge(rt: HostRuntime) -> Result<(), Fail> {
    let base = meters([100, 200, 400])?.withdrawals();
    let mut replacements = Replacements::none();
    replacements.replace(1, 3)?;
    let before = charges(45_001, &base, &Running);
    let after = charges(45_001, &Replacement::over(base, replacements), &Running);
    assert_eq!(rt;
        (before[0].saturating_add(before[2]), after[2]),
        (32_143, 32_144)
    );
    assert_eq!(rt; (before[1], after[1]), (12_858, 12_857));

    let base = meters([7, 7, 7])?.withdrawals();
    let mut replacements = Replacements::none();
    replacements.replace(2, 1)?;
    let before = charges(2, &base, &Largest);
    let after = charges(2, &Replacement::over(base, replacements), &Largest);
    assert_eq!(rt; (before[0].saturating_add(before[1]), after[0]), (2, 1));
    assert_eq!(rt; (before[2], after[2]), (0, 1));
    Ok(())
}

#[test]
fn a_layer_over_a_layer_is_charged(rt: HostRuntime) -> Result<(), Fail> {
    let mut replacements = Replacements::none();
    replacements.replace(1, 3)?;
    let replaced = Replacement::over(meters([100, 200, 400])?.withdrawals(), replacements);
    let base: Suspension<Replacement<CompanyWeights>> = Suspension::over(replaced, 2);
    assert_eq!(rt;
        first_three(charges(45_001, &base, &Running)),
        [0, 0, 45_001]
    );
    Ok(())
}

#[test]
fn installations_are_charged_to_those_who_injected(rt: HostRuntime) -> Result<(), Fail> {
    let base = meters([100, 200, 400])?.injections();
    assert_eq!(rt;
        first_three(charges(105_000, &base, &Largest)),
        [73_500, 31_500, 0]
    );
    Ok(())
}

#[test]
fn any_other_number_weighs_nothing(rt: HostRuntime) -> Result<(), Fail> {
    let mut meters = Meters::none();
    meters.put(32, meter(5, 6))?;
    let mut replacements = Replacements::none();
    replacements.replace(1, 32)?;
    let replaced = Replacement::over(meters.withdrawals(), replacements);
    assert_eq!(rt; (replaced.weight(32), replacements.participant(1)), (5, 32));
    for number in [0, 33, u64::MAX] {
        assert_eq!(rt; meters.withdrawals().weight(number), 0);
        assert_eq!(rt; meters.injections().weight(number), 0);
        assert_eq!(rt; replaced.weight(number), 0);
        assert_eq!(rt; replacements.participant(number), 0);
    }
    Ok(())
}

#[test]
fn weights_are_listed(rt: HostRuntime) -> Result<(), Fail> {
    let meters = meters([100, 200, 400])?;
    assert_eq!(rt; first_three(meters.withdrawals().list()), [100, 200, 400]);
    assert_eq!(rt; first_three(meters.injections().list()), [700, 300, 0]);
    assert_eq!(rt; CompanyWeights::none().list(), [0; COMPANIES]);
    Ok(())
}

#[test]
fn refused_meters_change_nothing(rt: HostRuntime) -> Result<(), Fail> {
    let mut meters = Meters::none();
    meters.put(32, meter(FIGURE_LIMIT, 1))?;
    assert_eq!(rt; meters.put(0, meter(1, 1)), Err(Refusal::Limits));
    assert_eq!(rt; meters.put(33, meter(1, 1)), Err(Refusal::Limits));
    assert_eq!(rt;
        meters.put(32, meter(FIGURE_LIMIT + 1, 2)),
        Err(Refusal::Limits)
    );
    assert_eq!(rt;
        meters.put(32, meter(2, FIGURE_LIMIT + 1)),
        Err(Refusal::Limits)
    );
    assert_eq!(rt;
        (
            meters.withdrawals().weight(32),
            meters.injections().weight(32),
        ),
        (FIGURE_LIMIT, 1)
    );
    assert_eq!(rt;
        (u8::from(Refusal::Limits), u8::from(Refusal::Barred)),
        (2, 6)
    );
    Ok(())
}

#[test]
fn refused_replacements_change_nothing(rt: HostRuntime) -> Result<(), Fail> {
    let mut replacements = Replacements::none();
    replacements.replace(1, 2)?;
    // one company may take part for several
    replacements.replace(3, 2)?;
    assert_eq!(rt; replacements.replace(0, 4), Err(Refusal::Limits));
    assert_eq!(rt; replacements.replace(4, 33), Err(Refusal::Limits));
    assert_eq!(rt; replacements.replace(4, 4), Err(Refusal::Barred));
    // 1 is replaced already, as the old one and as the new one
    assert_eq!(rt; replacements.replace(1, 4), Err(Refusal::Barred));
    assert_eq!(rt; replacements.replace(4, 1), Err(Refusal::Barred));
    // 2 takes part for others
    assert_eq!(rt; replacements.replace(2, 4), Err(Refusal::Barred));
    for (company, participant) in [(1, 2), (2, 2), (3, 2), (4, 4)] {
        assert_eq!(rt; replacements.participant(company), participant);
    }
    Ok(())
}
