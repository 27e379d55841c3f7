// Months by their calls: worked figures, the edges of a month, and every refusal.
use crate::calls::{StageCall, Terms};
use crate::figures::Figures;
use crate::month::Month;
use crate::refusal::Refusal;
use payers::meters::Meter;
use payers::readings::Reading;
use prorating::largest::Largest;
use prorating::running::Running;
use std::test::Fail;
use tables::units::Place;
use worth::{Installation, Line, Performance, Shedding};

const OVER_COST: Line = Line::OverCost {
    variable_cost: 6_000,
    marginal_cost: 4_500,
    energy: 30_001,
};

const UPWARD: Line = Line::UpwardAvailability {
    awarded_value: 2_000,
    reserve: 50_000,
};

// An open month, in which a point bears so much shedding unpaid.
fn open(count: u64, seconds: u64) -> Result<Month, Refusal> {
    let mut month = Month::blank();
    month.stage(&StageCall::<Running>::Open(Terms {
        period: 201_412,
        hours: 720,
        failure_cost: 1_500,
        count,
        seconds,
    }))?;
    Ok(month)
}

// The month of docs/MONTH.md before it is settled.
fn worked() -> Result<Month, Refusal> {
    let mut month = open(4, 36_000)?;
    for (company, withdrawals, injections) in [(1, 100, 700), (2, 200, 300), (3, 400, 0)] {
        month.company(company)?;
        month.meter(
            company,
            Meter {
                withdrawals,
                injections,
            },
        )?;
    }
    month.unit(11, Place { owner: 1, zone: 5 })?;
    month.unit(12, Place { owner: 2, zone: 5 })?;
    month.performance(
        11,
        1,
        Performance {
            unavailable: 72,
            activation: 10_000,
        },
    )?;
    month.line(11, 0, 1, UPWARD)?;
    month.line(12, 0, 2, OVER_COST)?;
    month.installation(
        12,
        2,
        Installation {
            annuity: 1_200_000,
            maintenance: 60_007,
        },
    )?;
    Ok(month)
}

fn figures(credit: u64, charge: u64, net: i64) -> Figures {
    Figures {
        credit,
        charge,
        net,
    }
}

#[test]
fn the_worked_month(rt: HostRuntime) -> Result<(), Fail> {
    let mut month = worked()?;
    assert_eq!(rt; month.figures(1), Err(Refusal::Stage));
    month.stage(&StageCall::Settle(Running))?;
    assert_eq!(rt; month.figures(1)?, figures(90_000, 92_785, -2_785));
    assert_eq!(rt; month.figures(2)?, figures(150_001, 70_072, 79_929));
    assert_eq!(rt; month.figures(3)?, figures(0, 77_144, -77_144));
    assert_eq!(rt; month.figures(4), Err(Refusal::Unregistered));
    assert_eq!(rt; month.charge(1, 3)?, 73_500);
    assert_eq!(rt; month.charge(1, 19)?, 0);
    assert_eq!(rt; month.charge(1, 20), Err(Refusal::Limits));
    let mut table = [9; 1_025];
    month.payments(&Running, &mut table)?;
    assert_eq!(rt;
        (table[1], table[65], table[0], table[1_024]),
        (2_785, 77_144, 0, 9)
    );
    Ok(())
}

#[test]
fn an_odd_cent_of_frequency_is_charged(rt: HostRuntime) -> Result<(), Fail> {
    let mut month = open(0, 0)?;
    for company in [1, 2, 3] {
        month.company(company)?;
        month.meter(
            company,
            Meter {
                withdrawals: 7,
                injections: 0,
            },
        )?;
    }
    month.unit(1, Place { owner: 2, zone: 0 })?;
    // worth 2 cents
    month.line(
        1,
        719,
        1,
        Line::UpwardActivation {
            marginal_cost: 2_000,
            energy: 1,
        },
    )?;
    month.stage(&StageCall::Settle(Largest))?;
    let charged = [
        month.charge(1, 1)?,
        month.charge(2, 1)?,
        month.charge(3, 1)?,
    ];
    assert_eq!(rt; charged, [1, 1, 0]);
    month.stage(&StageCall::<Running>::Reopen)?;
    month.stage(&StageCall::Settle(Running))?;
    let charged = [
        month.charge(1, 1)?,
        month.charge(2, 1)?,
        month.charge(3, 1)?,
    ];
    assert_eq!(rt; charged, [0, 1, 1]);
    Ok(())
}

fn readings() -> [Reading; 2] {
    [
        Reading {
            unit: 11,
            kwh: 3_000,
        },
        Reading {
            unit: 12,
            kwh: 1_000,
        },
    ]
}

#[test]
fn sheddings_are_paid_from_the_fifth_on(rt: HostRuntime) -> Result<(), Fail> {
    let mut month = worked()?;
    month.point(7, 3)?;
    let long = Shedding {
        kw: 1_000,
        seconds: 9_000,
    };
    for _ in 0..4 {
        month.shed(7, long, 5, &[])?;
    }
    let short = Shedding {
        kw: 1_000,
        seconds: 60,
    };
    // a refused shedding is not counted
    assert_eq!(rt;
        month.shed(7, short, 6, &readings()),
        Err(Refusal::NoWeight)
    );
    month.shed(7, short, 5, &readings())?;
    month.shed(
        7,
        Shedding {
            kw: 1_000,
            seconds: 0,
        },
        6,
        &[],
    )?;
    month.stage(&StageCall::Settle(Running))?;
    assert_eq!(rt; (month.charge(1, 4)?, month.charge(2, 4)?), (18_750, 6_250));
    assert_eq!(rt; month.charge(1, 5)?, 0);
    assert_eq!(rt; month.figures(3)?.credit, 25_000);
    Ok(())
}

#[test]
fn the_49th_unit_and_the_17th_pot_of_sheddings_are_refused(rt: HostRuntime) -> Result<(), Fail> {
    let mut month = open(0, 0)?;
    month.company(1)?;
    month.point(1, 1)?;
    for number in 1..=48 {
        month.unit(number, Place { owner: 1, zone: 0 })?;
    }
    assert_eq!(rt;
        month.unit(49, Place { owner: 1, zone: 0 }),
        Err(Refusal::Full)
    );
    let shedding = Shedding {
        kw: 1,
        seconds: 3_600,
    };
    let readings = [Reading { unit: 1, kwh: 1 }];
    for _ in 0..16 {
        month.shed(1, shedding, 0, &readings)?;
    }
    assert_eq!(rt; month.shed(1, shedding, 0, &readings), Err(Refusal::Full));
    month.stage(&StageCall::Settle(Running))?;
    assert_eq!(rt;
        (month.charge(1, 19)?, month.figures(1)?.credit),
        (1_500, 24_000)
    );
    Ok(())
}

#[test]
fn stages_refuse_what_they_do_not_allow(rt: HostRuntime) -> Result<(), Fail> {
    let mut month = Month::blank();
    assert_eq!(rt; month.company(1), Err(Refusal::Stage));
    assert_eq!(rt;
        month.stage(&StageCall::Settle(Running)),
        Err(Refusal::Stage)
    );
    let mut month = worked()?;
    assert_eq!(rt;
        month.stage(&StageCall::<Running>::Confirm),
        Err(Refusal::Stage)
    );
    month.stage(&StageCall::Settle(Running))?;
    assert_eq!(rt; month.company(4), Err(Refusal::Stage));
    month.stage(&StageCall::<Running>::Confirm)?;
    assert_eq!(rt;
        month.stage(&StageCall::<Running>::Reopen),
        Err(Refusal::Stage)
    );
    assert_eq!(rt; month.figures(3)?.charge, 77_144);
    let mut short = [9; 1_023];
    assert_eq!(rt; month.payments(&Running, &mut short), Err(Refusal::Short));
    assert_eq!(rt; (short[0], short[1]), (9, 9));
    Ok(())
}

#[test]
fn posts_are_refused_by_the_first_row_that_applies(rt: HostRuntime) -> Result<(), Fail> {
    let mut month = worked()?;
    assert_eq!(rt; month.company(33), Err(Refusal::Limits));
    assert_eq!(rt;
        month.unit(256, Place { owner: 4, zone: 5 }),
        Err(Refusal::Limits)
    );
    assert_eq!(rt;
        month.unit(11, Place { owner: 4, zone: 5 }),
        Err(Refusal::Unregistered)
    );
    assert_eq!(rt;
        month.unit(11, Place { owner: 3, zone: 5 }),
        Err(Refusal::Again)
    );
    assert_eq!(rt; month.replace(1, 1), Err(Refusal::Barred));
    assert_eq!(rt; month.line(12, 1, 1, UPWARD), Err(Refusal::NoPerformance));
    assert_eq!(rt; month.line(12, 720, 1, OVER_COST), Err(Refusal::Limits));
    assert_eq!(rt; month.line(12, 0, 1, OVER_COST), Err(Refusal::Again));
    assert_eq!(rt; month.line(11, 0, 3, OVER_COST), Err(Refusal::Limits));
    let largest = Installation {
        annuity: 10_000_000_000,
        maintenance: 10_000_000_000,
    };
    month.installation(11, 1, largest)?;
    assert_eq!(rt; month.installation(11, 2, largest), Err(Refusal::Credits));
    month.replace(1, 3)?;
    month.stage(&StageCall::Settle(Running))?;
    assert_eq!(rt; month.figures(1)?, figures(0, 0, 0));
    Ok(())
}

#[test]
fn a_pot_without_payers_is_not_settled(rt: HostRuntime) -> Result<(), Fail> {
    let mut month = open(0, 0)?;
    month.company(1)?;
    month.unit(1, Place { owner: 1, zone: 0 })?;
    month.line(1, 0, 1, OVER_COST)?;
    assert_eq!(rt;
        month.stage(&StageCall::Settle(Running)),
        Err(Refusal::NoWeight)
    );
    Ok(())
}

#[test]
fn each_refusal_has_its_number(rt: HostRuntime) {
    let refusals = [
        Refusal::Stage,
        Refusal::Limits,
        Refusal::Unregistered,
        Refusal::Again,
        Refusal::Full,
        Refusal::Barred,
        Refusal::NoPerformance,
        Refusal::Credits,
        Refusal::NoWeight,
        Refusal::Short,
    ];
    for (number, refusal) in (1..).zip(refusals) {
        assert_eq!(rt; u8::from(refusal), number);
    }
}
