// Calls on a blank month: the answers noted, and what is told at the end.
use crate::replay::replay;
use clearing::payments::ENTRIES;
use month::calls::{Call, Post, StageCall, Terms};
use month::refusal::Refusal;
use payers::meters::Meter;
use payers::readings::Reading;
use prorating::largest::Largest;
use prorating::running::Running;
use std::test::Fail;
use tables::units::Place;
use worth::Line;

type Made = Call<[Reading; 0], Running>;

const OPEN: Made = Call::Stage(StageCall::Open(Terms {
    period: 201_412,
    hours: 720,
    failure_cost: 0,
    count: 0,
    seconds: 0,
}));

const SETTLE: Made = Call::Stage(StageCall::Settle(Running));

fn company(number: u64) -> Made {
    Call::Post(Post::Company { number })
}

fn meter(company: u64, withdrawals: u64) -> Made {
    Call::Post(Post::Meter {
        company,
        meter: Meter {
            withdrawals,
            injections: 0,
        },
    })
}

// Company 1 earns 45,001 cents, and companies 1, 2 and 3 withdrew 100, 200 and 400.
fn calls() -> [Made; 11] {
    [
        company(1),
        OPEN,
        company(1),
        company(2),
        company(3),
        Call::Post(Post::Unit {
            number: 12,
            place: Place { owner: 1, zone: 0 },
        }),
        Call::Post(Post::Line {
            unit: 12,
            hour: 0,
            family: 2,
            line: Line::OverCost {
                variable_cost: 6_000,
                marginal_cost: 4_500,
                energy: 30_001,
            },
        }),
        meter(1, 100),
        meter(2, 200),
        meter(3, 400),
        SETTLE,
    ]
}

#[test]
fn answers_are_noted_and_the_outcome_is_told(rt: HostRuntime) -> Result<(), Fail> {
    let mut answers = [7; 12];
    let mut table = [9; ENTRIES];
    let outcome = replay(&calls(), &mut answers, &Largest, &mut table)?;
    assert_eq!(rt; answers, [1, 0, 0, 0, 0, 0, 0, 0, 0, 0, 0, 7]);
    let voltage = outcome.charges[1];
    assert_eq!(rt;
        (voltage[0], voltage[1], voltage[2]),
        (6_428, 12_858, 25_715)
    );
    assert!(rt; outcome.figures[3].is_none());
    assert_eq!(rt; outcome.figures[0].map(|figures| figures.net), Some(38_573));
    // companies 2 and 3 pay company 1
    assert_eq!(rt; (table[32], table[64], table[0]), (12_858, 25_715, 0));
    Ok(())
}

#[test]
fn a_month_that_is_not_settled_tells_nothing(rt: HostRuntime) {
    let mut answers = [7; 4];
    let mut table = [9; ENTRIES];
    let calls = [company(1), OPEN, company(1)];
    let refused = replay(&calls, &mut answers, &Running, &mut table).err();
    assert_eq!(rt; refused, Some(Refusal::Stage));
    assert_eq!(rt; (answers, table[0]), ([1, 0, 0, 7], 9));
}

#[test]
fn short_lists_are_refused_and_stay(rt: HostRuntime) {
    let mut answers = [7; 10];
    let mut table = [9; ENTRIES];
    let refused = replay(&calls(), &mut answers, &Running, &mut table).err();
    assert_eq!(rt; refused, Some(Refusal::Short));
    assert_eq!(rt; (answers[0], table[0]), (7, 9));
    let mut answers = [7; 11];
    let refused = replay(&calls(), &mut answers, &Running, &mut table[..1_023]).err();
    assert_eq!(rt; refused, Some(Refusal::Short));
    assert_eq!(rt; (answers[0], table[0]), (7, 9));
}
