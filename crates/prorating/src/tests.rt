// Worked figures of both rules, and the edges of the weight list.
use crate::largest::Largest;
use crate::prorated::prorated;
use crate::refusal::Refusal;
use crate::running::Running;
use crate::weights::{LIMIT, Weights};
use std::test::Fail;

// A pot over the weights of places 1 to 3, and the shares of these places by both rules.
#[derive(Clone, Copy)]
struct Case {
    pot: u64,
    weights: [u64; 3],
    running: [u64; 3],
    largest: [u64; 3],
}

const CASES: [Case; 8] = [
    // worked figures, with an odd cent
    Case {
        pot: 45_001,
        weights: [100, 200, 400],
        running: [6_428, 12_858, 25_715],
        largest: [6_429, 12_857, 25_715],
    },
    // a tie: the odd cent goes to the lower number
    Case {
        pot: 3,
        weights: [5, 0, 5],
        running: [1, 0, 2],
        largest: [2, 0, 1],
    },
    // two odd cents for three equal remainders
    Case {
        pot: 2,
        weights: [7, 7, 7],
        running: [0, 1, 1],
        largest: [1, 1, 0],
    },
    // a total of 0
    Case {
        pot: 45_001,
        weights: [0, 0, 0],
        running: [0, 0, 0],
        largest: [0, 0, 0],
    },
    // a pot of 0
    Case {
        pot: 0,
        weights: [1, 2, 3],
        running: [0, 0, 0],
        largest: [0, 0, 0],
    },
    // the pot at the limit, and above it
    Case {
        pot: 3_000_000_000,
        weights: [1, 1, 1],
        running: [1_000_000_000, 1_000_000_000, 1_000_000_000],
        largest: [1_000_000_000, 1_000_000_000, 1_000_000_000],
    },
    Case {
        pot: 3_000_000_001,
        weights: [1, 1, 1],
        running: [0, 0, 0],
        largest: [0, 0, 0],
    },
    // one weight at the limit
    Case {
        pot: 2_999_999_999,
        weights: [0, 3_000_000_000, 0],
        running: [0, 2_999_999_999, 0],
        largest: [0, 2_999_999_999, 0],
    },
];

#[test]
fn both_rules_give_the_worked_shares(rt: HostRuntime) -> Result<(), Fail> {
    for case in CASES {
        let weights = Weights::of(&case.weights)?;
        let running = prorated(&Running, case.pot, &weights);
        let largest = prorated(&Largest, case.pot, &weights);
        assert_eq!(rt; [running[0], running[1], running[2]], case.running);
        assert_eq!(rt; [largest[0], largest[1], largest[2]], case.largest);
    }
    Ok(())
}

#[test]
fn equal_weights_at_all_places(rt: HostRuntime) -> Result<(), Fail> {
    let weights = Weights::of(&[1_000; 48])?;
    assert_eq!(rt; weights.total(), 48_000);
    // 100 = 48 × 2 + 4: four odd cents, to every twelfth place by the one rule and to the first four by the other
    let mut running = [2; 48];
    running[11] = 3;
    running[23] = 3;
    running[35] = 3;
    running[47] = 3;
    assert_eq!(rt; prorated(&Running, 100, &weights), running);
    let mut largest = [2; 48];
    largest[0] = 3;
    largest[1] = 3;
    largest[2] = 3;
    largest[3] = 3;
    assert_eq!(rt; prorated(&Largest, 100, &weights), largest);
    Ok(())
}

#[test]
fn a_refused_weight_changes_nothing(rt: HostRuntime) -> Result<(), Fail> {
    let mut weights = Weights::empty();
    weights.put(1, LIMIT)?;
    assert_eq!(rt; weights.put(0, 1), Err(Refusal::Place));
    assert_eq!(rt; weights.put(49, 1), Err(Refusal::Place));
    assert_eq!(rt; weights.put(48, 1), Err(Refusal::Total));
    assert_eq!(rt; weights.put(1, LIMIT + 1), Err(Refusal::Total));
    assert_eq!(rt;
        (weights.weight(1), weights.weight(48), weights.total()),
        (LIMIT, 0, LIMIT)
    );
    // a smaller weight at the same place makes room
    weights.put(1, LIMIT - 7)?;
    weights.put(48, 7)?;
    assert_eq!(rt;
        (weights.weight(1), weights.weight(48), weights.total()),
        (LIMIT - 7, 7, LIMIT)
    );
    Ok(())
}

#[test]
fn numbers_outside_the_places_weigh_nothing(rt: HostRuntime) -> Result<(), Fail> {
    let weights = Weights::of(&[7; 48])?;
    assert_eq!(rt; weights.weight(1), 7);
    assert_eq!(rt; weights.weight(48), 7);
    assert_eq!(rt; weights.weight(0), 0);
    assert_eq!(rt; weights.weight(49), 0);
    assert_eq!(rt; weights.weight(u64::MAX), 0);
    Ok(())
}

#[test]
fn too_many_or_too_large_weights_make_no_list(rt: HostRuntime) {
    assert_eq!(rt; Weights::of(&[0; 49]).err(), Some(Refusal::Place));
    assert_eq!(rt; Weights::of(&[LIMIT, 1]).err(), Some(Refusal::Total));
    assert_eq!(rt;
        (u8::from(Refusal::Place), u8::from(Refusal::Total)),
        (2, 2)
    );
}
