// When a pot is shared, and what the columns add up to.
use crate::table::{Table, Unshared};
use prorating::weights::{LIMIT, Weights};
use std::test::Fail;

// A pot over two weights, and the totals of both columns or why there are none.
const CASES: [(u64, [u64; 2], Result<(u64, u64), Unshared>); 6] = [
    (10, [1, 2], Ok((10, 10))),
    (LIMIT, [1, 2], Ok((LIMIT, LIMIT))),
    (LIMIT + 1, [1, 2], Err(Unshared::PotTooLarge)),
    (LIMIT + 1, [0, 0], Err(Unshared::PotTooLarge)),
    (1, [0, 0], Err(Unshared::NoWeight)),
    (0, [0, 0], Ok((0, 0))),
];

#[test]
fn a_pot_is_shared_whole_or_not_at_all(rt: HostRuntime) -> Result<(), Fail> {
    for (pot, weights, expected) in CASES {
        let weights = Weights::of(&weights)?;
        let totals = Table::of(pot, &weights).map(|table| (
            table.running.total,
            table.largest.total,
        ));
        assert_eq!(rt; totals, expected);
    }
    Ok(())
}
