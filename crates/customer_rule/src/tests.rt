// The rule on both sides of its threshold.
use crate::Mixed;
use prorating::prorated::prorated;
use prorating::weights::Weights;
use std::test::Fail;

#[test]
fn the_threshold_decides_who_gets_the_odd_cent(rt: HostRuntime) -> Result<(), Fail> {
    let weights = Weights::of(&[5, 5])?;
    let running = prorated(&Mixed { threshold: 3 }, 3, &weights);
    let largest = prorated(&Mixed { threshold: 2 }, 3, &weights);
    assert_eq!(rt; [running[0], running[1]], [1, 2]);
    assert_eq!(rt; [largest[0], largest[1]], [2, 1]);
    Ok(())
}
