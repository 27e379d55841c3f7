// The shares of a pot by both rules, side by side.
ghost use Rattle.std.specs.Prelude.{◌≡◌, IfOk, sum};
ghost use Rattle.prorating.specs.Laws.{amount_shared};
ghost use Rattle.prorate.specs.Tables.{table_of, Whole};

use prorating::largest::Largest;
use prorating::prorated::prorated;
use prorating::rule::Rule;
use prorating::running::Running;
use prorating::weights::{LIMIT, PLACES, Weights};
use thiserror::Error;

// Why a pot is not shared.
#[derive(Clone, Copy, Debug, PartialEq, Error)]
pub enum Unshared {
    // The pot is above the limit.
    #[error("the pot is above {limit}", limit = LIMIT)]
    PotTooLarge,
    // The pot is above 0, and all weights are 0.
    #[error("all weights are 0, so nobody can be charged the pot")]
    NoWeight,
}

// The shares of a pot by one rule, and their sum.
#[derive(Clone, Copy)]
pub struct Column {
    pub shares: [u64; PLACES],
    pub total: u64,
}

impl Column {
    pub fn of<R: Rule>(rule: &R, pot: u64, weights: &Weights) -> Column
        ensures shares { result.shares ≡ R.Rule.shares rule.now pot weights.now.at }
        ensures summed { result.total ≡ sum result.shares }
        ensures whole { result.total ≡ amount_shared pot weights.now.at }
    {
        let shares = prorated(rule, pot, weights);
        Column {
            shares,
            total: shares.iter().sum(),
        }
    }
}

#[derive(Clone, Copy)]
pub struct Table {
    pub running: Column,
    pub largest: Column,
}

impl Table {
    // The shares of a pot by both rules, which add up to the pot.
    pub fn of(pot: u64, weights: &Weights) -> Result<Table, Unshared>
        ensures value { result ≡ table_of pot weights.now.at }
        ensures whole { IfOk result (Whole pot) }
    {
        if pot > LIMIT {
            return Err(Unshared::PotTooLarge);
        }
        if pot > 0 && weights.total() == 0 {
            return Err(Unshared::NoWeight);
        }
        Ok(Table {
            running: Column::of(&Running, pot, weights),
            largest: Column::of(&Largest, pot, weights),
        })
    }
}
