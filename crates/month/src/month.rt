// The month: its stage, and the tables that it is kept in.
ghost use Rattle.std.specs.Prelude.{ℕ, ◌≤◌, [], slice_index, slice_index_or};
ghost use Rattle.prorating.specs.Weights.{limit};
ghost use Rattle.worth.specs.Sheddings.{highest_failure_cost};

pub mod answers;
pub mod blank;
mod charging;
mod earning;
mod paying;
pub mod posts;
pub mod stages;
mod worths;

use crate::calls::Terms;
use payers::base::COMPANIES;
use payers::meters::Meters;
use payers::replacement::Replacements;
use tables::accounts::Accounts;
use tables::marks::Marks;
use tables::points::PointTable;
use tables::units::UnitTable;

// The pots: 1 frequency, 2 voltage, 3 installations, 4 to 19 sheddings.
pub const POTS: usize = 19;

// What each company is charged of each pot, in cents.
#[derive(Clone, Copy)]
pub struct Charges {
    of_pots: [[u64; COMPANIES]; POTS],
    ghost small: { (p c : ℕ) → slice_index (slice_index_or of_pots p []) c ≤ limit },
}

// A settled or final month holds its charges.
#[derive(Clone, Copy)]
pub enum Stage {
    Blank,
    Open,
    Settled(Charges),
    Final(Charges),
}

// One month. It holds no heap.
#[derive(Drop)]
pub struct Month {
    stage: Stage,
    terms: Terms,
    registered: Marks,
    replacements: Replacements,
    units: UnitTable,
    metered: Marks,
    meters: Meters,
    points: PointTable,
    accounts: Accounts,
    ghost hours: { terms.hours ≤ 745 },
    ghost cost: { terms.failure_cost ≤ highest_failure_cost },
}
