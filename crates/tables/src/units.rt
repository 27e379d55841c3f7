// The units of a month: who owns each, where it stands, and what was posted of it.
ghost use Rattle.std.specs.Prelude.{◌≡◌, true};
ghost use Rattle.tables.specs.Units.{are_owned, are_distinct};

pub mod calls;

use arrayvec::ArrayVec;
use worth::Performance;

// How many units a month has at most.
pub const UNITS: usize = 48;

// How many families of service there are: 1 frequency, 2 voltage.
// Kept: families come as numbers in every call, since a call takes any figures, and a type of its own would ask more of callers.
pub const FAMILIES: usize = 2;

// How many hours the longest month has, how many kinds of line an hour, and how many lines all of them together.
const HOURS: usize = 745;

const KINDS: usize = 8;

pub const LINES: usize = HOURS * KINDS;

// A unit, and what was posted of it so far.
#[derive(Clone, Copy, Default)]
pub struct UnitRow {
    pub number: u64,
    pub owner: u64,
    pub zone: u64,
    // by family
    // Kept: two lists, since each is read and set alone, by entry_of and set_entry in a line.
    pub performances: [Option<Performance>; FAMILIES],
    pub installed: [bool; FAMILIES],
    // by hour and kind: eight kinds an hour
    pub given: [bool; LINES],
}

// Who owns a unit, and in which zone it is.
#[derive(Clone, Copy)]
pub struct Place {
    pub owner: u64,
    pub zone: u64,
}

// The units that are registered. No number stands twice, and every owner is a company's number.
#[derive(Drop)]
pub struct UnitTable {
    rows: ArrayVec<UnitRow, UNITS>,
    ghost owned: { are_owned rows.items ≡ true },
    ghost once: { are_distinct rows.items ≡ true },
}
