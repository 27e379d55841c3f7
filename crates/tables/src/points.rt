// The points of withdrawal: who supplies each, and the load that was shed there.
ghost use Rattle.std.specs.Prelude.{◌≡◌, ℕ, ◌*◌, ◌≤◌, length, slice_index_or};
ghost use Rattle.tables.specs.Points.{no_point};

pub mod calls;

// How many points there are at most. They are numbered 1 to 32.
pub const POINTS: usize = 32;

// How many sheddings a month takes, and how long one lasts at most, in seconds.
pub const SHEDDINGS: u64 = 10_000;

pub const LONGEST: u64 = 86_400;

// A point: its supplier where it is registered, how many sheddings it had, and for how many seconds together.
#[derive(Clone, Copy, Default)]
pub struct Point {
    pub supplier: Option<u64>,
    pub count: u64,
    pub seconds: u64,
}

// The type keeps that no point had more sheddings than there were, nor more seconds than those may last.
#[derive(Clone, Copy)]
pub struct PointTable {
    points: [Point; POINTS],
    sheddings: u64,
    ghost long: { length points ≡ 32 },
    ghost few: { sheddings ≤ 10_000 },
    ghost counts: { (k : ℕ) → (slice_index_or points k no_point).count ≤ sheddings },
    ghost seconds: { (k : ℕ) → (slice_index_or points k no_point).seconds ≤ 86_400 * sheddings },
}
