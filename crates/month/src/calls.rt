// The calls on a month, with any figures.
use payers::meters::Meter;
use tables::units::Place;
use worth::{Installation, Line, Performance, Shedding};

// The figures that a month is opened with.
#[derive(Clone, Copy, Default)]
pub struct Terms {
    pub period: u64,
    pub hours: u64,
    pub failure_cost: u64,
    pub count: u64,
    pub seconds: u64,
}

// Kept: families come as numbers, here and where calls are judged, since a call brings any figures, and a type of theirs would ask more of callers.
// What is posted in an open month. A shedding's readings are a list of `T`: a slice of the caller's, or a vector.
#[derive(Clone, Copy, Drop)]
pub enum Post<T> {
    Company {
        number: u64,
    },
    Replace {
        old: u64,
        new: u64,
    },
    Unit {
        number: u64,
        place: Place,
    },
    Performance {
        unit: u64,
        family: u64,
        performance: Performance,
    },
    Line {
        unit: u64,
        hour: u64,
        family: u64,
        line: Line,
    },
    Installation {
        unit: u64,
        family: u64,
        installation: Installation,
    },
    Meter {
        company: u64,
        meter: Meter,
    },
    Point {
        number: u64,
        supplier: u64,
    },
    Shed {
        point: u64,
        shedding: Shedding,
        zone: u64,
        readings: T,
    },
}

// What moves the stage.
#[derive(Clone, Copy, Drop)]
pub enum StageCall<R> {
    Open(Terms),
    Settle(R),
    Reopen,
    Confirm,
}

#[derive(Clone, Copy, Drop)]
pub enum Call<T, R> {
    Post(Post<T>),
    Stage(StageCall<R>),
}
