// Sheddings of load at a point of withdrawal: which are paid, and what one is worth.

ghost use Rattle.std.specs.Prelude.{◌≡◌};
ghost use Rattle.worth.specs.Sheddings.{paid, within as shedding_within, answer};

use crate::limits::HOUR;
use crate::quotient::over;

// The highest failure cost, in cents for a kWh that is not served.
pub const HIGHEST_FAILURE_COST: u64 = 10_000;

// The highest load shed, in kW.
const HIGHEST_LOAD: u64 = 1_000_000;

// The longest shedding, in seconds: a day.
const LONGEST: u64 = 86_400;

// How much shedding a point bears unpaid.
#[derive(Clone, Copy)]
pub struct UnpaidLimits {
    // up to so many sheddings none is paid
    pub count: u64,
    // none is paid until they have lasted so many seconds together
    pub seconds: u64,
}

impl UnpaidLimits {
    // Whether a shedding is paid, from the point's count of sheddings and their summed seconds, this one included.
    pub fn pays(&self, count: u64, seconds: u64) -> bool
        ensures { result ≡ paid count seconds self.now }
    {
        count > self.count && seconds >= self.seconds
    }
}

// A shedding of load. The failure cost is no figure of a shedding but of the month.
#[derive(Clone, Copy)]
pub struct Shedding {
    // the load shed, in kW
    pub kw: u64,
    // how long it was shed
    pub seconds: u64,
}

impl Shedding {
    // Whether load and duration are within their limits.
    pub fn within_limits(&self) -> bool
        ensures { result ≡ shedding_within self.now.kw self.now.seconds }
    {
        self.kw <= HIGHEST_LOAD && self.seconds <= LONGEST
    }

    // What a paid shedding is worth in cents, rounded down. No answer where a figure is outside its limits.
    pub fn worth(&self, failure_cost: u64) -> Option<u64>
        ensures { result ≡ answer failure_cost self.now.kw self.now.seconds }
    {
        let within_limits = failure_cost <= HIGHEST_FAILURE_COST && self.within_limits();
        within_limits.then(|| over(failure_cost * self.kw * self.seconds, HOUR).rounded_down())
    }
}
