// How well a unit performed in the month, and the factor that its pay is weighted by.

ghost use Rattle.std.specs.Prelude.{◌≡◌, ◌≤◌};
ghost use Rattle.worth.specs.Performances.{achieved as achieved_of, rewarded as rewarded_of, factor as factor_of, within as performance_within, whole};

use crate::family::Family;

// The whole, in ten-thousandths: full activation, and the factor of a unit that meets its standard.
pub const WHOLE: u64 = 10_000;

// From this performance on, in ten-thousandths, a frequency service is paid in full.
const FREQUENCY_FULL: u128 = 9_500;

// From this one on it is paid in proportion, and below it nothing.
const FREQUENCY_LEAST: u128 = 7_500;

// From this performance on a voltage service is paid in full, and below it nothing.
const VOLTAGE_FULL: u128 = 9_800;

// What a unit's performance in a family is worked out from.
#[derive(Clone, Copy)]
pub struct Performance {
    // hours of the month in which the unit was not available for the service
    pub unavailable: u64,
    // how far the unit delivered what it was activated for, in ten-thousandths
    pub activation: u64,
}

impl Performance {
    // Whether the figures can be those of a month of so many hours.
    pub fn within_limits(&self, hours: u64) -> bool
        ensures { result ≡ performance_within hours self.now }
    {
        self.unavailable <= hours && self.activation <= WHOLE
    }

    // The performance factor, in ten-thousandths, in a month of so many hours. Any figures are answered.
    pub fn factor(&self, hours: u64, family: Family) -> u64
        ensures value { result ≡ factor_of hours family self.now }
        ensures at_most_whole { result ≤ whole }
    {
        rewarded(family, self.achieved(hours))
    }

    // The performance achieved, in ten-thousandths: availability times activation, rounded down.
    fn achieved(&self, hours: u64) -> u128
        ensures { result ≡ achieved_of hours self.now }
    {
        let available = hours.saturating_sub(self.unavailable);
        (available as u128 * self.activation as u128)
            .checked_div(hours as u128)
            .unwrap_or(0)
    }
}

// The factor that a family gives for the performance achieved.
fn rewarded(family: Family, achieved: u128) -> u64
    ensures value { result ≡ rewarded_of family achieved }
    ensures at_most_whole { result ≤ whole }
{
    match family {
        Family::Frequency if achieved >= FREQUENCY_FULL => WHOLE,
        Family::Frequency if achieved >= FREQUENCY_LEAST => achieved as u64,
        Family::Voltage if achieved >= VOLTAGE_FULL => WHOLE,
        _ => 0,
    }
}
