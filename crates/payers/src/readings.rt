// The readings of a shedding: what each unit injected in the hour before it.
ghost use Rattle.std.specs.Prelude.{◌≡◌};
ghost use Rattle.payers.specs.Zones.{is_within_limit as is_within, are_readings};

// How many readings a shedding brings at most.
pub const READINGS: usize = 48;

// The largest reading, in kWh.
pub const KWH_LIMIT: u64 = 2_000_000;

// What a unit injected in the hour, in kWh.
#[derive(Clone, Copy)]
pub struct Reading {
    pub unit: u64,
    pub kwh: u64,
}

impl Reading {
    // Whether the kWh are within their limit.
    pub fn is_within_limit(&self) -> bool
        ensures { result ≡ is_within self.now }
    {
        self.kwh <= KWH_LIMIT
    }
}

// Whether a shedding may bring these: at most 48, each within its limit.
pub fn are_readings(readings: &[Reading]) -> bool
    ensures { result ≡ are_readings readings.now }
{
    readings.len() <= READINGS && readings.iter().all(|reading| reading.is_within_limit())
}
