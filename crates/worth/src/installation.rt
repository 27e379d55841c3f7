// Installations built for a service: what a month of one is worth.

ghost use Rattle.std.specs.Prelude.{◌≡◌};
ghost use Rattle.worth.specs.Installations.{worth as worth_of, within as installation_within};

// The highest annuity and the highest yearly maintenance, in cents.
const HIGHEST_YEARLY_COST: u64 = 10_000_000_000;

// Months in a year.
const MONTHS: u128 = 12;

// What an installation costs in a year, in cents.
#[derive(Clone, Copy)]
pub struct Installation {
    // the annuity of the investment
    pub annuity: u64,
    // the yearly maintenance
    pub maintenance: u64,
}

impl Installation {
    // Whether both costs are within their limits.
    pub fn within_limits(&self) -> bool
        ensures { result ≡ installation_within self.now.annuity self.now.maintenance }
    {
        self.annuity <= HIGHEST_YEARLY_COST && self.maintenance <= HIGHEST_YEARLY_COST
    }

    // What a month of the installation is worth in cents: a twelfth of the annuity and the yearly maintenance,
    // rounded down. Any figures are answered.
    pub fn worth(&self) -> u64
        ensures { result ≡ worth_of self.now.annuity self.now.maintenance }
    {
        ((self.annuity as u128 + self.maintenance as u128) / MONTHS) as u64
    }
}
