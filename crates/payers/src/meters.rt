// The table of meters, and the two bases over it.
ghost use Rattle.std.specs.Prelude.{◌≡◌, length, replicate};
ghost use Rattle.payers.specs.Meters.{Small, are_small, put_answer, put_after};

use crate::base::COMPANIES;
use crate::refusal::Refusal;
use crate::weights::CompanyWeights;
use numbered::{is_numbered, set_entry};

// The largest figure of a company, in MWh.
pub const FIGURE_LIMIT: u64 = 90_000_000;

// What a company withdrew and injected in the month, in MWh.
#[derive(Clone, Copy)]
pub struct Meter {
    pub withdrawals: u64,
    pub injections: u64,
}

impl Meter {
    // Whether both figures are within their limit.
    pub fn within_limits(&self) -> bool
        ensures { result ≡ are_small self.now.withdrawals self.now.injections }
    {
        self.withdrawals <= FIGURE_LIMIT && self.injections <= FIGURE_LIMIT
    }
}

// What each company withdrew and injected in the month, in MWh. The type keeps each figure within the limit.
// Kept: two lists, not a list of pairs, since each of the two is a base as it stands.
#[derive(Clone, Copy)]
pub struct Meters {
    withdrawals: [u64; COMPANIES],
    injections: [u64; COMPANIES],
    ghost withdrawals_long: { length withdrawals ≡ 32 },
    ghost injections_long: { length injections ≡ 32 },
    ghost withdrawals_small: { Small withdrawals },
    ghost injections_small: { Small injections },
}

impl Meters {
    // The table with no figures.
    pub fn none() -> Meters
        ensures { (result.withdrawals ≡ replicate 32 0) × (result.injections ≡ replicate 32 0) }
    {
        Meters {
            withdrawals: [0; COMPANIES],
            injections: [0; COMPANIES],
        }
    }

    // Puts a company's figures into the table and drops those that were there.
    pub fn put(&mut self, company: u64, meter: Meter) -> Result<(), Refusal>
        ensures answered { result ≡ put_answer company meter.withdrawals meter.injections }
        ensures withdrawn { self.new.withdrawals ≡ put_after result self.old.withdrawals company meter.withdrawals }
        ensures injected { self.new.injections ≡ put_after result self.old.injections company meter.injections }
    {
        if !is_numbered(company, COMPANIES) || !meter.within_limits() {
            return Err(Refusal::Limits);
        }
        set_entry(&mut self.withdrawals, company, meter.withdrawals);
        set_entry(&mut self.injections, company, meter.injections);
        Ok(())
    }

    // What the companies withdrew, as a base: that of frequency and voltage control.
    pub fn withdrawals(&self) -> CompanyWeights
        ensures { result.at ≡ self.now.withdrawals }
    {
        CompanyWeights {
            at: self.withdrawals,
        }
    }

    // What the companies injected, as a base: that of installations.
    pub fn injections(&self) -> CompanyWeights
        ensures { result.at ≡ self.now.injections }
    {
        CompanyWeights {
            at: self.injections,
        }
    }
}
