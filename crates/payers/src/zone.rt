// The zone's hour: the payer base of a load shedding. Its cost lands on the companies that were injecting in the zone in the hour before.
ghost use Rattle.std.specs.Prelude.{◌≡◌, ℕ, true, false, Some, MatchOption};
ghost use Rattle.payers.specs.Bases.{is_company};
ghost use Rattle.payers.specs.Zones.{Owner, Summed, are_readings};

use crate::base::COMPANIES;
use crate::readings::{Reading, are_readings};
use crate::weights::CompanyWeights;
use numbered::{entry_of, set_entry};

// Who owns which unit in which zone.
pub trait Owners {
    // The company that owns a unit in a zone; none where the unit is elsewhere, or unknown.
    ghost owner: { Self → Owner };

    // Who owns the unit there, if it is there.
    fn owner_in(&self, unit: u64, zone: u64) -> Option<u64>
        ensures { result ≡ owner self.now unit zone };

    // It is one of the companies 1 to 32.
    ghost company: { (s : Self) (unit zone c : ℕ) → owner s unit zone ≡ Some c → is_company c ≡ true };
}

// The kWh of the readings, each added to those of the unit's owner.
fn summed<O: Owners>(readings: &[Reading], owners: &O, zone: u64) -> CompanyWeights
    requires { are_readings readings.now ≡ true }
    ensures { Summed (O.Owners.owner owners.now) zone readings.now result.at }
{
    let mut kwh = [0; COMPANIES];
    // Kept: a loop, since each reading adds to one of 32 sums, and the library has no method for that.
    for reading in readings {
        if let Some(company) = owners.owner_in(reading.unit, zone) {
            let injected = entry_of(&kwh, company, 0) + reading.kwh;
            set_entry(&mut kwh, company, injected);
        }
    }
    CompanyWeights { at: kwh }
}

// The weights of the companies in the zone's hour: each reading of a unit in the zone adds its kWh to those of the unit's owner; no other
// reading adds anything. None where these are not readings that a shedding may bring.
pub fn zone_weights<O: Owners>(
    readings: &[Reading],
    owners: &O,
    zone: u64,
) -> Option<CompanyWeights>
    ensures { MatchOption result (are_readings readings.now ≡ false) (λ hour. (are_readings readings.now ≡ true) × Summed (O.Owners.owner owners.now) zone readings.now hour.at) }
{
    are_readings(readings).then(|| summed(readings, owners, zone))
}
