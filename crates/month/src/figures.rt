// What a company is owed and owes for the month, in cents.
ghost use Rattle.std.specs.Prelude.{◌≡◌, ◌^◌, ◌<◌, pos, ◌-ℤ◌};
ghost use Rattle.month.specs.Figures.{figures};

use crate::month::POTS;
use payers::base::COMPANIES;

#[derive(Clone, Copy, Debug, PartialEq)]
pub struct Figures {
    // what it earned, with what those earned that it takes part for
    pub credit: u64,
    // what it is charged over all pots
    pub charge: u64,
    // credit less charge
    pub net: i64,
}

// Credit less charge.
fn net(credit: u64, charge: u64) -> i64
    requires credit_bound { credit < 2 ^ 63 }
    requires charge_bound { charge < 2 ^ 63 }
    ensures { result ≡ pos credit -ℤ pos charge }
{
    credit as i64 - charge as i64
}

impl Figures {
    // The figures of a credit and a charge.
    pub(crate) fn of(credit: u64, charge: u64) -> Figures
        requires credit_bound { credit < 2 ^ 63 }
        requires charge_bound { charge < 2 ^ 63 }
        ensures { result ≡ figures credit charge }
    {
        Figures {
            credit,
            charge,
            net: net(credit, charge),
        }
    }
}

// What a settled or final month tells of every company and pot.
#[derive(Clone, Copy)]
pub struct Outcome {
    // by company; None where it is not registered
    pub figures: [Option<Figures>; COMPANIES],
    // by pot and company, in cents
    pub charges: [[u64; COMPANIES]; POTS],
}
