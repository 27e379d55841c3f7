// A second layer, for the tests: a base in which one company weighs nothing.
ghost use Rattle.std.specs.Prelude.{◌≡◌, if◌then◌else◌, nat_eq};
ghost use Rattle.payers.specs.Bases.{weight_of};
ghost use Rattle.payers.specs.Companies.{by_company};
ghost use Rattle.payers.specs.Suspended.{suspended_based};

use crate::base::PayerBase;

#[derive(Clone, Copy)]
pub struct Suspension<B> {
    base: B,
    suspended: u64,
}

impl<B: PayerBase> Suspension<B> {
    // The base with this company suspended.
    pub fn over(base: B, suspended: u64) -> Suspension<B>
        ensures { (result.base ≡ base) × (result.suspended ≡ suspended) }
    {
        Suspension { base, suspended }
    }
}

impl<B: PayerBase> PayerBase for Suspension<B> {
    ghost weights = { λ s. by_company (λ company. (if nat_eq company s.suspended then 0 else weight_of (B.PayerBase.weights s.base) company)) };

    ghost based = { λ s. suspended_based s.suspended (B.PayerBase.weights s.base) (B.PayerBase.based s.base) };

    fn weight(&self, company: u64) -> u64 {
        if company == self.suspended {
            0
        } else {
            self.base.weight(company)
        }
    }
}
