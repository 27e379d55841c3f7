// The eight kinds of hourly line: what each carries, its number, and the families that it may belong to.

ghost use Rattle.std.specs.Prelude.{◌≡◌};
ghost use Rattle.worth.specs.Lines.{kind as kind_of, allows as allows_of, needs_performance};

use crate::family::Family;

// What a unit did for a service in one hour, with the figures that its pay is worked out from.
// Prices are in cents, powers in kW, energies in kWh.
#[derive(Clone, Copy)]
pub enum Line {
    // reserve held to raise output; the awarded value is for a MW and hour
    UpwardAvailability {
        awarded_value: u64,
        reserve: u64,
    },
    // energy injected when that reserve was called on; the marginal cost is for a MWh
    UpwardActivation {
        marginal_cost: u64,
        energy: u64,
    },
    // reserve held to lower output, paid for the seconds of the hour in which it was instructed to
    Downward {
        awarded_value: u64,
        reserve: u64,
        seconds: u64,
    },
    // energy injected by a unit that costs more for a MWh than the marginal cost
    OverCost {
        variable_cost: u64,
        marginal_cost: u64,
        energy: u64,
    },
    // energy not injected, up to full load, by a unit that costs less for a MWh than the marginal cost
    Opportunity {
        variable_cost: u64,
        marginal_cost: u64,
        full_load_energy: u64,
        energy: u64,
    },
    // fuel burnt for a MWh beyond that at full load; consumptions are in thousandths of a fuel unit for a MWh
    ExtraFuel {
        fuel_price: u64,
        dispatched_consumption: u64,
        full_load_consumption: u64,
        energy: u64,
    },
    // resource used for a MWh beyond that at full load; efficiencies are in thousandths of a MWh for a unit of resource
    ExtraResource {
        operation_price: u64,
        dispatched_efficiency: u64,
        full_load_efficiency: u64,
        energy: u64,
    },
    // energy withdrawn beyond what would have been withdrawn without the service
    ExtraWithdrawal {
        marginal_cost: u64,
        withdrawn: u64,
        withdrawn_without: u64,
    },
}

impl Line {
    // The number of the line's kind, 1 to 8.
    // Kept: a method, since `u64::from(line)` would not say which number of a line is meant.
    pub fn kind(&self) -> u64
        ensures { result ≡ kind_of self.now }
    {
        match self {
            Line::UpwardAvailability { .. } => 1,
            Line::UpwardActivation { .. } => 2,
            Line::Downward { .. } => 3,
            Line::OverCost { .. } => 4,
            Line::Opportunity { .. } => 5,
            Line::ExtraFuel { .. } => 6,
            Line::ExtraResource { .. } => 7,
            Line::ExtraWithdrawal { .. } => 8,
        }
    }

    // Whether a line of this kind may belong to the family.
    pub fn allows(&self, family: Family) -> bool
        ensures { result ≡ allows_of self.now family }
    {
        match family {
            Family::Frequency => !matches!(self, Line::ExtraWithdrawal { .. }),
            Family::Voltage => !matches!(
                self,
                Line::UpwardAvailability { .. }
                    | Line::UpwardActivation { .. }
                    | Line::Downward { .. }
            ),
        }
    }

    // Whether the worth is weighted by the unit's performance factor.
    pub fn needs_performance(&self) -> bool
        ensures { result ≡ needs_performance self.now }
    {
        matches!(
            self,
            Line::UpwardAvailability { .. } | Line::Downward { .. } | Line::Opportunity { .. }
        )
    }
}
