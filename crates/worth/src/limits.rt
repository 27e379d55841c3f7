// The limits of a line's figures.

ghost use Rattle.std.specs.Prelude.{◌≡◌};
ghost use Rattle.worth.specs.Limits.{within as line_within};

use crate::line::Line;

// The highest price that is admitted, in cents: for a MW and hour, for a MWh or for a fuel unit.
const HIGHEST_PRICE: u64 = 100_000;

// The highest reserve, in kW.
const HIGHEST_POWER: u64 = 1_000_000;

// The highest energy of an hour, in kWh.
const HIGHEST_ENERGY: u64 = 1_000_000;

// The highest specific consumption, in thousandths of a fuel unit for a MWh.
const HIGHEST_CONSUMPTION: u64 = 1_000_000;

// The highest efficiency, in thousandths of a MWh for a unit of primary resource.
const HIGHEST_EFFICIENCY: u64 = 1_000_000;

// The lowest. An efficiency divides, so it is not 0.
const LOWEST_EFFICIENCY: u64 = 1;

// Seconds in an hour, which an instruction cannot outlast.
pub(crate) const HOUR: u64 = 3_600;

impl Line {
    // Whether every figure is within its limits.
    // Kept: over 40 lines, since the layout gives each of the 25 figures a line, and a part would need an arm for the other kinds.
    pub fn within_limits(&self) -> bool
        ensures { result ≡ line_within self.now }
    {
        match *self {
            Line::UpwardAvailability {
                awarded_value: ..=HIGHEST_PRICE,
                reserve: ..=HIGHEST_POWER,
            } => true,
            Line::UpwardActivation {
                marginal_cost: ..=HIGHEST_PRICE,
                energy: ..=HIGHEST_ENERGY,
            } => true,
            Line::Downward {
                awarded_value: ..=HIGHEST_PRICE,
                reserve: ..=HIGHEST_POWER,
                seconds: ..=HOUR,
            } => true,
            Line::OverCost {
                variable_cost: ..=HIGHEST_PRICE,
                marginal_cost: ..=HIGHEST_PRICE,
                energy: ..=HIGHEST_ENERGY,
            } => true,
            Line::Opportunity {
                variable_cost: ..=HIGHEST_PRICE,
                marginal_cost: ..=HIGHEST_PRICE,
                full_load_energy: full_load_energy @ ..=HIGHEST_ENERGY,
                energy,
            } => energy <= full_load_energy,
            Line::ExtraFuel {
                fuel_price: ..=HIGHEST_PRICE,
                dispatched_consumption: ..=HIGHEST_CONSUMPTION,
                full_load_consumption: ..=HIGHEST_CONSUMPTION,
                energy: ..=HIGHEST_ENERGY,
            } => true,
            Line::ExtraResource {
                operation_price: ..=HIGHEST_PRICE,
                dispatched_efficiency: LOWEST_EFFICIENCY..=HIGHEST_EFFICIENCY,
                full_load_efficiency: LOWEST_EFFICIENCY..=HIGHEST_EFFICIENCY,
                energy: ..=HIGHEST_ENERGY,
            } => true,
            Line::ExtraWithdrawal {
                marginal_cost: ..=HIGHEST_PRICE,
                withdrawn: withdrawn @ ..=HIGHEST_ENERGY,
                withdrawn_without,
            } => withdrawn_without <= withdrawn,
            _ => false,
        }
    }
}
