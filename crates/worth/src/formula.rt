// What a line is worth: the formula of its kind, rounded down once.

ghost use Rattle.std.specs.Prelude.{◌≡◌, ◌≤◌, true};
ghost use Rattle.worth.specs.Laws.{Laws, NeverBoth};
ghost use Rattle.worth.specs.Limits.{within as line_within};
ghost use Rattle.worth.specs.Lines.{formula as formula_of, answer};
ghost use Rattle.worth.specs.Performances.{whole};

use crate::limits::HOUR;
use crate::line::Line;
use crate::performance::WHOLE;
use crate::quotient::{Quotient, over};

// kW in a MW, and kWh in a MWh.
const KILO: u64 = 1_000;

// Thousandths in a whole specific consumption.
const THOUSANDTHS: u64 = 1_000;

impl Line {
    // What the line is worth in cents, rounded down once, with a performance factor in ten-thousandths.
    // No answer where a figure or the factor is outside its limits.
    #[tactic(auto, using(crate::proofs::Lawful::laws, crate::proofs::Lawful::never_both))]
    pub fn worth(&self, factor: u64) -> Option<u64>
        ensures value { result ≡ answer self.now factor }
        ensures laws { Laws self.now factor }
        ensures never_both { NeverBoth }
    {
        (self.within_limits() && factor <= WHOLE).then(|| self.formula(factor).rounded_down())
    }

    // The formula of the line's kind, before rounding.
    // Kept: over 40 lines, since the layout gives each of the 25 figures a line, and a part would need an arm for the other kinds.
    #[tactic(auto, using(crate::proofs::Products::three, crate::proofs::Products::four))]
    fn formula(&self, factor: u64) -> Quotient
        requires { (line_within self.now ≡ true) × (factor ≤ whole) }
        ensures { result ≡ formula_of self.now factor }
    {
        match *self {
            Line::UpwardAvailability {
                awarded_value,
                reserve,
            } => over(awarded_value * reserve * factor, KILO * WHOLE),
            Line::UpwardActivation {
                marginal_cost,
                energy,
            } => over(marginal_cost * energy, KILO),
            Line::Downward {
                awarded_value,
                reserve,
                seconds,
            } => over(
                awarded_value * reserve * seconds * factor,
                KILO * HOUR * WHOLE,
            ),
            Line::OverCost {
                variable_cost,
                marginal_cost,
                energy,
            } => over(variable_cost.saturating_sub(marginal_cost) * energy, KILO),
            Line::Opportunity {
                variable_cost,
                marginal_cost,
                full_load_energy,
                energy,
            } => {
                let gain = marginal_cost.saturating_sub(variable_cost);
                over(gain * (full_load_energy - energy) * factor, KILO * WHOLE)
            }
            Line::ExtraFuel {
                fuel_price,
                dispatched_consumption,
                full_load_consumption,
                energy,
            } => {
                let extra = dispatched_consumption.saturating_sub(full_load_consumption);
                over(fuel_price * extra * energy, THOUSANDTHS * KILO)
            }
            Line::ExtraResource {
                operation_price,
                dispatched_efficiency,
                full_load_efficiency,
                energy,
            } => {
                let lost = full_load_efficiency.saturating_sub(dispatched_efficiency);
                over(
                    operation_price * lost * energy,
                    dispatched_efficiency * KILO,
                )
            }
            Line::ExtraWithdrawal {
                marginal_cost,
                withdrawn,
                withdrawn_without,
            } => over(marginal_cost * (withdrawn - withdrawn_without), KILO),
        }
    }
}
