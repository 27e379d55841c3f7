// What one month's ancillary services are worth: the performance factor of a unit, the eight kinds of
// hourly line, installations and sheddings. Amounts are whole US cents; nothing here knows a month.

#![tactic(auto)]

mod family;
mod formula;
mod installation;
mod limits;
mod line;
mod performance;
mod quotient;
mod shedding;
#[cfg(test)]
mod tests;

pub use family::{Family, NoFamily};
pub use installation::Installation;
pub use line::Line;
pub use performance::{Performance, WHOLE};
pub use shedding::{HIGHEST_FAILURE_COST, Shedding, UnpaidLimits};
