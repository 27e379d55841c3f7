// Who pays for a pot: payer bases, replacement over any base, and charging, written once for every base and every rule.

#![tactic(auto)]

pub mod base;
pub mod charging;
pub mod meters;
pub mod readings;
pub mod refusal;
pub mod replacement;
#[cfg(test)]
mod suspension;
#[cfg(test)]
mod tests;
pub mod weights;
pub mod zone;
#[cfg(test)]
mod zone_tests;
