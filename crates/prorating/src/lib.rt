// Prorating: a pot of cents is shared over 48 places by their weights, and nothing is lost.

#![tactic(auto)]

pub mod built_in;
pub mod largest;
mod parts;
pub mod prorated;
pub mod refusal;
pub mod rule;
pub mod running;
#[cfg(test)]
mod tests;
pub mod weights;
