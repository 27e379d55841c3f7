// The tables that a month is kept in. Each keeps its facts by its type, and a call that would break them changes nothing.

#![tactic(auto)]

pub mod accounts;
pub mod marks;
pub mod points;
#[cfg(test)]
mod tests;
pub mod units;
