// One month of ancillary services: its stages, its posts, and what each call answers.

#![tactic(auto)]

pub mod calls;
pub mod figures;
mod limits;
pub mod month;
mod readings;
pub mod refusal;
#[cfg(test)]
mod tests;
