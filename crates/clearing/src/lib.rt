// Who pays whom: the payment table, from what each company owes and what is due to each.

#![tactic(auto)]

pub mod payments;
pub mod refusal;
#[cfg(test)]
mod tests;
