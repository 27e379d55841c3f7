// The month in terms of the calls alone: what any list of calls is answered and leaves.

#![tactic(auto)]

pub mod replay;
#[cfg(test)]
mod tests;
