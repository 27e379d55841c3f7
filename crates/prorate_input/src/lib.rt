// Reads what the program `prorate` is given: a pot, and the weights that it is shared over.
//
// The input is two lines. The first is the pot; the second is 1 to 48 weights with one space between each two.
// A number is `0`, or 1 to 11 digits of which the first is not 0. The last line end may be missing.

#![tactic(auto)]

pub mod faults;
pub mod inputs;
pub mod reader;

pub use faults::Fault;
pub use inputs::Input;
pub use reader::read;

#[cfg(test)]
mod tests;
