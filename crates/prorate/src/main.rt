// Shares a pot over weights by both rules, and prints the shares side by side.

#![tactic(auto)]

mod table;
#[cfg(test)]
mod tests;

use inputs::read_at_most;
use prorate_input::{Fault, Input, read};
use prorating::refusal::Refusal;
use prorating::weights::{LIMIT, PLACES, Weights};
use std::io;
use std::process::ExitCode;
use table::{Table, Unshared};
use thiserror::Error;

// The longest input that is read, in bytes.
const LONGEST: usize = 65_536;

// Why nothing is printed.
#[derive(Debug, Drop, Error)]
enum Failure {
    #[error("the input cannot be read, or the output cannot be written")]
    Io(#[from] io::Error),
    #[error("the input is longer than {longest} bytes", longest = LONGEST)]
    TooLong,
    #[error(transparent)]
    Input(#[from] Fault),
    #[error("there are more than {places} weights", places = PLACES)]
    TooManyWeights,
    #[error("the weights add up to more than {limit}", limit = LIMIT)]
    WeightsTooLarge,
    #[error(transparent)]
    Unshared(#[from] Unshared),
}

// The weights are put at places 1, 2 and so on.
// Kept: no plainer by `#[from]`, which gives one variant, where the two refusals have messages of their own.
impl From<Refusal> for Failure {
    fn from(refusal: Refusal) -> Failure {
        match refusal {
            Refusal::Place => Failure::TooManyWeights,
            Refusal::Total => Failure::WeightsTooLarge,
        }
    }
}

fn input(rt: &HostRuntime) -> Result<Input, Failure> {
    let bytes = read_at_most(rt.alloc(), rt.stdin(), LONGEST)?.ok_or(Failure::TooLong)?;
    Ok(read(&bytes)?)
}

// Kept: printed here, since a struct with a Display would be made for these lines alone.
// A line for each weight: its number, the weight, and its share by each rule; then the totals.
fn print(rt: &HostRuntime, input: &Input, weights: &Weights, table: &Table) -> io::Result<()> {
    let shares = table.running.shares.iter().zip(&table.largest.shares);
    let lines = input.weights().iter().zip(shares);
    for (number, (weight, (running, largest))) in (1..=PLACES).zip(lines) {
        println!(rt; "{number} {weight} {running} {largest}")?;
    }
    let total = weights.total();
    let running = table.running.total;
    let largest = table.largest.total;
    println!(rt; "total {total} {running} {largest}")
}

fn run(rt: &HostRuntime) -> Result<(), Failure> {
    let input = input(rt)?;
    let weights = Weights::of(input.weights())?;
    let table = Table::of(input.pot(), &weights)?;
    print(rt, &input, &weights, &table)?;
    Ok(())
}

// Kept: the same few lines stand in `replay`; a function of both would take the name and the outcome of `run`, and be no shorter.
fn main(rt: HostRuntime) -> io::Result<ExitCode> {
    match run(&rt) {
        Ok(()) => Ok(ExitCode::SUCCESS),
        Err(failure) => {
            eprintln!(rt; "prorate: {failure}")?;
            Ok(ExitCode::FAILURE)
        }
    }
}
