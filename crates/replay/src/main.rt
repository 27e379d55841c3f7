// Makes the calls of a script on a month, and prints the answer to each, and then the figures, the charges and the payments.

#![tactic(auto)]

mod report;
#[cfg(test)]
mod tests;

use clearing::payments::ENTRIES;
use history::replay::replay;
use inputs::read_at_most;
use month::figures::Outcome;
use report::{Refused, charges, nets, payments};
use script::{Fault, lines_of_calls, payments_rule};
use std::alloc::AllocError;
use std::fmt::Display;
use std::io;
use std::process::ExitCode;
use thiserror::Error;

// The longest script that is read, in bytes.
const LONGEST: usize = 4_194_304;

// Why nothing is printed.
#[derive(Debug, Drop, Error)]
enum Failure {
    #[error("the script cannot be read, or the answers cannot be written")]
    Io(#[from] io::Error),
    #[error("the script is longer than {longest} bytes", longest = LONGEST)]
    TooLong,
    #[error("{0}")]
    Script(#[from] Fault),
    #[error("there is not enough memory")]
    Memory(#[from(alloc)] AllocError),
}

fn input(rt: &HostRuntime) -> Result<Vec<u8>, Failure> {
    read_at_most(rt.alloc(), rt.stdin(), LONGEST)?.ok_or(Failure::TooLong)
}

// A line for each call: its number and its answer.
// Kept: printed here, as the title below, since a struct with a Display would be made for this one line alone.
fn print_answers(rt: &HostRuntime, answers: &[u8]) -> io::Result<()> {
    let count = answers.len();
    println!(rt; "answers {count}")?;
    for (number, answer) in (1..=count).zip(answers) {
        println!(rt; "{number} {answer}")?;
    }
    Ok(())
}

// A title with the count of the lines, and the lines.
fn print_lines<T: Display>(rt: &HostRuntime, title: &str, lines: &[T]) -> io::Result<()> {
    let count = lines.len();
    println!(rt; "{title} {count}")?;
    for line in lines {
        println!(rt; "{line}")?;
    }
    Ok(())
}

fn print_outcome(
    rt: &HostRuntime,
    outcome: &Outcome,
    table: &[u64; ENTRIES],
) -> Result<(), Failure> {
    print_lines(rt, "nets", &nets(rt.alloc(), &outcome.figures)?)?;
    print_lines(rt, "charges", &charges(rt.alloc(), &outcome.charges)?)?;
    print_lines(rt, "payments", &payments(rt.alloc(), table)?)?;
    Ok(())
}

fn run(rt: &HostRuntime) -> Result<(), Failure> {
    let bytes = input(rt)?;
    let script = script::read(rt.alloc(), lines_of_calls(&bytes))?;
    let calls = script.calls();
    let mut answers = vec![in rt.alloc(); 0; calls.len()]?;
    let mut table = [0; ENTRIES];
    let outcome = replay(calls, &mut answers, &payments_rule(&bytes), &mut table);
    print_answers(rt, &answers)?;
    match outcome {
        Ok(outcome) => print_outcome(rt, &outcome, &table)?,
        Err(refusal) => println!(rt; "{}", Refused(refusal))?,
    }
    Ok(())
}

// Kept: the same few lines stand in `prorate`; a function of both would take the name and the outcome of `run`, and be no shorter.
fn main(rt: HostRuntime) -> io::Result<ExitCode> {
    match run(&rt) {
        Ok(()) => Ok(ExitCode::SUCCESS),
        Err(failure) => {
            eprintln!(rt; "replay: {failure}")?;
            Ok(ExitCode::FAILURE)
        }
    }
}
