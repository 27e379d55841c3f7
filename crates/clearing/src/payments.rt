// The payment table.
ghost use Rattle.std.specs.Prelude.{◌≡◌, ◌+◌, ◌*◌, ◌<◌, ◌≤◌, length, sum, nat_le};
ghost use Rattle.std.proofs.Math.Seq.{paste};
ghost use Rattle.prorating.specs.Weights.{limit, padded};
ghost use Rattle.clearing.specs.Clearing.{Clears};
ghost use Rattle.clearing.specs.Payments.{less as less_of, pay_answer, pay_after};

use crate::refusal::Refusal;
use payers::base::COMPANIES;
use prorating::rule::Rule;
use prorating::weights::{PLACES, Weights};
use std::array;

// How many entries the payments take: one for each pair of companies.
pub const ENTRIES: usize = 1_024;

// What is still due to each when something was given to each.
fn less(due: &[u64; PLACES], given: &[u64; PLACES]) -> [u64; PLACES]
    ensures { result ≡ less_of due.now given.now }
{
    array::from_fn(|k| due[k].saturating_sub(given[k]))
}

// The dues at the places of a rule.
fn places(dues: &[u64; COMPANIES]) -> [u64; PLACES]
    ensures { result ≡ padded dues.now }
{
    let mut places = [0; PLACES];
    places[..COMPANIES].copy_from_slice(dues);
    places
}

// The weight list of what is still due.
fn weight_list(due: &[u64; PLACES]) -> Weights
    requires { sum due.now ≤ limit }
    ensures { result.at ≡ due.now }
{
    Weights::of(due).unwrap()
}

// Whether all dues together are within the limit.
fn are_within_limit(dues: &[u64; COMPANIES]) -> bool
    ensures { result ≡ nat_le (sum dues.now) limit }
{
    Weights::of(dues).is_ok()
}

// Writes what one company pays.
fn write_row(table: &mut [u64], from: usize, row: &[u64; PLACES])
    requires small { from < 32 }
    requires room { from * 32 + 32 ≤ length table.old }
    ensures { table.new ≡ paste table.old (from * 32) row.now 32 }
{
    table[from * 32..from * 32 + 32].copy_from_slice(&row[..COMPANIES]);
}

// Writes the payments into the first 1,024 entries of a table: debtors in rising number, each debt spread by the rule over what is still due to each
// creditor. Where all debts are all dues, the table clears.
pub fn pay<R: Rule>(
    debts: &[u64; COMPANIES],
    dues: &[u64; COMPANIES],
    rule: &R,
    table: &mut [u64],
) -> Result<(), Refusal>
    ensures answered { result ≡ pay_answer dues.now table.old }
    ensures written { table.new ≡ pay_after (R.Rule.shares rule.now) debts.now dues.now table.old }
    ensures clears { 1_024 ≤ length table.old → sum dues.now ≤ limit → sum debts.now ≡ sum dues.now → Clears debts.now dues.now table.old table.new }
{
    if table.len() < ENTRIES {
        return Err(Refusal::Short);
    }
    if !are_within_limit(dues) {
        return Err(Refusal::Total);
    }
    let mut due = places(dues);
    // Kept: the index says where the row goes.
    for (from, debt) in debts.iter().enumerate() {
        let row = rule.prorate(*debt, &weight_list(&due));
        write_row(table, from, &row);
        due = less(&due, &row);
    }
    Ok(())
}
