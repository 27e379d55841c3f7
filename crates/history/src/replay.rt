// A list of calls on a blank month.
ghost use Rattle.std.specs.Prelude.{◌≡◌, map};
ghost use Rattle.month.specs.Meant.{meant};
ghost use Rattle.history.specs.Law.{answer_number as answer_number_of, Replayed};

use clearing::payments::ENTRIES;
use month::calls::Call;
use month::figures::Outcome;
use month::month::Month;
use month::refusal::Refusal;
use payers::readings::Reading;
use prorating::rule::Rule;
use std::convert::AsSlice;

// The number of an answer: 0 where the call is admitted, else the refusal's.
fn answer_number(answer: Result<(), Refusal>) -> u8
    ensures { result ≡ answer_number_of answer }
{
    answer.map_or_else(u8::from, |()| 0)
}

// Makes the calls one after the other on a blank month and notes the number of each answer; then asks for the payments by a rule, and for the figures
// of all companies and the charges of all pots. Too short a list of answers, or too short a table, is refused.
pub fn replay<T: AsSlice<Reading>, R: Rule, P: Rule>(
    calls: &[Call<T, R>],
    answers: &mut [u8],
    rule: &P,
    table: &mut [u64],
) -> Result<Outcome, Refusal>
    ensures { Replayed R.Rule.shares (P.Rule.shares rule.now) (map (meant T.items) calls.now) answers.old answers.new table.old table.new result }
{
    if answers.len() < calls.len() {
        return Err(Refusal::Short);
    }
    if table.len() < ENTRIES {
        return Err(Refusal::Short);
    }
    let mut month = Month::blank();
    // Kept: the index is the answer's place; in a zip with `iter_mut` (tried) an invariant has no name for the elements that are written.
    for (i, call) in calls.iter().enumerate() {
        answers[i] = answer_number(month.apply(call));
    }
    month.payments(rule, table)?;
    month.outcome()
}
