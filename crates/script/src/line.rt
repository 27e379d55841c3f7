// The call that a line says.
ghost use Rattle.std.specs.Prelude.{◌≡◌, IfOk, vec_items};
ghost use Rattle.std.specs.Option.{option_map};
ghost use Rattle.words.specs.Words.{split};
ghost use Rattle.month.specs.Meant.{meant};
ghost use Rattle.script.specs.Texts.{Exactly};
ghost use Rattle.script.specs.Lines.{low_kind, high_kind, line_of, lined, shed_of, posted, staged, call_of, settled, by_word, said_of};

use crate::number::{paired, read_numbers};
use crate::word::{Word, read_word};
use month::calls::{Call, Post, StageCall, Terms};
use payers::meters::Meter;
use payers::readings::Reading;
use prorating::built_in::BuiltIn;
use std::alloc::{AllocError, Global};
use tables::units::Place;
use words::cut;
use worth::{Installation, Line, Performance, Shedding};

// A call of a script: a shedding owns its readings, and a month is settled by a built-in rule.
pub type Said = Call<Vec<Reading>, BuiltIn>;

// The line of a kind of 1 to 4 with these figures, if the kind has so many.
// Kept: a kind or a word and its numbers are two parameters, here and below, since they are matched as a pair and not used after.
fn low_kind(kind: u64, figures: &[u64]) -> Option<Line>
    ensures { result ≡ low_kind kind figures.now }
{
    match (kind, figures) {
        (1, &[awarded_value, reserve]) => Some(Line::UpwardAvailability {
            awarded_value,
            reserve,
        }),
        (2, &[marginal_cost, energy]) => Some(Line::UpwardActivation {
            marginal_cost,
            energy,
        }),
        (3, &[awarded_value, reserve, seconds]) => Some(Line::Downward {
            awarded_value,
            reserve,
            seconds,
        }),
        (4, &[variable_cost, marginal_cost, energy]) => Some(Line::OverCost {
            variable_cost,
            marginal_cost,
            energy,
        }),
        _ => None,
    }
}

// The line of a kind of 5 to 8 with these figures, if the kind has so many.
// Kept: in two halves, since one match over the eight kinds is over forty lines; neither half needs a figure of the other.
fn high_kind(kind: u64, figures: &[u64]) -> Option<Line>
    ensures { result ≡ high_kind kind figures.now }
{
    match (kind, figures) {
        (5, &[variable_cost, marginal_cost, full_load_energy, energy]) => Some(Line::Opportunity {
            variable_cost,
            marginal_cost,
            full_load_energy,
            energy,
        }),
        (6, &[fuel_price, dispatched, full_load, energy]) => Some(Line::ExtraFuel {
            fuel_price,
            dispatched_consumption: dispatched,
            full_load_consumption: full_load,
            energy,
        }),
        (7, &[operation_price, dispatched, full_load, energy]) => Some(Line::ExtraResource {
            operation_price,
            dispatched_efficiency: dispatched,
            full_load_efficiency: full_load,
            energy,
        }),
        (8, &[marginal_cost, withdrawn, withdrawn_without]) => Some(Line::ExtraWithdrawal {
            marginal_cost,
            withdrawn,
            withdrawn_without,
        }),
        _ => None,
    }
}

// The hourly line of a kind with these figures, if there is one.
fn hourly(kind: u64, figures: &[u64]) -> Option<Line>
    ensures { result ≡ line_of kind figures.now }
{
    low_kind(kind, figures).or_else(|| high_kind(kind, figures))
}

// The call of an hourly line.
fn line(numbers: &[u64]) -> Option<Said>
    ensures { option_map (meant vec_items) result ≡ lined numbers.now }
{
    let &[unit, hour, kind, family, ref figures @ ..] = numbers else {
        return None;
    };
    let line = hourly(kind, figures)?;
    Some(Call::Post(Post::Line {
        unit,
        hour,
        family,
        line,
    }))
}

// The call of a shedding: the count is that of the pairs after it.
fn shed(heap: Global, numbers: &[u64]) -> Result<Option<Said>, AllocError>
    ensures { IfOk result (λ o. option_map (meant vec_items) o ≡ shed_of numbers.now) }
{
    let &[point, kw, seconds, zone, count, ref pairs @ ..] = numbers else {
        return Ok(None);
    };
    if pairs.len() % 2 != 0 || pairs.len() as u64 / 2 != count {
        return Ok(None);
    }
    let readings = paired(heap, pairs)?;
    Ok(Some(Call::Post(Post::Shed {
        point,
        shedding: Shedding { kw, seconds },
        zone,
        readings,
    })))
}

// What a word posts that takes a fixed count of numbers.
fn post(word: Word, numbers: &[u64]) -> Option<Said>
    ensures { option_map (meant vec_items) result ≡ posted word numbers.now }
{
    let post = match (word, numbers) {
        (Word::Company, &[number]) => Post::Company { number },
        (Word::Replace, &[old, new]) => Post::Replace { old, new },
        (Word::Unit, &[number, owner, zone]) => Post::Unit {
            number,
            place: Place { owner, zone },
        },
        (Word::Performance, &[unit, family, unavailable, activation]) => Post::Performance {
            unit,
            family,
            performance: Performance {
                unavailable,
                activation,
            },
        },
        (Word::Installation, &[unit, family, annuity, maintenance]) => Post::Installation {
            unit,
            family,
            installation: Installation {
                annuity,
                maintenance,
            },
        },
        (Word::Meter, &[company, withdrawals, injections]) => Post::Meter {
            company,
            meter: Meter {
                withdrawals,
                injections,
            },
        },
        (Word::Point, &[number, supplier]) => Post::Point { number, supplier },
        _ => return None,
    };
    Some(Call::Post(post))
}

// The call of a word that moves the stage.
fn stage(word: Word, numbers: &[u64]) -> Option<Said>
    ensures { option_map (meant vec_items) result ≡ staged word numbers.now }
{
    let stage = match (word, numbers) {
        (Word::Open, &[period, hours, failure_cost, count, seconds]) => StageCall::Open(Terms {
            period,
            hours,
            failure_cost,
            count,
            seconds,
        }),
        (Word::Reopen, &[]) => StageCall::Reopen,
        (Word::Confirm, &[]) => StageCall::Confirm,
        _ => return None,
    };
    Some(Call::Stage(stage))
}

// The call of a word with these numbers, if they are as many as it takes.
fn call(heap: Global, word: Word, numbers: &[u64]) -> Result<Option<Said>, AllocError>
    ensures { IfOk result (λ o. option_map (meant vec_items) o ≡ call_of word numbers.now) }
{
    // Kept: a match on the word that was read; each arm is another function's line, and a table of functions would be no plainer.
    match word {
        Word::Line => Ok(line(numbers)),
        Word::Shed => shed(heap, numbers),
        Word::Open | Word::Reopen | Word::Confirm => Ok(stage(word, numbers)),
        _ => Ok(post(word, numbers)),
    }
}

// The call of a line whose first field is a word and whose other fields are numbers.
fn read_by_word(heap: Global, line: &[u8]) -> Result<Option<Said>, AllocError>
    ensures { IfOk result (λ o. option_map (meant vec_items) o ≡ by_word (split 32 line.now)) }
{
    let (first, rest) = cut(line, b' ');
    let Some(word) = read_word(first) else {
        return Ok(None);
    };
    let Some(numbers) = read_numbers(heap, rest)? else {
        return Ok(None);
    };
    call(heap, word, &numbers)
}

// The rule that a line settles by, if it is such a line.
fn settle_rule(line: &[u8]) -> Option<BuiltIn>
    ensures { result ≡ settled line.now }
{
    if line == b"settle running".as_slice() {
        Some(BuiltIn::Running)
    } else if line == b"settle largest".as_slice() {
        Some(BuiltIn::Largest)
    } else {
        None
    }
}

// The call that a line says, or None where it is no call. A line is a call exactly where it is written as one, and the answer is this call.
pub fn read_line(heap: Global, line: &[u8]) -> Result<Option<Said>, AllocError>
    ensures value { IfOk result (λ o. option_map (meant vec_items) o ≡ said_of line.now) }
    ensures exact { IfOk result (λ o. Exactly line.now (option_map (meant vec_items) o)) }
{
    match settle_rule(line) {
        Some(rule) => Ok(Some(Call::Stage(StageCall::Settle(rule)))),
        None => read_by_word(heap, line),
    }
}
