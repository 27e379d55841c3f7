// The reader of a whole input.
ghost use Rattle.std.specs.Prelude.{◌≡◌};
ghost use Rattle.words.specs.Words.{following};
ghost use Rattle.prorate_input.specs.Reading.{with_weights, at_end, reading};
ghost use Rattle.prorate_input.specs.Meaning.{meaning};
ghost use Rattle.prorate_input.specs.Texts.{Exactly, Limited};

use crate::faults::Fault;
use crate::inputs::Input;
use words::{cut, number};

// The pot, with the weights that the second line writes.
fn read_weights(pot: u64, line: &[u8]) -> Result<Input, Fault>
    ensures { meaning result ≡ with_weights pot line.now }
{
    let mut input = Input::without_weights(pot);
    for field in line.split(|b| *b == b' ') {
        if input.is_full() {
            return Err(Fault::TooManyWeights);
        }
        let place = input.count as u64 + 1;
        input.add(number(field).ok_or(Fault::BadWeight(place))?);
    }
    Ok(input)
}

// Whether nothing follows the second line.
fn is_end(after: Option<&[u8]>) -> bool
    ensures { result ≡ at_end (following 10 after.entry) }
{
    after.is_none_or(|more| more.is_empty())
}

// The pot and the weights that an input gives.
fn read_lines(bytes: &[u8]) -> Result<Input, Fault>
    ensures { meaning result ≡ reading bytes.now }
{
    let (first, rest) = cut(bytes, b'\n');
    let pot = number(first).ok_or(Fault::BadPot)?;
    let (second, after) = cut(rest.ok_or(Fault::NoSecondLine)?, b'\n');
    let input = read_weights(pot, second)?;
    if !is_end(after) {
        return Err(Fault::BytesAfterEnd);
    }
    Ok(input)
}

// The pot and the weights that an input gives, or the first fault in reading order. An input is accepted exactly where it writes a
// pot and weights, and the answer is these; `limited` repeats for callers that they are within their limits.
pub fn read(bytes: &[u8]) -> Result<Input, Fault>
    ensures value { meaning result ≡ reading bytes.now }
    ensures exact { Exactly bytes.now (meaning result) }
    ensures limited { Limited (meaning result) }
{
    read_lines(bytes)
}
