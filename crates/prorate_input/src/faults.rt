// Why an input is refused.
ghost use Rattle.std.specs.Prelude.{Some};
ghost use Rattle.prorate_input.specs.Messages.{message};

use std::fmt;

#[derive(Clone, Copy, Debug, PartialEq)]
pub enum Fault {
    // The first line is not a number.
    BadPot,
    // The first line has no line end.
    NoSecondLine,
    // This weight, counted from 1, is not a number.
    BadWeight(u64),
    // There are more than 48 weights.
    TooManyWeights,
    // There are bytes after the second line.
    BytesAfterEnd,
}

// Kept: written by hand, since `output` promises each message, and thiserror's derive promises nothing of its text.
impl fmt::Display for Fault {
    ghost output = { λ fault. Some (message fault) };

    fn fmt<W: fmt::Write>(&self, f: &mut fmt::Formatter<W>) -> fmt::Result {
        match self {
            Fault::BadPot => write!(
                f,
                "the pot, on the first line, is not a number: write 0, or up to 11 digits of which the first is not 0"
            ),
            Fault::NoSecondLine => write!(
                f,
                "there is no second line: write the weights there, with one space between each two"
            ),
            Fault::BadWeight(k) => write!(
                f,
                "weight {k} is not a number: write 0, or up to 11 digits of which the first is not 0, with one space between two weights"
            ),
            Fault::TooManyWeights => write!(f, "there are more than 48 weights"),
            Fault::BytesAfterEnd => write!(f, "there is something after the second line"),
        }
    }
}
