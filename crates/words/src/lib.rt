// The words of a text: the number that a field writes, and where a line or a field ends.

#![tactic(auto)]

ghost use Rattle.std.specs.Prelude.{◌≡◌, ◌==◌, ◌+◌, ◌-◌, ◌*◌, ◌^◌, ◌<◌, cond, Some, None, position};
ghost use Rattle.std.specs.Char.{is_ascii_digit};
ghost use Rattle.words.specs.Words.{number_form, number_of, split, pieces};

// Whether a field is as long as a number, and has no zero before another byte.
fn has_number_form(field: &[u8]) -> bool
    ensures { result ≡ number_form field.now }
{
    match field {
        [] => false,
        [_] => true,
        [first, ..] => *first != b'0' && field.len() <= 11,
    }
}

// The number whose digits are those of `n` and then this one, if it is one.
fn with_digit(n: u64, digit: &u8) -> Option<u64>
    requires { n < 10 ^ 11 }
    ensures { result ≡ cond (is_ascii_digit digit.now) (Some (n * 10 + (digit.now - 48))) None }
{
    if !digit.is_ascii_digit() {
        return None;
    }
    Some(n * 10 + u64::from(*digit - b'0'))
}

// The number that a field writes, if it writes one.
pub fn number(field: &[u8]) -> Option<u64>
    ensures { result ≡ number_of field.now }
{
    if !has_number_form(field) {
        return None;
    }
    field.iter().try_fold(0, with_digit)
}

// Where the first `mark` stands, if there is one.
fn first(s: &[u8], mark: u8) -> Option<usize>
    ensures { result ≡ position (λ b. b == mark) s.now }
{
    s.iter().position(|b| *b == mark)
}

// What stands before the first `mark`, and what follows it where there is one.
pub fn cut(s: &[u8], mark: u8) -> (&[u8], Option<&[u8]>)
    ensures { pieces mark result ≡ split mark s.now }
{
    match first(s, mark) {
        Some(i) => (&s[..i], Some(&s[i + 1..])),
        None => (s, None),
    }
}
