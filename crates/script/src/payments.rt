// The last line of a script may name the rule of the payments: `payments running` or `payments largest`.
ghost use Rattle.std.specs.Prelude.{◌≡◌};
ghost use Rattle.script.specs.Payments.{without_end as without_end_of, is_last as is_last_of, payments_rule as payments_rule_of, names_rule as names_rule_of, lines_of_calls as lines_of_calls_of};

use prorating::built_in::BuiltIn;

// The bytes without the line end at their end.
fn without_end(bytes: &[u8]) -> &[u8]
    ensures { result.now ≡ without_end_of bytes.now }
{
    bytes.strip_suffix(b"\n").unwrap_or(bytes)
}

// Whether this is the last line of a text.
fn is_last(text: &[u8], line: &[u8]) -> bool
    ensures { result ≡ is_last_of text.now line.now }
{
    text.strip_suffix(line)
        .is_some_and(|before| before.is_empty() || before.ends_with(b"\n"))
}

// The rule of the payments: running, where the last line does not say another.
pub fn payments_rule(bytes: &[u8]) -> BuiltIn
    ensures { result ≡ payments_rule_of bytes.now }
{
    if is_last(without_end(bytes), b"payments largest") {
        BuiltIn::Largest
    } else {
        BuiltIn::Running
    }
}

// Whether the last line names the rule of the payments.
fn names_rule(bytes: &[u8]) -> bool
    ensures { result ≡ names_rule_of bytes.now }
{
    let text = without_end(bytes);
    is_last(text, b"payments running") || is_last(text, b"payments largest")
}

// The lines before the one that names the rule of the payments; all lines where there is none.
pub fn lines_of_calls(bytes: &[u8]) -> &[u8]
    ensures { result.now ≡ lines_of_calls_of bytes.now }
{
    if !names_rule(bytes) {
        return bytes;
    }
    let text = without_end(bytes);
    // each of the two lines has 16 bytes
    &text[0..text.len() - 16]
}
