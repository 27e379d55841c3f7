// The words that lines begin with.
ghost use Rattle.std.specs.Prelude.{◌≡◌};
ghost use Rattle.script.specs.Words.{word_of};

// The first field of a line whose other fields are numbers.
#[derive(Clone, Copy)]
pub enum Word {
    Open,
    Company,
    Replace,
    Unit,
    Performance,
    Line,
    Installation,
    Meter,
    Point,
    Shed,
    Reopen,
    Confirm,
}

// The word that a field is, if it is one.
pub(crate) fn read_word(field: &[u8]) -> Option<Word>
    ensures { result ≡ word_of field.now }
{
    match field {
        b"open" => Some(Word::Open),
        b"company" => Some(Word::Company),
        b"replace" => Some(Word::Replace),
        b"unit" => Some(Word::Unit),
        b"performance" => Some(Word::Performance),
        b"line" => Some(Word::Line),
        b"installation" => Some(Word::Installation),
        b"meter" => Some(Word::Meter),
        b"point" => Some(Word::Point),
        b"shed" => Some(Word::Shed),
        b"reopen" => Some(Word::Reopen),
        b"confirm" => Some(Word::Confirm),
        _ => None,
    }
}
