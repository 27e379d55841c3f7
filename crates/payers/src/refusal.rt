// What the payer bases refuse.
ghost use Rattle.std.specs.Prelude.{◌≡◌};
ghost use Rattle.payers.specs.Refusals.{number};

#[derive(Clone, Copy, Debug, PartialEq)]
pub enum Refusal {
    // A figure, or a company's number, is outside its limits.
    Limits = 2,
    // The two are one company, either is replaced already, or the old one takes part for another.
    Barred = 6,
}

// The refusal's number, as in docs/REFUSALS.md.
impl From<Refusal> for u8 {
    ghost from_gives = { λ refusal n. n ≡ number refusal };

    fn from(refusal: Refusal) -> u8 {
        refusal as u8
    }
}
