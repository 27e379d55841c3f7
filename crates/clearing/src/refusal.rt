// Why no payments are written.
ghost use Rattle.std.specs.Prelude.{◌≡◌};
ghost use Rattle.clearing.specs.Refusals.{number as number_of};

#[derive(Clone, Copy, Debug, PartialEq)]
pub enum Refusal {
    // The table has fewer than 1,024 entries.
    Short = 10,
    // All dues together are above the limit.
    Total = 2,
}

// The refusal's number, as in docs/REFUSALS.md.
impl From<Refusal> for u8 {
    ghost from_gives = { λ refusal n. n ≡ number_of refusal };

    fn from(refusal: Refusal) -> u8 {
        refusal as u8
    }
}
