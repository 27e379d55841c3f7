// What a weight list refuses.
ghost use Rattle.std.specs.Prelude.{◌≡◌};
ghost use Rattle.prorating.specs.Weights.{number};

#[derive(Clone, Copy, Debug, PartialEq)]
pub enum Refusal {
    // A place is none of 1 to 48.
    Place,
    // The total would pass the limit.
    Total,
}

// The refusal's number, as in docs/REFUSALS.md.
impl From<Refusal> for u8 {
    ghost from_gives = { λ refusal n. n ≡ number refusal };

    fn from(refusal: Refusal) -> u8 {
        match refusal {
            Refusal::Place | Refusal::Total => 2,
        }
    }
}
