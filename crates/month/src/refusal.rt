// What a month refuses.
ghost use Rattle.std.specs.Prelude.{◌≡◌};
ghost use Rattle.month.specs.Refusals.{number as number_of, of_payers, of_clearing};

#[derive(Clone, Copy, Debug, PartialEq)]
pub enum Refusal {
    // The stage does not allow the call.
    Stage = 1,
    // A figure, kind, family, pot or count is outside its limits.
    Limits = 2,
    // A company, unit or point is not registered.
    Unregistered = 3,
    // Registered or given already; a unit twice in the readings.
    Again = 4,
    // A 49th unit; a 10,001st shedding; a 17th pot of sheddings.
    Full = 5,
    // A replacement is barred.
    Barred = 6,
    // A line that needs a performance of its unit and family, without one.
    NoPerformance = 7,
    // All credits together would pass the limit.
    Credits = 8,
    // A pot above 0 whose weights total 0.
    NoWeight = 9,
    // The table handed in is too short.
    Short = 10,
}

// The refusal's number, as in docs/REFUSALS.md.
impl From<Refusal> for u8 {
    ghost from_gives = { λ refusal n. n ≡ number_of refusal };

    fn from(refusal: Refusal) -> u8 {
        refusal as u8
    }
}

// What the payer bases refuse, as the month says it.
impl From<payers::refusal::Refusal> for Refusal {
    ghost from_gives = { λ refusal r. r ≡ of_payers refusal };

    fn from(refusal: payers::refusal::Refusal) -> Refusal {
        match refusal {
            payers::refusal::Refusal::Limits => Refusal::Limits,
            payers::refusal::Refusal::Barred => Refusal::Barred,
        }
    }
}

// What the payment table refuses, as the month says it.
impl From<clearing::refusal::Refusal> for Refusal {
    ghost from_gives = { λ refusal r. r ≡ of_clearing refusal };

    fn from(refusal: clearing::refusal::Refusal) -> Refusal {
        match refusal {
            clearing::refusal::Refusal::Short => Refusal::Short,
            clearing::refusal::Refusal::Total => Refusal::Limits,
        }
    }
}
