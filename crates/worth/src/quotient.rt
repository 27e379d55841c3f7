// A worth before and after rounding.

ghost use Rattle.std.specs.Prelude.{◌≡◌, ◌<◌};
ghost use Rattle.worth.specs.Quotients.{◌over◌ as over_of, rounded_down as rounded_down_of};

// A worth before it is rounded: numerator ÷ divisor, in cents.
#[derive(Clone, Copy)]
pub(crate) struct Quotient {
    pub(crate) numerator: u64,
    pub(crate) divisor: u64,
}

impl Quotient {
    // The quotient in whole cents.
    pub(crate) fn rounded_down(self) -> u64
        requires { 0 < self.divisor }
        ensures { result ≡ rounded_down_of self }
    {
        self.numerator / self.divisor
    }
}

// A quotient from its two parts.
pub(crate) fn over(numerator: u64, divisor: u64) -> Quotient
    ensures { result ≡ over_of numerator divisor }
{
    Quotient { numerator, divisor }
}
