// The two families of ancillary service.

ghost use Rattle.std.specs.Prelude.{◌≡◌, ok_or};
ghost use Rattle.worth.specs.Families.{numbered, number as number_of};

// What a service controls. Each family has its own standard of performance.
#[derive(Clone, Copy, PartialEq, Eq, Debug)]
pub enum Family {
    Frequency = 1,
    Voltage = 2,
}

// What is answered for a number that is no family's.
#[derive(Clone, Copy, PartialEq, Eq, Debug)]
pub struct NoFamily;

// The family of a number: 1 is frequency, 2 is voltage, and there is no other.
impl TryFrom<u64> for Family {
    type Error = NoFamily;

    ghost try_from_gives = { λ number outcome. outcome ≡ ok_or (numbered number) (record {}) };

    fn try_from(number: u64) -> Result<Family, NoFamily> {
        match number {
            1 => Ok(Family::Frequency),
            2 => Ok(Family::Voltage),
            _ => Err(NoFamily),
        }
    }
}

// The number of a family.
impl From<Family> for u64 {
    ghost from_gives = { λ family number. number ≡ number_of family };

    fn from(family: Family) -> u64 {
        family as u64
    }
}
