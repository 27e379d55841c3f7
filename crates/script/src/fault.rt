// Why a script is not read.
ghost use Rattle.std.specs.Prelude.{◌≡◌, Some};
ghost use Rattle.script.specs.Messages.{message};
ghost use Rattle.script.specs.declared.fault.Fault.TheVariants.{Memory};

use std::alloc::{AllocError, AllocFailed};
use std::fmt;

#[derive(Clone, Copy, Debug, PartialEq)]
pub enum Fault {
    // There is not enough memory.
    Memory,
    // This line, counted from 1, is no call.
    NoCall(u64),
}

// Kept: tried with thiserror's derive: the clauses of `read` tell the faults apart, and a derived conversion promises nothing of the fault that it gives.
impl From<AllocError> for Fault {
    ghost from_gives = { λ _ r. r ≡ Memory };

    fn from(_e: AllocError) -> Fault {
        Fault::Memory
    }
}

impl<T: Drop> From<AllocFailed<T>> for Fault {
    ghost from_gives = { λ _ r. r ≡ Memory };

    fn from(_e: AllocFailed<T>) -> Fault {
        Fault::Memory
    }
}

impl fmt::Display for Fault {
    ghost output = { λ fault. Some (message fault) };

    fn fmt<W: fmt::Write>(&self, f: &mut fmt::Formatter<W>) -> fmt::Result {
        match self {
            Fault::Memory => write!(f, "there is not enough memory"),
            Fault::NoCall(number) => write!(f, "line {number} is no call"),
        }
    }
}
