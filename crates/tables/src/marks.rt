// Which of the companies are marked, as registered or as metered.
ghost use Rattle.std.specs.Prelude.{◌≡◌, true, false, length, replicate};
ghost use Rattle.numbered.specs.Entries.{entry, with_entry};

use numbered::{entry_of, set_entry};
use payers::base::COMPANIES;

// A mark for each of the companies 1 to 32.
#[derive(Clone, Copy)]
pub struct Marks {
    at: [bool; COMPANIES],
    ghost long: { length at ≡ 32 },
}

impl Marks {
    // No company is marked.
    pub fn none() -> Marks
        ensures { result.at ≡ replicate 32 false }
    {
        Marks {
            at: [false; COMPANIES],
        }
    }

    // Whether a company is marked; not for any other number.
    pub fn has(&self, company: u64) -> bool
        ensures { result ≡ entry 32 false self.now.at company }
    {
        entry_of(&self.at, company, false)
    }

    // Marks a company; nothing for any other number.
    pub fn put(&mut self, company: u64)
        ensures { self.new.at ≡ with_entry 32 self.old.at company true }
    {
        set_entry(&mut self.at, company, true);
    }
}
