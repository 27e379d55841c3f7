// Replacement: who takes part for whom in the month, and the layer that moves the weights of any base to those that take part.
ghost use Rattle.std.specs.Prelude.{◌≡◌, ℕ, ◌<◌, length};
ghost use Rattle.std.specs.List.{range_with_len};
ghost use Rattle.payers.specs.Replacements.{participant_of, is_replaced as is_replaced_in, takes_part_for, is_substitute as is_substitute_in, is_barred as is_barred_in, TakesPart, replace_answer, replace_after, part_moved, moved, Moves};
ghost use Rattle.payers.specs.Moved.{moved_based};

use crate::base::{COMPANIES, PayerBase};
use crate::refusal::Refusal;
use numbered::{entry_of, is_numbered, set_entry};
use std::array;

// For each company the one that takes part for it: itself where it is not replaced. The type keeps that those who take part are
// companies, and are not themselves replaced.
#[derive(Clone, Copy)]
pub struct Replacements {
    participants: [u64; COMPANIES],
    ghost long: { length participants ≡ 32 },
    ghost each: { (k : ℕ) → k < 32 → TakesPart participants k },
}

impl Replacements {
    // Nobody is replaced.
    pub fn none() -> Replacements
        ensures { result.participants ≡ range_with_len 1 32 }
    {
        Replacements {
            participants: array::from_fn(|k| k as u64 + 1),
        }
    }

    // The one that takes part for a company; 0 for a number that is no company's.
    pub fn participant(&self, company: u64) -> u64
        ensures { result ≡ participant_of self.now.participants company }
    {
        entry_of(&self.participants, company, 0)
    }

    // Whether another takes part for a company.
    fn is_replaced(&self, company: u64) -> bool
        ensures { result ≡ is_replaced_in self.now.participants company }
    {
        self.participant(company) != company
    }

    // Whether a company takes part for this other one.
    fn takes_part_for(&self, company: u64, other: u64) -> bool
        ensures { result ≡ takes_part_for self.now.participants company other }
    {
        self.participant(other) == company && other != company
    }

    // Whether a company takes part for some other one.
    fn is_substitute(&self, company: u64) -> bool
        ensures { result ≡ is_substitute_in self.now.participants company }
    {
        (1..=COMPANIES as u64).any(|other| self.takes_part_for(company, other))
    }

    // Whether the new company cannot replace the old one.
    // Kept: two numbers here and at `replace`; a pair would be made at each call and taken apart in its first line.
    fn is_barred(&self, old: u64, new: u64) -> bool
        ensures { result ≡ is_barred_in self.now.participants old new }
    {
        old == new || self.is_replaced(old) || self.is_replaced(new) || self.is_substitute(old)
    }

    // Has one company take part for another from now on.
    pub fn replace(&mut self, old: u64, new: u64) -> Result<(), Refusal>
        ensures answered { result ≡ replace_answer self.old.participants old new }
        ensures after { self.new.participants ≡ replace_after self.old.participants old new }
    {
        if !is_numbered(old, COMPANIES) || !is_numbered(new, COMPANIES) {
            return Err(Refusal::Limits);
        }
        if self.is_barred(old, new) {
            return Err(Refusal::Barred);
        }
        set_entry(&mut self.participants, old, new);
        Ok(())
    }
}

// A base under the month's replacements: the weight of a replaced company counts for the one that takes part for it.
#[derive(Clone, Copy)]
pub struct Replacement<B> {
    base: B,
    replacements: Replacements,
}

impl<B: PayerBase> Replacement<B> {
    // The base under these replacements. The total stays, a replaced company weighs nothing, and a company that has nothing to do
    // with a replacement weighs what it weighed.
    pub fn over(base: B, replacements: Replacements) -> Replacement<B>
        ensures made { (result.base ≡ base) × (result.replacements.participants ≡ replacements.participants) }
        ensures moves { Moves replacements.participants (B.PayerBase.weights base) (moved result.replacements.participants (B.PayerBase.weights result.base)) }
    {
        Replacement { base, replacements }
    }

    // What one company's weight adds to another's: all of it where the other takes part for it, which may be itself.
    fn part(&self, company: u64, one: u64) -> u64
        ensures { result ≡ part_moved self.now.replacements.participants (B.PayerBase.weights self.now.base) company one }
    {
        if self.replacements.participant(one) == company {
            self.base.weight(one)
        } else {
            0
        }
    }
}

impl<B: PayerBase> PayerBase for Replacement<B> {
    ghost weights = { λ s. moved s.replacements.participants (B.PayerBase.weights s.base) };

    ghost based = { λ s.
        let below = B.PayerBase.based s.base in
        let r = s.replacements in
        moved_based r.participants r.each (B.PayerBase.weights s.base) below.long below.light };

    fn weight(&self, company: u64) -> u64 {
        if !is_numbered(company, COMPANIES) {
            return 0;
        }
        (1..COMPANIES as u64 + 1)
            .map(|one| self.part(company, one))
            .sum()
    }
}
