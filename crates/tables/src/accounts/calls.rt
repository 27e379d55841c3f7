// What is asked of the accounts, and what is entered.
// Kept: services as numbers, as said in accounts.rt.
ghost use Rattle.std.specs.Prelude.{◌≡◌, ◌+◌, ◌^◌, ◌<◌, ◌≤◌, true, length, if◌then◌else◌, Some, None, MatchOption, nat_le};
ghost use Rattle.prorating.specs.Weights.{limit};
ghost use Rattle.numbered.specs.Entries.{entry};
ghost use Rattle.tables.specs.Accounts.{nothing_held, pot_at, passes as passes_limit, with_more, is_credited as is_credited_in, has_room as has_room_in, entered, with_pot, shed as shed_in};
ghost use Rattle.tables.specs.Tables.{as_pot, held};

use super::{Accounts, SERVICES, WeightedPot};
use arrayvec::ArrayVec;
use numbered::{entry_of, is_numbered, set_entry};
use payers::base::COMPANIES;
use payers::weights::CompanyWeights;
use prorating::weights::LIMIT;

// Adds cents to the entry of a number; nothing for any other number.
// Kept: a function of its own, as zone.rt of payers has these two lines in place: a public one in numbered would have to ask for room for the sum.
fn add_to<const N: usize>(entries: &mut [u64; N], number: u64, cents: u64)
    requires { entry N 0 entries.old number + cents < 2 ^ 64 }
    ensures { entries.new ≡ with_more N entries.old number cents }
{
    set_entry(entries, number, entry_of(entries, number, 0) + cents);
}

impl Accounts {
    // Nobody earned anything, and all pots are empty.
    pub fn none() -> Accounts
        ensures { held result ≡ nothing_held }
    {
        Accounts {
            earned: [0; COMPANIES],
            services: [0; SERVICES],
            credits: 0,
            sheddings: ArrayVec::new(),
        }
    }

    // Whether so many cents more take all credits past the limit.
    pub fn passes(&self, cents: u64) -> bool
        ensures { result ≡ passes_limit (held self.now) cents }
    {
        cents > LIMIT - self.credits
    }

    // What a company earned; 0 for any other number.
    pub fn earned(&self, company: u64) -> u64
        ensures is { result ≡ entry 32 0 (held self.now).earned company }
        ensures small { result ≤ limit }
    {
        entry_of(&self.earned, company, 0)
    }

    // What the companies earned, as a base.
    pub fn earnings(&self) -> CompanyWeights
        ensures { result.at ≡ (held self.now).earned }
    {
        CompanyWeights::of(&self.earned).unwrap()
    }

    // What the pot of a service has to pay: 1 frequency, 2 voltage, 3 installations; 0 for any other number.
    pub fn service(&self, service: u64) -> u64
        ensures { result ≡ entry 3 0 (held self.now).services service }
    {
        entry_of(&self.services, service, 0)
    }

    // The pot of a shedding, the first at 0; None where there are no more.
    pub fn shedding(&self, index: usize) -> Option<WeightedPot>
        ensures { MatchOption result (pot_at (held self.now).pots index ≡ None) (λ p. pot_at (held self.now).pots index ≡ Some (as_pot p)) }
    {
        self.sheddings.get(index).copied()
    }

    // Whether there is no room for another pot of a shedding.
    pub fn is_full(&self) -> bool
        ensures { result ≡ nat_le 16 (length (held self.now).pots) }
    {
        self.sheddings.is_full()
    }

    // Whether a company may be credited.
    // Kept: company and cents are two parameters here and below; a pair would be made at each call and taken apart in its first line.
    fn is_credited(&self, company: u64, cents: u64) -> bool
        ensures { result ≡ is_credited_in (held self.now) company cents }
    {
        is_numbered(company, COMPANIES) && !self.passes(cents)
    }

    // Credits a company.
    fn credit(&mut self, company: u64, cents: u64)
        requires { is_credited_in (held self.old) company cents ≡ true }
        ensures earned { self.new.earned ≡ with_more 32 self.old.earned company cents }
        ensures services { self.new.services ≡ self.old.services }
        ensures credits { self.new.credits ≡ self.old.credits + cents }
        ensures sheddings { self.new.sheddings ≡ self.old.sheddings }
    {
        add_to(&mut self.earned, company, cents);
        self.credits += cents;
    }

    // Credits a company, at the cost of a service's pot; nothing where it may not be credited.
    pub fn enter(&mut self, company: u64, service: u64, cents: u64)
        ensures { held self.new ≡ entered (held self.old) company service cents }
    {
        if is_numbered(service, SERVICES) && self.is_credited(company, cents) {
            self.credit(company, cents);
            add_to(&mut self.services, service, cents);
        }
    }

    // Whether a shedding has room for its pot, where it needs one.
    fn has_room(&self, cents: u64) -> bool
        ensures { result ≡ has_room_in (held self.now) cents }
    {
        cents == 0 || !self.is_full()
    }

    // Gives a shedding a pot of its own, where it is worth anything and there is room.
    fn give_pot(&mut self, cents: u64, base: CompanyWeights)
        ensures pots { (held self.new).pots ≡ (if nat_le 16 (length (held self.old).pots) then (held self.old).pots else with_pot (held self.old).pots cents base.at) }
        ensures earned { self.new.earned ≡ self.old.earned }
        ensures services { self.new.services ≡ self.old.services }
        ensures credits { self.new.credits ≡ self.old.credits }
    {
        if cents > 0 && !self.is_full() {
            self.sheddings.push(WeightedPot { cents, base });
        }
    }

    // Credits a company for a shedding, at the cost of a pot of its own; nothing where it may not be credited.
    pub fn shed(&mut self, company: u64, cents: u64, base: CompanyWeights)
        ensures { held self.new ≡ shed_in (held self.old) company cents base.at }
    {
        if self.has_room(cents) && self.is_credited(company, cents) {
            self.give_pot(cents, base);
            self.credit(company, cents);
        }
    }
}
