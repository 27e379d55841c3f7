// What the companies earned, and the pots that pay for it.
ghost use Rattle.std.specs.Prelude.{◌≡◌, ℕ, ◌≤◌, length, replicate, sum, slice_index};
ghost use Rattle.prorating.specs.Weights.{limit};

pub mod calls;

use arrayvec::ArrayVec;
use payers::base::COMPANIES;
use payers::weights::CompanyWeights;

// How many pots of services there are: 1 frequency, 2 voltage, 3 installations.
// Kept: services come as numbers in every call, since a call takes any figures, and a type of their own would ask more of callers.
pub const SERVICES: usize = 3;

// How many pots of sheddings there are at most. They are numbered 4 to 19.
pub const SHED_POTS: usize = 16;

// A pot with the weights of those who pay it: that of a shedding is paid by those who were injecting in the zone.
#[derive(Clone, Copy)]
pub struct WeightedPot {
    pub cents: u64,
    pub base: CompanyWeights,
}

// The pot of nothing, over nobody.
// Kept: by hand, since `CompanyWeights` keeps its total by a ghost field and has no Default to derive from.
impl Default for WeightedPot {
    ghost is_default = { λ p. (p.cents ≡ 0) × (p.base.at ≡ replicate 32 0) };

    fn default() -> WeightedPot {
        WeightedPot {
            cents: 0,
            base: CompanyWeights::none(),
        }
    }
}

// The type keeps all credits together equal to the sum of what the companies earned and within the limit, and no service costs more than these.
#[derive(Drop)]
pub struct Accounts {
    earned: [u64; COMPANIES],
    services: [u64; SERVICES],
    credits: u64,
    sheddings: ArrayVec<WeightedPot, SHED_POTS>,
    ghost earned_long: { length earned ≡ 32 },
    ghost services_long: { length services ≡ 3 },
    ghost few: { length sheddings.items ≤ 16 },
    ghost light: { credits ≤ limit },
    ghost earned_sum: { sum earned ≡ credits },
    ghost earned_small: { (k : ℕ) → slice_index earned k ≤ credits },
    ghost services_small: { (k : ℕ) → slice_index services k ≤ credits },
}
