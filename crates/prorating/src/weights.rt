// The weight list: a weight for each of 48 places. No list has a total above the limit.
ghost use Rattle.std.specs.Prelude.{◌≡◌, ◌+◌, ◌≤◌, length, replicate, Some, None, sum, MatchResult, nat_le};
ghost use Rattle.prorating.specs.Weights.{limit, weight_at, put_answer, put_after, padded, of_refusal};

use crate::refusal::Refusal;
use numbered::{entry_of, index_of};

// How many places there are. They are numbered 1 to 48.
pub const PLACES: usize = 48;

// The largest total of a weight list, and the largest pot, in cents, that is shared.
pub const LIMIT: u64 = 3_000_000_000;

// 48 weights. The type keeps the total equal to their sum and within the limit.
#[derive(Clone, Copy)]
pub struct Weights {
    at: [u64; PLACES],
    total: u64,
    ghost long: { length at ≡ 48 },
    ghost summed: { total ≡ sum at },
    ghost light: { total ≤ limit },
}

// Whether a weight joins the others within the limit.
fn joins(others: u64, weight: u64) -> bool
    requires { others ≤ limit }
    ensures { result ≡ nat_le (others + weight) limit }
{
    weight <= LIMIT - others
}

impl Weights {
    // The list whose weights are all 0.
    pub fn empty() -> Weights
        ensures { result.at ≡ replicate 48 0 }
    {
        Weights {
            at: [0; PLACES],
            total: 0,
        }
    }

    // The list that has these weights at places 1, 2 and so on, and 0 at the places after them.
    pub fn of(weights: &[u64]) -> Result<Weights, Refusal>
        ensures { MatchResult result (λ list. (of_refusal weights.now ≡ None) × (list.at ≡ padded weights.now)) (λ e. of_refusal weights.now ≡ Some e) }
    {
        if weights.len() > PLACES {
            return Err(Refusal::Place);
        }
        let mut list = Weights::empty();
        for (place, weight) in (1..).zip(weights) {
            list.put(place, *weight)?;
        }
        Ok(list)
    }

    // The sum of the weights.
    pub fn total(&self) -> u64
        ensures { result ≡ sum self.now.at }
    {
        self.total
    }

    // The weight at a place; 0 where the number is none of 1 to 48.
    pub fn weight(&self, place: u64) -> u64
        ensures { result ≡ weight_at self.now.at place }
    {
        entry_of(&self.at, place, 0)
    }

    // The weights, that of place 1 first.
    pub(crate) fn each(&self) -> &[u64; PLACES]
        ensures { result.now ≡ self.now.at }
    {
        &self.at
    }

    // Puts a weight at a place and drops the one that was there.
    pub fn put(&mut self, place: u64, weight: u64) -> Result<(), Refusal>
        ensures answered { result ≡ put_answer self.old.at place weight }
        ensures after { self.new.at ≡ put_after self.old.at place weight }
    {
        let index = index_of(place, PLACES).ok_or(Refusal::Place)?;
        let others = self.total - self.at[index];
        if !joins(others, weight) {
            return Err(Refusal::Total);
        }
        self.at[index] = weight;
        self.total = others + weight;
        Ok(())
    }
}
