// A pot and the weights that it is shared over, as an input gives them.
ghost use Rattle.std.specs.Prelude.{◌≡◌, ◌==◌, ◌+◌, ◌<◌, ◌≤◌, length, take, replicate, slice_set};

// How many weights an input may have.
pub const MAX_WEIGHTS: usize = 48;

#[derive(Clone, Copy)]
pub struct Input {
    pot: u64,
    // The weights, in the first `count` places.
    weights: [u64; MAX_WEIGHTS],
    pub(crate) count: usize,
    ghost fits: { count ≤ 48 },
}

impl Input {
    pub fn pot(&self) -> u64
        ensures { result ≡ self.now.pot }
    {
        self.pot
    }

    // The weights, in the order of the input.
    pub fn weights(&self) -> &[u64]
        ensures value { result.now ≡ take self.now.count self.now.weights }
        ensures few { length result.now ≤ 48 }
    {
        &self.weights[0..self.count]
    }

    // A pot with no weights yet.
    pub(crate) fn without_weights(pot: u64) -> Input
        ensures pot { result.pot ≡ pot }
        ensures weights { result.weights ≡ replicate 48 0 }
        ensures count { result.count ≡ 0 }
    {
        Input {
            pot,
            weights: [0; MAX_WEIGHTS],
            count: 0,
        }
    }

    // Whether there are as many weights as an input may have.
    pub(crate) fn is_full(&self) -> bool
        ensures { result ≡ (self.now.count == 48) }
    {
        self.count == MAX_WEIGHTS
    }

    // Adds a weight after the others.
    pub(crate) fn add(&mut self, weight: u64)
        requires { self.old.count < 48 }
        ensures pot { self.new.pot ≡ self.old.pot }
        ensures weights { self.new.weights ≡ slice_set self.old.weights self.old.count weight }
        ensures count { self.new.count ≡ self.old.count + 1 }
    {
        self.weights[self.count] = weight;
        self.count += 1;
    }
}
