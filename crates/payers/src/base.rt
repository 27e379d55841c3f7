// What a payer base is asked, and what it has to keep.
ghost use Rattle.std.specs.Prelude.{◌≡◌, ℕ, List};
ghost use Rattle.payers.specs.Bases.{weight_of, Based};

// How many companies there are at most. They are numbered 1 to 32.
pub const COMPANIES: usize = 32;

// What the companies' parts of a pot are measured by.
pub trait PayerBase {
    // What the base means: a list of weights, that of company 1 first.
    ghost weights: { Self → List ℕ };

    // The weight of a company, the same at each query; 0 for a number outside 1 to 32.
    fn weight(&self, company: u64) -> u64
        ensures { result ≡ weight_of (weights self.now) company };

    // There are 32, and their total is within the limit of a weight list.
    ghost based: { (s : Self) → Based (weights s) };
}
