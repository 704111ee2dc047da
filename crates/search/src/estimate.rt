// Estimates of the way ahead of each place.
ghost use Rattle.std.specs.Prelude.{◌≡◌, ℕ, ◌≤◌};
ghost use Rattle.search.specs.Estimate.{NothingIsFit};
ghost use Rattle.std.proofs.Common.{rules};

// An estimate of how many ticks lie ahead of each place, at most the greatest number of ticks.
pub trait Estimate {
    ghost ahead: { Self → ℕ → ℕ };

    fn ahead(&self, place: u32) -> u32
        ensures { result ≡ ahead self.now place };

    ghost small: { (e : Self) (v : ℕ) → ahead e v ≤ 604800 };
}

// The estimate that says nothing: 0 for every place.
#[derive(Clone, Copy)]
pub struct NoEstimate;

// It is fit for every search.
pub fn nothing_is_fit()
    ensures { NothingIsFit }
{}

impl Estimate for NoEstimate {
    ghost ahead = { λ e v. 0 };

    ghost small = { Prim.search rules };

    fn ahead(&self, place: u32) -> u32 {
        0
    }
}
