//! What bears a part of an amount.
ghost use Rattle.std.specs.Prelude.{◌≡◌, ℕ, ◌≤◌};
ghost use Rattle.sharing.specs.Sharing.{limit};

/// A kind of bearer: each has a stake. Who sums stakes, or shares by them in 64 bits, shows that none is above the kind's greatest.
pub trait Bearer {
    /// The greatest stake of the kind that is summed, or shared by in 64 bits.
    const GREATEST: u64;

    // the constant, as clauses cite it
    ghost GREATEST: { ℕ };

    ghost stake: { Self → ℕ };

    /// The bearer's stake.
    fn stake(&self) -> u64
        ensures { result ≡ stake self.now };

    ghost bounded: { GREATEST ≤ limit };
}
