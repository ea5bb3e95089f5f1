//! Square roots of whole numbers.
ghost use Rattle.std.specs.Prelude.{◌≡◌};
ghost use Rattle.powers.specs.Roots.{lower_root, upper_root};

/// The square root, rounded down.
#[tactic(auto, using(crate::proofs::Root::lower_of))]
pub(crate) fn floor_root(n: u64) -> u64
    ensures { result ≡ lower_root n }
{
    n.isqrt()
}

/// The square root, rounded up.
#[tactic(auto, using(crate::proofs::Root::lower_of, crate::proofs::Root::enough_more, crate::proofs::Root::enough_same))]
pub(crate) fn ceil_root(n: u64) -> u64
    ensures { result ≡ upper_root n }
{
    let root = n.isqrt();
    if root * root < n { root + 1 } else { root }
}
