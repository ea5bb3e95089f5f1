//! The sum of the stakes, and each bearer's part of an amount.
ghost use Rattle.std.specs.Prelude.{◌≡◌, ◌*◌, ◌<◌, ◌≤◌, map, length, sum};
ghost use Rattle.std.specs.List.{AllByRecursion};
ghost use Rattle.sharing.specs.Sharing.{limit, Shared};

use crate::bearer::Bearer;

// `within` is asked of the bearers of a call, and not of their kind: a kind may have bearers whose stake is too great.

/// The sum of the bearers' stakes.
pub fn total_stake<B: Bearer>(bearers: &[B]) -> u64
    requires few { length bearers.now ≤ 64 }
    requires within { AllByRecursion (λ b. B.stake b ≤ B.GREATEST) bearers.now }
    ensures sum { result ≡ sum (map B.stake bearers.now) }
    ensures most { result ≤ 64 * limit }
{
    bearers.iter().map(|bearer| bearer.stake()).sum()
}

/// Shares `amount` by the bearers' stakes, whose sum is `total`, in their order. Each bearer gets the whole part of what it is
/// due with the remainder of those before it, and its share goes to its place in `shares`.
pub fn share<B: Bearer>(amount: u32, total: u64, bearers: &[B], shares: &mut [u32])
    requires amount { amount ≤ 1000000 }
    requires total { total ≡ sum (map B.stake bearers.now) }
    requires most { total ≤ 64 * limit }
    requires some { 0 < total }
    requires room { length bearers.now ≤ length shares.old }
    ensures { Shared amount (map B.stake bearers.now) shares.old shares.new }
{
    // 128 bits, since a stake above its kind's greatest may make a product that 64 bits do not hold
    let whole = total as u128;
    let mut rest: u128 = 0;
    // by place, as in `share_within`
    for (i, bearer) in bearers.iter().enumerate() {
        let due = amount as u128 * bearer.stake() as u128 + rest;
        shares[i] = (due / whole) as u32;
        rest = due % whole;
    }
}

// Apart from `share`, for speed; a width as a parameter would want a trait of numbers with its laws.
/// Shares as `share` does, in 64 bits, which hold what bearers are due whose stakes are within their kind's greatest.
pub fn share_within<B: Bearer>(amount: u32, total: u64, bearers: &[B], shares: &mut [u32])
    requires amount { amount ≤ 1000000 }
    requires within { AllByRecursion (λ b. B.stake b ≤ B.GREATEST) bearers.now }
    requires total { total ≡ sum (map B.stake bearers.now) }
    requires most { total ≤ 64 * limit }
    requires some { 0 < total }
    requires room { length bearers.now ≤ length shares.old }
    ensures { Shared amount (map B.stake bearers.now) shares.old shares.new }
{
    let mut rest: u64 = 0;
    // by place: tried through a `zip` with `iter_mut`, but after that loop the proof knows no more of the shares than their number
    for (i, bearer) in bearers.iter().enumerate() {
        let due = amount as u64 * bearer.stake() + rest;
        shares[i] = (due / total) as u32;
        rest = due % total;
    }
}
