//! The table of a kind of record: keys rise strictly, every figure is in range, and there are at most `N`. The type carries it.
ghost use Rattle.std.specs.Prelude.{◌≡◌, true, ⊤};
ghost use Rattle.tables.specs.Keys.{Rising, Each};
ghost use Rattle.tables.specs.Rows.{rows as records};

use crate::keyed::Keyed;
use crate::rows::Rows;
use std::alloc::AllocError;

pub mod entering;
pub mod reading;

// No model, as `Rows` has none.
/// Records in order of their keys, at most `N`.
pub struct Table<R: Keyed, const N: usize> {
    rows: Rows<R, N>,
    ghost rising: { Rising R.key (records rows) },
    ghost fit: { Each (λ x. R.fits x ≡ true) (records rows) },
}

// By hand: the derive is refused here, where a type with a parameter has a ghost field.
impl<R: Keyed, const N: usize> Clone for Table<R, N> {
    ghost is_clone = { λ x y. y ≡ x };

    ghost is_infallible = { λ _. ⊤ };

    fn clone(&self) -> Result<Self, AllocError> {
        Ok(*self)
    }
}

impl<R: Keyed, const N: usize> Copy for Table<R, N> {}
