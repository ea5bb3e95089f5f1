//! The plain table: at most `N` records at the front of an array, with no regard to keys.
ghost use Rattle.std.specs.Prelude.{◌≡◌, ⊤};
ghost use Rattle.tables.specs.Cells.{Whole};

use std::alloc::AllocError;

pub mod lent;
pub mod places;

// No model: `Copy` would want the model's inverse, and the list of the records forgets the cells past the count.
/// At most `N` records, the first `count` of the cells.
pub struct Rows<R, const N: usize> {
    // An array and its count, by a rule of the project: tables are copied whole, and a vector of a fixed capacity is not `Copy`.
    cells: [R; N],
    count: usize,
    ghost whole: { Whole N cells count },
}

// By hand: the derive is refused here, where a type with a parameter has a ghost field.
impl<R: Copy, const N: usize> Clone for Rows<R, N> {
    ghost is_clone = { λ x y. y ≡ x };

    ghost is_infallible = { λ _. ⊤ };

    fn clone(&self) -> Result<Self, AllocError> {
        Ok(*self)
    }
}

impl<R: Copy, const N: usize> Copy for Rows<R, N> {}
