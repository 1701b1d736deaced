// A few things kept in place: nothing is asked of the heap.
ghost use Rattle.std.specs.Prelude.{◌≡◌, ◌≤◌, ⊤};

use std::alloc::AllocError;

pub mod keeping;

// At most N things: the first `count` of the places hold them. (An array and a count: no heap is a rule of the project, and the
// library's `ArrayVec` is not `Copy`, which a curve and a line are.)
pub struct Few<T, const N: usize> {
    places: [T; N],
    count: usize,
    ghost room: { count ≤ N },
}

// By hand: the derive was tried, and is refused for a struct that has a ghost field and a type parameter.
impl<T: Copy, const N: usize> Copy for Few<T, N> {}

impl<T: Copy, const N: usize> Clone for Few<T, N> {
    ghost is_clone = { λ x y. y ≡ x };

    ghost is_infallible = { λ _. ⊤ };

    fn clone(&self) -> Result<Few<T, N>, AllocError> {
        Ok(*self)
    }
}
