// Things taken into a few places, and told again.
ghost use Rattle.std.specs.Prelude.{◌≡◌, ◌≤◌, take};
ghost use Rattle.basics.specs.Few.{items};

use crate::few::Few;

impl<T: Copy + Default, const N: usize> Few<T, N> {
    // The first N of these things.
    pub fn first(things: &[T]) -> Few<T, N>
        ensures { items result ≡ take N things.now }
    {
        let count = things.len().min(N);
        let mut places = [T::default(); N];
        let whole = &mut places[..];
        whole[0..count].copy_from_slice(&things[0..count]);
        Few { places, count }
    }
}

impl<T, const N: usize> Few<T, N> {
    // The first `count` of these things, or all where they are fewer. (Beside `first`: things that lie in N places as it is are not
    // copied into others.)
    #[tactic(auto, using(std::proofs::lemmas::List::take_min))]
    pub fn front(places: [T; N], count: usize) -> Few<T, N>
        ensures { items result ≡ take count places }
    {
        Few {
            places,
            count: count.min(N),
        }
    }

    // The things that are kept.
    pub fn as_slice(&self) -> &[T]
        ensures { result.now ≡ items self.now }
    {
        let whole = &self.places[..];
        &whole[..self.count]
    }
}
