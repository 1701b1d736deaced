// The least or the greatest of a run, ties to the earliest: one way for every kind of record that has such an order.
ghost use Rattle.std.specs.Prelude.{◌≡◌, ℕ, ℤ, Bool, int_lt, nat_lt};
ghost use Rattle.std.specs.Cmp.{IsStrictWeakOrder};
ghost use Rattle.std.specs.Ordering.{is_lt};
ghost use Rattle.rules.specs.Least.{least, EarliestLeast};
ghost use Rattle.std.proofs.lemmas.List.MinMax.{ranks_by, IsStrictWeakOrder-flip};

// An order on a kind of record: which of two comes before the other.
pub trait Order<T> {
    ghost before: { T → T → Bool };

    fn before(x: &T, y: &T) -> bool
        ensures { result ≡ before x.now y.now };

    ghost ranks: { IsStrictWeakOrder before };
}

// The smaller comes before, whatever is ordered.
#[derive(Clone, Copy)]
pub struct Rising;

// The greater comes before.
#[derive(Clone, Copy)]
pub struct Falling;

impl<T: Ord> Order<T> for Rising {
    ghost before = { λ x y. is_lt (T.cmp x y) };

    ghost ranks = { ranks_by T.total (λ x. x) };

    fn before(x: &T, y: &T) -> bool {
        x < y
    }
}

impl<T: Ord> Order<T> for Falling {
    ghost before = { λ x y. is_lt (T.cmp y x) };

    ghost ranks = { IsStrictWeakOrder-flip (λ x y. is_lt (T.cmp x y)) (ranks_by T.total (λ x. x)) };

    fn before(x: &T, y: &T) -> bool {
        y < x
    }
}

// The first element of the run that no other comes before; none of an empty run.
pub fn least<T: Copy, O: Order<T>>(run: &[T]) -> Option<T>
    ensures value { result ≡ least O.Order.before run.now }
    ensures earliest { EarliestLeast O.Order.before run.now result }
{
    let [first, rest @ ..] = run else {
        return None;
    };
    let mut best = *first;
    for x in rest {
        if O::before(x, &best) {
            best = *x;
        }
    }
    Some(best)
}

// At signed numbers rising goes by which is smaller and falling by which is greater; at unsigned ones rising goes so too.
pub fn orders_of_numbers()
    ensures rising { (x y : ℤ) → ⟦<Rising as Order<i64>>⟧.before x y ≡ int_lt x y }
    ensures falling { (x y : ℤ) → ⟦<Falling as Order<i64>>⟧.before x y ≡ int_lt y x }
    ensures rising_unsigned { (x y : ℕ) → ⟦<Rising as Order<u64>>⟧.before x y ≡ nat_lt x y }
{}
