ghost use Rattle.std.specs.Prelude.{◌≡◌};
ghost use Rattle.std.specs.Borrow.{ftrue};

use std::marker::{Model, PhantomData};

/// What a value was, for clauses alone: it takes no bytes. Any thread may hold or share it, and what
/// has one.
#[derive(Drop)]
pub struct PastValue<T> {
    of: PhantomData<T>,
    pub ghost value: { T },
}

impl<T> Model for PastValue<T> {
    ghost also_owns = { λ _. ftrue };
}

// It owns nothing.
unsafe impl<T> Send for PastValue<T> {}

unsafe impl<T> Sync for PastValue<T> {}

impl<T> PastValue<T> {
    /// What a value is now.
    // No code gives a ghost field its value, so that this is proved by hand.
    #[inline(always)]
    pub fn of(_seen: &T) -> PastValue<T>
        ensures { result.value ≡ _seen.now }
    {
        PastValue { of: PhantomData }
    }
}
