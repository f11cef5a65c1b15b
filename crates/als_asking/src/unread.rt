use als_request::Mistake;
use std::alloc::AllocFailed;
use std::fmt;

/// The most transactions of one request: as many as one force makes durable.
pub const MOST: usize = 64;

/// Why a body could not be read.
#[derive(Clone, Copy)]
pub enum Unread {
    /// An allocation failed.
    Memory,
    /// It is not a transaction.
    One(Mistake),
    /// The item at this place of its array, counted from 1, is not a transaction.
    At(usize, Mistake),
    /// It begins like an array and is not one.
    Array,
    /// Its array has more than 64 transactions.
    TooMany,
}

impl<T: Drop> From<AllocFailed<T>> for Unread {
    ghost use Rattle.std.specs.Prelude.{◌≡◌};
    ghost use Rattle.als_asking.specs.declared.unread.Unread.TheVariants.{Memory};

    ghost from_gives = { λ _ e. e ≡ Memory };

    fn from(_refused: AllocFailed<T>) -> Unread {
        Unread::Memory
    }
}

impl fmt::Display for Unread {
    fn fmt<W: fmt::Write>(&self, f: &mut fmt::Formatter<W>) -> fmt::Result {
        match self {
            Unread::Memory => f.write_str("no memory for it"),
            Unread::One(mistake) => write!(f, "{mistake}"),
            Unread::At(place, mistake) => write!(f, "transaction {place} of the array: {mistake}"),
            Unread::Array => f.write_str("no array: it does not end in a bracket"),
            Unread::TooMany => write!(f, "an array of more than {MOST} transactions"),
        }
    }
}
