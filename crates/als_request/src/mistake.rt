use json::Error;
use std::alloc::{AllocError, AllocFailed};
use std::fmt;

/// What is wrong with one comparison or one set.
#[derive(Clone, Copy, Debug, PartialEq, Eq)]
pub enum Wrong {
    /// It is not an object with the two members that it must have.
    Members,
    /// Its key is not `[PAGE,SLOT]`.
    Key,
    /// Its value is neither null nor hexadecimal digits of at most 31 bytes.
    Value,
    /// Its LSN is not a whole number of at most 64 bits.
    Lsn,
}

/// Why a text is neither a transaction nor a decision.
#[derive(Clone, Copy, Debug, PartialEq, Eq)]
pub enum Mistake {
    /// An allocation failed.
    Memory,
    /// It is not JSON.
    NoJson,
    /// An object has a name twice.
    NameTwice,
    /// It is not an object with `set`, with or without `if`, and nothing else.
    Members,
    /// The comparison at this place of `if`, counted from 1, is wrong.
    If(usize, Wrong),
    /// The set at this place of `set`, counted from 1, is wrong.
    Set(usize, Wrong),
    /// `prepare` is not true.
    Prepare,
    /// There are members beside `decide`.
    Alone,
    /// It is not an object with `trans` and `commit` and nothing else.
    Decision,
    /// `trans` is not a number from 1 to 2^32 - 1.
    Trans,
    /// `commit` is neither true nor false.
    Verdict,
}

impl From<AllocError> for Mistake {
    ghost use Rattle.std.specs.Prelude.{◌≡◌};
    ghost use Rattle.als_request.specs.declared.mistake.Mistake.TheVariants.{Memory};

    ghost from_gives = { λ _ e. e ≡ Memory };

    fn from(_refused: AllocError) -> Mistake {
        Mistake::Memory
    }
}

impl<T: Drop> From<AllocFailed<T>> for Mistake {
    ghost use Rattle.std.specs.Prelude.{◌≡◌};
    ghost use Rattle.als_request.specs.declared.mistake.Mistake.TheVariants.{Memory};

    ghost from_gives = { λ _ e. e ≡ Memory };

    fn from(_refused: AllocFailed<T>) -> Mistake {
        Mistake::Memory
    }
}

impl From<Error> for Mistake {
    fn from(error: Error) -> Mistake {
        match error {
            Error::DuplicateKey => Mistake::NameTwice,
            Error::OutOfMemory => Mistake::Memory,
            Error::Invalid | Error::TooLong => Mistake::NoJson,
        }
    }
}

impl fmt::Display for Wrong {
    fn fmt<W: fmt::Write>(&self, f: &mut fmt::Formatter<W>) -> fmt::Result {
        match self {
            Wrong::Members => f.write_str("is no object of a key and what belongs to it"),
            Wrong::Key => f.write_str("has a key that is no [PAGE,SLOT]"),
            Wrong::Value => {
                f.write_str(
                    "has a value that is neither null nor hexadecimal digits of at most 31 bytes",
                )
            }
            Wrong::Lsn => f.write_str("has an LSN that is no whole number"),
        }
    }
}

impl fmt::Display for Mistake {
    fn fmt<W: fmt::Write>(&self, f: &mut fmt::Formatter<W>) -> fmt::Result {
        match self {
            Mistake::Memory => f.write_str("no memory for it"),
            Mistake::NoJson => f.write_str("no JSON"),
            Mistake::NameTwice => f.write_str("a name comes twice in one object"),
            Mistake::Members => {
                f.write_str("no transaction: an object of \"set\", with \"if\" or without")
            }
            Mistake::If(place, wrong) => write!(f, "comparison {place} of \"if\" {wrong}"),
            Mistake::Set(place, wrong) => write!(f, "set {place} of \"set\" {wrong}"),
            Mistake::Prepare => f.write_str("\"prepare\" is not true"),
            Mistake::Alone => f.write_str("\"decide\" has members beside it"),
            Mistake::Decision => {
                f.write_str("no decision: an object of \"trans\" and \"commit\"")
            }
            Mistake::Trans => f.write_str("\"trans\" is no number from 1 to 4294967295"),
            Mistake::Verdict => f.write_str("\"commit\" is neither true nor false"),
        }
    }
}
