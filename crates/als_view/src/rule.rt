// The rule of the two copies, as left_right's calls ask for it.
use crate::change::Change;
use crate::history::Token;
use crate::view_copy::ViewCopy;
use atomic_table::{Join, Split};
use crossbeam_utils::rule::{Outcome, Protocol};
use left_right::reader::{Reader, Reading};
use left_right::writer::Writer;

/// What a thread knows. No value of it is made.
pub struct Known {
    pub seen: Token,
    pub pages: u32,
}

/// The published list only grows, and each thread's view is a front of it.
pub struct Published;

impl Protocol<ViewCopy, Option<Known>> for Published {
    ghost use Rattle.std.specs.Prelude.{None};
    ghost use Rattle.als_view.specs.Rules.{Holds};

    ghost holds = { Holds };

    ghost first = { None };
}

/// An entry, or a publish.
pub(crate) struct Sees;

impl Outcome<ViewCopy, Option<Known>> for Sees {
    ghost use Rattle.als_view.specs.Rules.{Sees as Seeing};

    ghost then = { Seeing };
}

/// The publisher's view for a new reader.
pub(crate) struct Notes;

impl Split<Option<Known>> for Notes {
    ghost left = { λ v. v };

    ghost right = { λ v. v };
}

impl Join<Option<Known>> for Notes {
    ghost use Rattle.std.specs.Prelude.{None};

    ghost both = { λ v w. w };

    ghost spent = { None };
}

/// A reader of the two copies.
pub type CopyReader = Reader<ViewCopy, Option<Known>, Published>;

/// A reader that is in one of the two copies.
pub type CopyReading = Reading<ViewCopy, Option<Known>, Published>;

/// The writer of the two copies.
pub type CopyWriter = Writer<ViewCopy, Change, Option<Known>, Published>;
