ghost use Rattle.std.specs.Prelude.{◌≡◌};
ghost use Rattle.std.specs.Borrow.{ftrue};
ghost use Rattle.als_record.specs.declared.record.Record.{Record as AnyRecord};
ghost use Rattle.als_record.specs.Shown.{shown};

use als_record::RecordView;
use std::marker::Model;

/// The record that a view showed, for clauses alone, as `std::snapshot` keeps what a reference
/// showed: it takes no bytes and no time.
#[derive(Drop)]
pub struct Noted {
    pub ghost value: { AnyRecord },
}

impl Model for Noted {
    ghost also_owns = { λ _. ftrue };
}

impl Noted {
    /// What this view shows.
    // No code gives a ghost field its value, so that this is proved by hand.
    #[inline(always)]
    pub(crate) fn of(_seen: &RecordView<'_>) -> Noted
        ensures { result.value ≡ shown _seen.now }
    {
        Noted {}
    }
}
