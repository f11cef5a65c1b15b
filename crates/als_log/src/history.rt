ghost use Rattle.std.specs.Prelude.{◌≡◌, [], ◌∷◌, ◌++◌};
ghost use Rattle.als_record.specs.Shown.{shown};
ghost use Rattle.als_log.specs.History.{records_in};

use crate::noted::Noted;
use crate::records::Records;
use als_past::Past;
use als_record::{Record, RecordView};
use std::mem::replace;

/// The records of a log, for clauses alone: they take no bytes and no time.
#[derive(Drop)]
pub struct History {
    records: Past<Records>,
}

impl History {
    /// No record.
    pub fn new() -> History
        ensures { records_in result ≡ [] }
    {
        History {
            records: Past::of(&Records::Start),
        }
    }

    /// Notes one more.
    pub fn push(&mut self, logged: &Record)
        ensures { records_in self.new ≡ records_in self.old ++ logged.now ∷ [] }
    {
        self.push_view(&logged.view());
    }

    /// Notes one more, of which this is a view. Nothing is copied.
    #[inline(always)]
    pub fn push_view(&mut self, logged: &RecordView<'_>)
        ensures { records_in self.new ≡ records_in self.old ++ shown logged.now ∷ [] }
    {
        let before = replace(&mut self.records, Past::of(&Records::Start));
        let last = Past::of(&Noted::of(logged));
        self.records = Past::of(&Records::Then(before, last));
    }
}
