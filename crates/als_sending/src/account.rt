ghost use Rattle.std.specs.Prelude.{◌≡◌, ◌++◌, ◌∷◌, []};
ghost use Rattle.als_sending.specs.Accounts.{reads_of, with_byte};

use std::snapshot::Snapshot;

/// What was read of a log, for clauses alone: it takes no bytes of what it keeps. Who meets
/// `Growing` has one.
#[derive(Drop)]
pub enum Account {
    Nothing,
    /// A read at an offset, of no byte yet.
    At(Snapshot<Account>, Snapshot<u64>),
    /// One byte more of the last read.
    Byte(Snapshot<Account>, Snapshot<u8>),
}

impl Account {
    /// These bytes are read at an offset.
    pub fn read(&mut self, at: u64, bytes: &[u8])
        ensures { reads_of self.new
            ≡ reads_of self.old ++ record { at = at; bytes = bytes.now } ∷ [] }
    {
        self.begin(at);
        for byte in bytes {
            self.more(*byte);
        }
    }

    /// A read begins.
    #[inline(always)]
    fn begin(&mut self, at: u64)
        ensures { reads_of self.new ≡ reads_of self.old ++ record { at = at; bytes = [] } ∷ [] }
    {
        let before = Snapshot::of(self);
        *self = Account::At(before, Snapshot::of(&at));
    }

    /// It has one byte more.
    #[inline(always)]
    fn more(&mut self, byte: u8)
        ensures { reads_of self.new ≡ with_byte (reads_of self.old) byte }
    {
        let before = Snapshot::of(self);
        *self = Account::Byte(before, Snapshot::of(&byte));
    }
}
