ghost use Rattle.std.specs.Prelude.{Some};
ghost use Rattle.als_sending.specs.Accounts.{heard_of, begun_of};

use als_epochs::History;
use als_record::{LogHeader, Lsn};
use als_sending::{Heard, Marks};
use als_wire::{write_acknowledged, write_resume};
use std::alloc::Global;

/// What was heard of a follower.
pub struct Ears {
    /// From where it goes on, once it was admitted.
    pub from: Option<Lsn>,
    /// How many answers came.
    pub count: u32,
    /// The last one.
    pub last: Option<Lsn>,
    account: Heard,
}

impl Drop for Ears {
    fn drop(self) {
        let Ears {
            from: _,
            count: _,
            last: _,
            account: _,
        } = self;
    }
}

impl Ears {
    /// Nothing was heard.
    pub fn new() -> Ears {
        Ears {
            from: None,
            count: 0,
            last: None,
            account: Heard::Nothing,
        }
    }
}

impl Marks for Ears {
    ghost heard = { λ ears. heard_of ears.account };

    ghost begun = { λ ears. Some (begun_of ears.account) };

    fn begin(&mut self, from: Lsn) {
        self.from = Some(from);
        self.account.begin(from);
    }

    fn send(&mut self) {}

    fn acknowledge(&mut self, lsn: Lsn) {
        self.count = self.count.saturating_add(1);
        self.last = Some(lsn);
        self.account.acknowledge(lsn);
    }
}

/// What a follower tells: where it goes on, with this header and history, and then its answers.
/// `None`: allocation failed.
pub fn told(
    alloc: Global,
    from: u64,
    header: LogHeader,
    history: &History,
    answers: &[u64],
) -> Option<Vec<u8>> {
    let mut told = Vec::new(alloc);
    write_resume(&mut told, Lsn(from), header, history).ok()?;
    for lsn in answers {
        write_acknowledged(&mut told, Lsn(*lsn)).ok()?;
    }
    Some(told)
}
