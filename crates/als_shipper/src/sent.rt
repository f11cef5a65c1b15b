ghost use Rattle.std.specs.Prelude.{◌≡◌, [], Some, false};
ghost use Rattle.als_sending.specs.Accounts.{heard_of, begun_of};

use als_record::Lsn;
use als_sending::{Heard, Marks};

/// What a session reports of its follower.
#[derive(Drop)]
pub(crate) struct Sent {
    /// Whether the follower asked for the log, and was admitted.
    pub begun: bool,
    /// The LSN that it acknowledged last.
    pub acknowledged: Option<Lsn>,
    account: Heard,
    ghost unbegun: { begun ≡ false → begun_of account ≡ [] },
}

impl Sent {
    /// Nothing yet.
    pub fn new() -> Sent
        ensures heard { heard_of result.account ≡ [] }
        ensures begun { begun_of result.account ≡ [] }
    {
        Sent {
            begun: false,
            acknowledged: None,
            account: Heard::Nothing,
        }
    }
}

impl Marks for Sent {
    ghost heard = { λ sent. heard_of sent.account };

    ghost begun = { λ sent. Some (begun_of sent.account) };

    fn begin(&mut self, from: Lsn) {
        self.begun = true;
        self.account.begin(from);
    }

    fn send(&mut self) {}

    fn acknowledge(&mut self, lsn: Lsn) {
        self.acknowledged = Some(lsn);
        self.account.acknowledge(lsn);
    }
}
