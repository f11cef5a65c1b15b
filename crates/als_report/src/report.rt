ghost use Rattle.std.specs.Prelude.{◌≡◌};
ghost use Rattle.als_report.specs.Health.{is_recent, is_heard, is_prompt, is_healthy, room_of};
ghost use Rattle.als_report.specs.Health.{takeovers_left, transactions_left};
ghost use Rattle.als_report.specs.Health.{is_primary, is_standby, is_new};

use crate::follower::Follower;
use crate::refusals::Refusals;
use crate::state::State;
use crate::work::Work;
use als_record::{FIRST_LSN, Lsn};
use arrayvec::ArrayVec;

/// Seconds for which a frame may wait for its acknowledgement before the node is not healthy.
pub const PATIENCE: u64 = 10;

/// Seconds for which a primary may send nothing before its standby is not healthy. One that goes on sends
/// something each ten seconds at least.
pub const QUIET: u64 = 30;

/// The most transactions that may be in doubt in a healthy primary. At 256 it takes no more.
pub const MOST_IN_DOUBT: u64 = 199;

/// The most followers that a report has.
pub const MOST_FOLLOWERS: usize = 8;

/// The most takeovers that a history has.
pub const MOST_TAKEOVERS: u64 = 32;

/// The last TransID that there is.
pub const MOST_TRANSACTIONS: u64 = 4_294_967_295;

/// What a node reports of itself.
#[derive(PartialEq, Drop)]
pub struct Report {
    pub state: State,
    /// The offset after the last held record.
    pub end: Lsn,
    /// The offset below which no log byte can be lost.
    pub acknowledged: Lsn,
    /// Changes that wait for redo.
    pub pending: u64,
    /// Leases that are out.
    pub leases: u64,
    /// Seconds since the last acknowledged frame came. None: no frame was acknowledged.
    pub silence: Option<u64>,
    /// Seconds for which a frame has waited for its acknowledgement. None: none waits.
    pub waiting: Option<u64>,
    /// Bytes of the log's device. None: not known yet.
    pub capacity: Option<u64>,
    /// How many sessions were ended by a fault.
    pub failures: u64,
    /// The number of the last such fault. None: no session was.
    pub last_fault: Option<u64>,
    /// The epoch of its history. None: not known yet.
    pub epoch: Option<u64>,
    /// The greatest TransID that a client was answered. None: none was since its start.
    pub greatest: Option<u64>,
    /// What it committed for clients.
    pub work: Work,
    /// How many transactions are in doubt.
    pub in_doubt: u64,
    /// How many followers have to acknowledge a commit before it is answered.
    pub sync: u64,
    /// Its followers.
    pub followers: ArrayVec<Follower, MOST_FOLLOWERS>,
    /// What it refused to clients.
    pub refusals: Refusals,
}

impl Report {
    /// Whether the node is healthy: a primary sends to it and was heard within `QUIET`, or it commits for
    /// clients; no frame has waited for longer than `PATIENCE`, readers see a list of commits, and at most
    /// `MOST_IN_DOUBT` transactions are in doubt.
    pub fn is_healthy(&self, commits: Option<u64>) -> bool
        ensures { result ≡ is_healthy self.now commits }
    {
        if self.in_doubt > MOST_IN_DOUBT {
            return false;
        }
        if !self.is_heard() {
            return false;
        }
        self.state.is_at_work() && is_prompt(self.waiting) && commits.is_some()
    }

    /// Whether clients may send it commits: it takes them, and as many followers as have to confirm a commit
    /// do so now.
    pub fn is_primary(&self) -> bool
        ensures { result ≡ is_primary self.now }
    {
        self.state.is_committing()
    }

    /// Whether it is a healthy standby: a primary sends to it, and else as for `is_healthy`.
    pub fn is_standby(&self, commits: Option<u64>) -> bool
        ensures { result ≡ is_standby self.now commits }
    {
        self.state.is_sent_to() && self.is_healthy(commits)
    }

    /// Whether its log holds no record: nothing was ever committed.
    pub fn is_new(&self) -> bool
        ensures { result ≡ is_new self.now }
    {
        self.end.0 <= FIRST_LSN.0
    }

    /// Whether the primary that sends to it was heard within `QUIET`. Of a node to which none sends it is
    /// true.
    fn is_heard(&self) -> bool
        ensures { result ≡ is_heard self.now.state self.now.silence }
    {
        !self.state.is_sent_to() || is_recent(self.silence)
    }

    /// The bytes that the log can still take. None: not known yet.
    pub fn room(&self) -> Option<u64>
        ensures { result ≡ room_of self.now }
    {
        match self.capacity {
            Some(capacity) => Some(capacity.saturating_sub(self.end.0)),
            None => None,
        }
    }

    /// How many takeovers its history can still have. None: not known yet.
    pub fn takeovers_left(&self) -> Option<u64>
        ensures { result ≡ takeovers_left self.now }
    {
        match self.epoch {
            Some(epoch) => Some(MOST_TAKEOVERS.saturating_sub(epoch)),
            None => None,
        }
    }

    /// How many transactions its log can still have. None: not known yet.
    pub fn transactions_left(&self) -> Option<u64>
        ensures { result ≡ transactions_left self.now }
    {
        match self.greatest {
            Some(greatest) => Some(MOST_TRANSACTIONS.saturating_sub(greatest)),
            None => None,
        }
    }
}

/// Whether the last acknowledged frame came within `QUIET`.
fn is_recent(silence: Option<u64>) -> bool
    ensures { result ≡ is_recent silence }
{
    match silence {
        Some(seconds) => seconds <= QUIET,
        None => false,
    }
}

/// Whether no frame has waited for too long.
fn is_prompt(waiting: Option<u64>) -> bool
    ensures { result ≡ is_prompt waiting }
{
    match waiting {
        Some(seconds) => seconds <= PATIENCE,
        None => true,
    }
}
