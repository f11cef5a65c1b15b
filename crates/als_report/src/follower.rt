ghost use Rattle.std.specs.Prelude.{◌≡◌};
ghost use Rattle.als_report.specs.Followers.{behind, seconds_behind};

use als_record::Lsn;
use std::net::{IpAddr, Ipv4Addr};

/// A follower of a primary, as the primary reports it.
#[derive(Clone, Copy, PartialEq)]
pub struct Follower {
    /// Where it connected from.
    pub peer: IpAddr,
    /// The greatest LSN that it acknowledged.
    pub acknowledged: Lsn,
    /// Seconds since it last acknowledged, or since it connected if it never did.
    pub silence: u64,
    /// Seconds since it connected.
    pub age: u64,
    /// Whether what it acknowledges counts for a commit.
    pub counts: bool,
}

impl Default for Follower {
    /// Nobody.
    fn default() -> Follower {
        Follower {
            peer: IpAddr::V4(Ipv4Addr::UNSPECIFIED),
            acknowledged: Lsn(0),
            silence: 0,
            age: 0,
            counts: false,
        }
    }
}

impl Follower {
    /// The bytes that it lacks of a log that is acknowledged up to there.
    pub fn behind(&self, acknowledged: Lsn) -> u64
        ensures { result ≡ behind acknowledged.0 self.now }
    {
        acknowledged.0.saturating_sub(self.acknowledged.0)
    }

    /// An upper bound of the seconds for which it has been behind: 0 if it lacks nothing, else the seconds
    /// since it last acknowledged.
    pub fn seconds_behind(&self, acknowledged: Lsn) -> u64
        ensures { result ≡ seconds_behind acknowledged.0 self.now }
    {
        if self.behind(acknowledged) == 0 {
            0
        } else {
            self.silence
        }
    }
}
