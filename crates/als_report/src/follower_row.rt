ghost use Rattle.std.specs.Prelude.{◌≡◌};

use als_quorum::Member;
use als_record::Lsn;
use std::net::{IpAddr, Ipv4Addr};

/// A follower of a primary, as it is stored on a board. Its times are seconds of the clock by which the
/// board is read.
#[derive(Clone, Copy)]
pub struct FollowerRow {
    /// Where it connected from.
    pub peer: IpAddr,
    /// The greatest LSN that it acknowledged.
    pub acknowledged: Lsn,
    /// The second in which it connected.
    pub connected: u64,
    /// The second in which it last acknowledged, or connected if it never did.
    pub answered: u64,
    /// Whether what it acknowledges counts for a commit.
    pub counts: bool,
}

impl Default for FollowerRow {
    /// Nobody.
    fn default() -> FollowerRow {
        FollowerRow {
            peer: IpAddr::V4(Ipv4Addr::UNSPECIFIED),
            acknowledged: Lsn(0),
            connected: 0,
            answered: 0,
            counts: false,
        }
    }
}

impl FollowerRow {
    /// The row of a follower of a quorum.
    pub fn of(member: &Member) -> FollowerRow
        ensures peer { result.peer ≡ member.now.row.peer }
        ensures acknowledged { result.acknowledged ≡ member.now.row.acknowledged }
        ensures counts { result.counts ≡ member.now.counts }
    {
        let row = &member.row;
        let connected = row.connected.as_secs();
        FollowerRow {
            peer: row.peer,
            acknowledged: row.acknowledged,
            connected,
            answered: match row.heard {
                Some(heard) => heard.as_secs(),
                None => connected,
            },
            counts: member.counts,
        }
    }
}
