ghost use Rattle.std.specs.Prelude.{◌≡◌, ◌≤◌, ◌↔◌, IsTrue, Some};
ghost use Rattle.als_quorum.specs.Enough.{Vouches};
ghost use Rattle.als_quorum.specs.Names.{name_of};
ghost use Rattle.als_quorum.specs.Rows.{raised};

use crate::folder_id::FolderId;
use crate::name::Name;
use crate::wanted::Wanted;
use als_callers::Allowed;
use als_record::Lsn;
use std::net::IpAddr;
use std::time::Duration;

/// The follower of a seat, since its session began.
#[derive(Clone, Copy)]
pub struct Row {
    /// Its address. An IPv4-mapped one is stored as its IPv4 address.
    pub peer: IpAddr,
    /// The id of its folder. None: it sent none.
    pub id: Option<FolderId>,
    /// The greatest LSN that it acknowledged. 0: none.
    pub acknowledged: Lsn,
    /// The greatest round of a frame that it answered: the tail's when the frame was sent. 0: none.
    pub round: u64,
    /// When it connected, by the clock.
    pub connected: Duration,
    /// When it last acknowledged, by the clock. None: never.
    pub heard: Option<Duration>,
}

impl Row {
    /// The row once its follower has acknowledged this LSN in its answer to a frame of this round. An older LSN and an
    /// older round change only the time.
    pub(crate) fn raised(self, lsn: Lsn, round: u64, now: Duration) -> Row
        ensures { result ≡ raised lsn round now self }
    {
        Row {
            acknowledged: Lsn(self.acknowledged.0.max(lsn.0)),
            round: self.round.max(round),
            heard: Some(now),
            ..self
        }
    }

    /// By what its acknowledgements count once: the id of its folder, or its address where it sent none.
    pub fn name(self) -> Name
        ensures { result ≡ name_of self }
    {
        match self.id {
            Some(id) => Name::Folder(id),
            None => Name::Address(self.peer),
        }
    }

    /// Whether its folder has this id.
    pub(crate) fn has_id(self, id: FolderId) -> bool
        ensures { IsTrue result ↔ (self.id ≡ Some id) }
    {
        match self.id {
            Some(own) => own.is(id),
            None => false,
        }
    }

    /// Whether its address is one of those that count, and it has acknowledged what is wanted.
    pub fn vouches(self, allowed: &Allowed, wanted: Wanted) -> bool
        ensures { IsTrue result ↔ Vouches allowed.now.blocks.items wanted self }
    {
        self.acknowledged.0 >= wanted.lsn.0
            && self.round >= wanted.round
            && allowed.admits(self.peer)
    }
}
