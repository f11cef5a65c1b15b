ghost use Rattle.std.specs.Prelude.{◌≡◌, ◌≢◌, ◌↔◌, ◌++◌, ◌∷◌, ℕ, List, [], Option, Some, None, IsTrue};
ghost use Rattle.als_sending.specs.Accounts.{heard_of, begun_of};

use crate::notice::{Notice, What};
use crate::notices::Notices;
use crate::rounds::Rounds;
use als_quorum::{FolderId, Quorum, Tail};
use als_record::Lsn;
use als_sending::{Heard, Marks};
use std::alloc::{AllocError, Global};
use std::net::IpAddr;
use std::sync::Wait;
use std::time::Clock;

/// The seat of a session's follower, from when it said the id of its folder, or else was admitted, until it leaves.
pub(crate) struct Seated<'a, R> {
    rt: &'a R,
    tail: &'a Tail,
    quorum: &'a Quorum,
    notices: &'a Notices,
    peer: IpAddr,
    /// The id of its folder. None: it sent none.
    id: Option<FolderId>,
    seat: Option<u32>,
    /// Whether it was admitted.
    is_admitted: bool,
    /// In which rounds the frames were sent that it has not answered.
    rounds: Rounds,
    heard: Heard,
}

impl<R> Drop for Seated<'_, R> {
    fn drop(self) {
        let Seated {
            rt: _,
            tail: _,
            quorum: _,
            notices: _,
            peer: _,
            id: _,
            seat: _,
            is_admitted: _,
            rounds,
            heard,
        } = self;
        drop(rounds);
        drop(heard);
    }
}

impl<'a, R: Wait + Clock> Seated<'a, R> {
    /// A follower at this address, which has not asked yet.
    pub fn new(
        rt: &'a R,
        alloc: Global,
        tail: &'a Tail,
        quorum: &'a Quorum,
        notices: &'a Notices,
        peer: IpAddr,
    ) -> Result<Seated<'a, R>, AllocError> {
        Ok(Seated {
            rt,
            tail,
            quorum,
            notices,
            peer,
            id: None,
            seat: None,
            is_admitted: false,
            rounds: Rounds::new(alloc)?,
            heard: Heard::Nothing,
        })
    }

    /// Whether it was admitted.
    pub fn has_begun(&self) -> bool
        ensures { result ≡ self.now.is_admitted }
    {
        self.is_admitted
    }

    /// Its folder has this id: takes a seat under it, unless it has one. Returns whether it has a seat: else none
    /// is free, or the follower of another session has that id.
    pub fn claim(&mut self, id: FolderId) -> bool
        ensures claimed { IsTrue result ↔ (self.new.seat ≢ None) }
        ensures id { self.new.id ≡ Some id }
        ensures same { self.new.heard ≡ self.old.heard }
    {
        self.id = Some(id);
        self.sit();
        self.seat.is_some()
    }

    /// Takes a seat, unless it has one.
    fn sit(&mut self)
        ensures once { self.old.seat ≢ None → self.new.seat ≡ self.old.seat }
        ensures id { self.new.id ≡ self.old.id }
        ensures same { self.new.heard ≡ self.old.heard }
    {
        if self.seat.is_none() {
            self.seat = self.quorum.join(self.rt, self.peer, self.id);
        }
    }

    /// Frees its seat: what it acknowledged counts no more.
    pub fn leave(&mut self)
        ensures left { self.new.seat ≡ None }
        ensures same { self.new.heard ≡ self.old.heard }
    {
        if let Some(seat) = self.seat {
            self.quorum.leave(self.rt, seat);
        }
        self.seat = None;
    }
}

impl<R: Wait + Clock> Marks for Seated<'_, R> {
    ghost use Rattle.std.specs.Prelude.{Some};
    ghost use Rattle.als_sending.specs.Accounts.{heard_of, begun_of};

    ghost heard = { λ seated. heard_of seated.heard };

    ghost begun = { λ seated. Some (begun_of seated.heard) };

    fn begin(&mut self, from: Lsn) {
        self.heard.begin(from);
        self.is_admitted = true;
        self.sit();
        let came = Notice {
            peer: self.peer,
            what: What::Came(from),
        };
        self.notices.put(self.rt, came);
    }

    fn send(&mut self) {
        let round = self.tail.round(self.rt);
        self.rounds.send(round);
    }

    fn acknowledge(&mut self, lsn: Lsn) {
        self.heard.acknowledge(lsn);
        let round = self.rounds.answer();
        // Nothing above the tail was sent, so nobody has acknowledged it.
        let end = self.tail.reach(self.rt).end.0;
        if let Some(seat) = self.seat {
            let held = Lsn(lsn.0.min(end));
            self.quorum.acknowledge(self.rt, seat, held, round);
        }
    }
}
