ghost use Rattle.std.specs.Prelude.{◌≡◌, ◌↔◌, IsTrue, IfOk};
ghost use Rattle.als_callers.specs.Members.{Admits};
ghost use Rattle.als_quorum.specs.Tallies.{IsTallyOf};

use crate::folder_id::FolderId;
use crate::member::Member;
use crate::roll::{Roll, SEATS};
use crate::row::Row;
use crate::tally::Tally;
use crate::wanted::Wanted;
use als_callers::Allowed;
use als_record::Lsn;
use std::alloc::{AllocError, Global};
use std::net::IpAddr;
use std::sync::{Condvar, CondvarTimeouts, Mutex, Wait};
use std::time::{Clock, Duration};

/// The roll, and whether it is closed.
struct Held {
    roll: Roll,
    is_closed: bool,
}

impl Drop for Held {
    fn drop(self) {
        let Held { roll, is_closed: _ } = self;
        drop(roll);
    }
}

impl Held {
    /// Whether a leader that wants `count` acknowledgements goes on waiting.
    fn is_awaited(&self, allowed: &Allowed, count: u32, wanted: Wanted) -> bool {
        !self.is_closed && !self.roll.has_enough(allowed, count, wanted)
    }
}

/// The roll under its lock, which sessions and a leader share, and whose word counts.
pub struct Quorum {
    /// The addresses that count. They never change, so no lock hides them.
    allowed: Allowed,
    held: Mutex<Held>,
    changed: Condvar,
}

impl Drop for Quorum {
    fn drop(self) {
        let Quorum {
            allowed,
            held,
            changed: _,
        } = self;
        drop(allowed);
        drop(held);
    }
}

impl Quorum {
    /// A quorum with this many free seats, at most eight, where these addresses count.
    pub fn new(alloc: Global, seats: u32, allowed: Allowed) -> Result<Quorum, AllocError>
        ensures { IfOk result (λ quorum. quorum.allowed ≡ allowed) }
    {
        let roll = Roll::new(alloc, seats)?;
        let held = Held {
            roll,
            is_closed: false,
        };
        Ok(Quorum {
            allowed,
            held: Mutex::new(held),
            changed: Condvar::new(),
        })
    }

    /// Whether what a follower at this address acknowledges counts.
    pub fn admits(&self, peer: IpAddr) -> bool
        ensures { IsTrue result ↔ Admits self.now.allowed.blocks.items peer }
    {
        self.allowed.admits(peer)
    }

    /// Takes a free seat for the follower of a session, which has acknowledged nothing yet, and whose folder
    /// has this id, where it sent one. None: no seat is free, or the follower of a seat has that id.
    pub fn join<R: Wait + Clock>(&self, rt: &R, peer: IpAddr, id: Option<FolderId>) -> Option<u32> {
        let now = now_of(rt);
        self.held.lock(rt).roll.join(peer, id, now)
    }

    /// The follower of a seat has acknowledged the log up to there, in its answer to a frame that was sent in this round
    /// of the tail.
    pub fn acknowledge<R: Wait + Clock>(&self, rt: &R, seat: u32, lsn: Lsn, round: u64) {
        let now = now_of(rt);
        self.held.lock(rt).roll.acknowledge(seat, lsn, round, now);
        self.changed.notify_all();
    }

    /// The session of a seat has ended.
    pub fn leave<R: Wait>(&self, rt: &R, seat: u32) {
        self.held.lock(rt).roll.leave(seat);
    }

    /// Waits, at most this long, until `count` followers of different names, at addresses that count, have
    /// acknowledged what is wanted: of different folders, or of different addresses where they sent no id. Returns
    /// whether they have, by a roll that it looked at. Once closed it does not wait.
    pub fn wait_for<R: Wait + Clock>(
        &self,
        rt: &R,
        count: u32,
        wanted: Wanted,
        at_most: Duration,
    ) -> Tally
        ensures tally { IsTallyOf self.now.allowed.blocks.items count wanted.lsn.0 result }
        ensures round { result.round ≡ wanted.round }
    {
        let held = self.held.lock(rt);
        if !held.is_awaited(&self.allowed, count, wanted) {
            return Tally::of(&held.roll, &self.allowed, count, wanted);
        }
        let (held, _) = self.changed.wait_timeout_while(
            rt,
            held,
            at_most,
            |held| held.is_awaited(&self.allowed, count, wanted),
        );
        Tally::of(&held.roll, &self.allowed, count, wanted)
    }

    /// Wakes all waiting threads. Nothing waits any more.
    pub fn close<R: Wait>(&self, rt: &R) {
        self.held.lock(rt).is_closed = true;
        self.changed.notify_all();
    }

    /// Those who have a seat, by seat.
    pub fn members<R: Wait>(&self, rt: &R) -> [Option<Member>; SEATS as usize] {
        let mut members = [None; SEATS as usize];
        let held = self.held.lock(rt);
        copy_rows(held.roll.rows(), &self.allowed, &mut members);
        members
    }
}

/// Copies as many rows as fit.
fn copy_rows(from: &[Option<Row>], allowed: &Allowed, into: &mut [Option<Member>; SEATS as usize]) {
    for (at, row) in from.iter().enumerate() {
        if at < into.len() {
            into[at] = match row {
                Some(row) => Some(Member::of(*row, allowed)),
                None => None,
            };
        }
    }
}

/// The time by the clock, 0 if it cannot be read.
fn now_of<C: Clock>(clock: &C) -> Duration {
    match clock.monotonic() {
        Ok(now) => now,
        Err(_) => Duration::ZERO,
    }
}
