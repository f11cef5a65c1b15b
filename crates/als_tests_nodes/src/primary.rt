use crate::asking::{Numbered, PAGES};
use crate::confirming::OneFollower;
use als_disk::FileDisk;
use als_drive::Silent;
use als_engine::{Engine, Events};
use als_folder::Folder;
use als_followers::{Allowed, Followers, NodeSource, Quorum, Tail, Terms};
use als_lead::{
    Account, Database, Limits, NewDatabase, Primary, PrimaryUpkeep, lay_out, lead, open,
};
use als_operate::Fault;
use std::alloc::Global;
use std::fs::{File, OpenFile};
use std::net::TcpListener;
use std::rt::Files;
use std::sync::{Arc, Wait};
use std::thread;
use std::thread::Threads;
use std::time::{Clock, Duration};

/// Milliseconds after which it is looked again who follows.
const NAP: u64 = 20;

/// It is looked so often at most.
const NAPS: u32 = 500;

/// Seconds for which a standby may be silent.
const SILENCE: u64 = 20;

/// A session gives a sign after a third of so many seconds: after no less than the first standby waits for.
const BEAT: u64 = 30;

/// So many transactions are committed beside both standbys.
const BOTH: u8 = 20;

/// So many are in all.
const ALL: u8 = 40;

/// A primary whose folder is held, and the sessions of its followers.
struct Shipping<R> {
    folder: Folder,
    engine: Engine<FileDisk>,
    followers: Followers<NodeSource<R, File>>,
    tail: Arc<Tail, Global>,
    quorum: Arc<Quorum, Global>,
}

impl<R: Drop> Drop for Shipping<R> {
    fn drop(self) {
        let Shipping {
            folder,
            engine,
            followers,
            tail,
            quorum,
        } = self;
        drop(followers);
        drop(engine);
        drop(folder);
        drop(tail);
        drop(quorum);
    }
}

impl<R: Drop> Shipping<R> {
    /// Ends the sessions. What was sent is acknowledged, or the follower is cut off.
    fn end<C: Threads + Wait>(self, rt: &C) {
        let Shipping {
            folder,
            engine,
            followers,
            tail,
            quorum,
        } = self;
        followers.close(rt);
        drop(engine);
        drop(folder);
        drop(tail);
        drop(quorum);
    }
}

impl<R: AllocGlobal + Wait + Clock> Shipping<R> {
    /// Commits the next transactions, up to the one with this number, each once a follower has acknowledged
    /// it. Whether nothing failed.
    fn commit(&mut self, rt: &R, numbered: &mut Numbered, end: u8) -> bool {
        let ended = self.try_commit(rt, numbered, end);
        ended.is_ok()
    }

    fn try_commit(&mut self, rt: &R, numbered: &mut Numbered, end: u8) -> Result<(), Fault> {
        let mut upkeep = OneFollower {
            rt,
            upkeep: PrimaryUpkeep::new(rt, 0, self.engine.status().end),
            tail: Arc::try_clone(&self.tail)?,
            quorum: Arc::try_clone(&self.quorum)?,
        };
        numbered.end = end;
        // Nothing was handed out or answered yet.
        numbered.account = Account::Nothing;
        let limits = Limits {
            transactions: 1,
            bytes: u64::MAX,
        };
        lead(rt.alloc(), &mut self.engine, numbered, &mut upkeep, limits)
    }

    /// Waits until so many follow, for ten seconds at most. Whether they do.
    fn wait_for_followers(&self, rt: &R, count: u32) -> bool {
        for _ in 0..NAPS {
            if count_followers(rt, &self.quorum) == count {
                return true;
            }
            thread::sleep(rt, Duration::from_millis(NAP));
        }
        false
    }
}

/// How many follow.
fn count_followers<R: Wait>(rt: &R, quorum: &Quorum) -> u32 {
    let mut count: u32 = 0;
    for member in quorum.members(rt) {
        if member.is_some() {
            count = count.saturating_add(1);
        }
    }
    count
}

/// The sessions of those who connect to the listener. None: something failed.
fn ship<
    R: AllocGlobal
        + Files<File = File>
        + Threads
        + Wait
        + Clock
        + Clone
        + Send
        + Sync
        + Drop
        + 'static,
>(
    rt: &R,
    listener: TcpListener,
    folder: &Folder,
    engine: &Engine<FileDisk>,
    tail: &Arc<Tail, Global>,
    quorum: &Arc<Quorum, Global>,
) -> Option<Followers<NodeSource<R, File>>> {
    let alloc = rt.alloc();
    let file = folder.open_to_read(rt).ok()?.log.try_clone().ok()?;
    let own = rt.clone().ok()?;
    let read_below = Arc::try_clone(tail).ok()?;
    let source = NodeSource::new(own, alloc, file, read_below, engine.history(), BEAT).ok()?;
    let terms = Terms::new(16, Some(Duration::from_secs(SILENCE)));
    let tail = Arc::try_clone(tail).ok()?;
    let quorum = Arc::try_clone(quorum).ok()?;
    Followers::start(rt, alloc, listener, source, tail, quorum, terms).ok()
}

/// A new primary in a folder, whose followers connect to the listener. None: something failed.
fn start<
    R: AllocGlobal
        + Files<File = File>
        + Threads
        + Wait
        + Clock
        + Clone
        + Send
        + Sync
        + Drop
        + 'static,
>(rt: &R, dir: &str, listener: TcpListener) -> Option<Shipping<R>> {
    let alloc = rt.alloc();
    let new = NewDatabase {
        dir,
        pages: u64::from(PAGES),
        log_blocks: 256,
    };
    lay_out(rt, new).ok()?;
    let database = Database {
        dir,
        pages: Some(u64::from(PAGES)),
        log_blocks: Some(256),
        readers: 1,
    };
    let Primary {
        folder,
        engine,
        readers,
    } = open(rt, database, &mut Silent).ok()?;
    drop(readers);
    let tail = Arc::new(alloc, Tail::new(engine.status().acknowledged)).ok()?;
    let anybody = Allowed::new(alloc);
    let quorum = Arc::new(alloc, Quorum::new(alloc, 8, anybody).ok()?).ok()?;
    let followers = ship(rt, listener, &folder, &engine, &tail, &quorum)?;
    Some(Shipping {
        folder,
        engine,
        followers,
        tail,
        quorum,
    })
}

/// A primary in a new folder: commits beside both standbys, and then, once the first one has gone, beside the
/// second one. How many were answered as committed. None: something failed.
pub fn leads<
    R: AllocGlobal
        + Files<File = File>
        + Threads
        + Wait
        + Clock
        + Clone
        + Send
        + Sync
        + Drop
        + 'static,
>(rt: &R, dir: &str, listener: TcpListener) -> Option<u8> {
    let mut shipping = start(rt, dir, listener)?;
    let mut numbered = Numbered::new(rt.alloc());
    let is_right = shipping.wait_for_followers(rt, 2)
        && shipping.commit(rt, &mut numbered, BOTH)
        && shipping.wait_for_followers(rt, 1)
        && shipping.commit(rt, &mut numbered, ALL);
    shipping.end(rt);
    if is_right {
        Some(numbered.committed)
    } else {
        None
    }
}
