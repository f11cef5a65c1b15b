use crate::desk::Desk;
use als_disk::{FailingDisk, Fuse, MemDisk};
use als_engine::{Config, Decision, Disks, Engine};
use als_lead::{Account, Asked};
use als_record::{ImageView, KeptImage, Key, TransId};
use als_writer::{Ask, Set, Transaction, Work};
use std::alloc::Global;
use std::collections::VecDeque;
use std::sync::Wait;

pub type Disk = FailingDisk<MemDisk>;

/// A primary of four pages, of which eight blocks of log, and what makes its log device fail. `None`:
/// allocation failed.
pub fn primary<R: Wait>(rt: &R, alloc: Global) -> Option<(Engine<Disk>, Fuse)> {
    let log = Fuse::new(alloc).ok()?;
    let control = Fuse::new(alloc).ok()?;
    let pages = Fuse::new(alloc).ok()?;
    let disks = Disks {
        log: FailingDisk::new(MemDisk::new(alloc, 8), log.clone().ok()?),
        control: FailingDisk::new(MemDisk::new(alloc, 321), control),
        pages: FailingDisk::new(MemDisk::new(alloc, 4), pages),
    };
    let config = Config {
        pages: 4,
        frames: 4,
        pending: 1000,
        readers: 1,
    };
    let (engine, _) = Engine::format(alloc, rt, disks, config).ok()?;
    Some((engine, log))
}

/// The value of one byte.
fn value(byte: u8) -> KeptImage {
    KeptImage::of(&ImageView {
        bytes: Some(&[byte]),
    })
}

/// A transaction of the key 0/0: where that has an image, it gets one.
fn transaction(alloc: Global, is: Option<KeptImage>, to: Option<KeptImage>) -> Option<Transaction> {
    let key = Key { page: 0, slot: 0 };
    let mut asks = Vec::new(alloc);
    let mut sets = Vec::new(alloc);
    if let Some(image) = is {
        asks.push(Ask::Is { key, image }).ok()?;
    }
    if let Some(image) = to {
        sets.push(Set { key, image }).ok()?;
    }
    Some(Transaction { asks, sets })
}

/// What a seat asks for: a transaction that commits.
fn commit(alloc: Global, seat: u64, is: Option<KeptImage>, to: Option<KeptImage>) -> Option<Asked> {
    let work = Work::Commit(transaction(alloc, is, to)?);
    Some(Asked { seat, work })
}

/// One that prepares.
fn prepare(
    alloc: Global,
    seat: u64,
    is: Option<KeptImage>,
    to: Option<KeptImage>,
) -> Option<Asked> {
    let work = Work::Prepare(transaction(alloc, is, to)?);
    Some(Asked { seat, work })
}

/// A decision of the transaction of this number.
fn decide(seat: u64, number: u32, verdict: Decision) -> Asked {
    let trans = TransId(number);
    let work = Work::Decide { trans, verdict };
    Asked { seat, work }
}

/// Clients that nobody has answered yet.
fn asking(alloc: Global, asks: VecDeque<Asked>) -> Desk {
    Desk {
        asks,
        waits: u32::MAX,
        seen: Vec::new(alloc),
        groups: 0,
        account: Account::Nothing,
    }
}

/// Four seats: 7 sets the key to `aa`, 3 wants it absent, 9 sets nothing, and 5 sets it from `aa` to
/// `bb`.
pub fn desk(alloc: Global) -> Option<Desk> {
    let mut asks = VecDeque::new(alloc);
    let absent = KeptImage::absent();
    asks.push_back(commit(alloc, 7, None, Some(value(0xaa)))?)
        .ok()?;
    asks.push_back(commit(alloc, 3, Some(absent), Some(value(0xcc)))?)
        .ok()?;
    asks.push_back(commit(alloc, 9, None, None)?).ok()?;
    asks.push_back(commit(alloc, 5, Some(value(0xaa)), Some(value(0xbb)))?)
        .ok()?;
    Some(asking(alloc, asks))
}

/// Eight seats: 7 prepares that the key becomes `aa`, 3 wants it to be `bb` meanwhile, and 9 commits the
/// first. 5 sets it from `aa` to `bb`, and 4 prepares that it becomes `cc`, which 6 rolls back. 8 commits
/// that once more, and 2 sets it from `bb` to `dd`.
pub fn doubts(alloc: Global) -> Option<Desk> {
    let mut asks = VecDeque::new(alloc);
    let bb = Some(value(0xbb));
    asks.push_back(prepare(alloc, 7, None, Some(value(0xaa)))?)
        .ok()?;
    asks.push_back(commit(alloc, 3, None, bb)?).ok()?;
    asks.push_back(decide(9, 1, Decision::Commit)).ok()?;
    asks.push_back(commit(alloc, 5, Some(value(0xaa)), bb)?)
        .ok()?;
    asks.push_back(prepare(alloc, 4, bb, Some(value(0xcc)))?)
        .ok()?;
    asks.push_back(decide(6, 3, Decision::Rollback)).ok()?;
    asks.push_back(decide(8, 3, Decision::Commit)).ok()?;
    asks.push_back(commit(alloc, 2, bb, Some(value(0xdd)))?)
        .ok()?;
    Some(asking(alloc, asks))
}
