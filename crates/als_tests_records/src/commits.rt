use crate::made::image;
use als_commits::{Commit, GatheredWrites, Waiting};
use als_record::{BodyView, Image, ImageView, KeptUpdate, Key, Lsn, RecordView, TransId};
use std::alloc::Global;
use std::process::Abort;

fn key(page: u32, slot: u8) -> Key {
    Key { page, slot }
}

// A commit of one write, none where allocation fails.
fn commit_of(alloc: Global, lsn: u64, at: Key, value: Option<u8>) -> Option<Commit> {
    let mut gathered = GatheredWrites::with_room(alloc, 1).ok()?;
    gathered.add(at, &ImageView::of(&image(value))).ok()?;
    Some(Commit {
        trans: TransId(1),
        lsn: Lsn(lsn),
        writes: gathered.share().ok()?,
    })
}

// Three commits wait, at 52, 116 and 200: their records end at 80, 144 and 228.
fn filled(alloc: Global) -> Option<Waiting> {
    let mut waiting = Waiting::new(alloc);
    waiting.reserve(3).ok()?;
    for lsn in [52, 116, 200] {
        waiting
            .queue(commit_of(alloc, lsn, key(0, 0), Some(0xaa))?)
            .ok()?;
    }
    Some(waiting)
}

// How many of them begin below an LSN, and how many end at or below an offset.
fn counts(rt: &impl Abort, alloc: Global) -> Option<()> {
    let mut waiting = filled(alloc)?;
    assert!(rt; waiting.count_below(Lsn(52)) == 0);
    assert!(rt; waiting.count_below(Lsn(53)) == 1);
    assert!(rt; waiting.count_below(Lsn(201)) == 3);
    assert!(rt; waiting.count_ended(Lsn(79)) == 0);
    assert!(rt; waiting.count_ended(Lsn(80)) == 1);
    assert!(rt; waiting.count_ended(Lsn(227)) == 2);
    assert!(rt; waiting.count_ended(Lsn(228)) == 3);
    let first = waiting.pop()?;
    assert!(rt; (first.lsn.0, waiting.len()) == (52, 2));
    waiting.put_back(first);
    assert!(rt; waiting.len() == 3);
    Some(())
}

#[test]
fn commits_wait_in_order(rt: HostRuntime) {
    let alloc = rt.alloc();
    assert!(rt; counts(&rt, alloc).is_some() || counts(&rt, alloc).is_some());
}

// What survives of a transaction that commits at 152: at 16 it gave (0,0) the value aa, at 116 it
// gave (0,1) nothing.
fn survivors(alloc: Global) -> Option<Vec<KeptUpdate>> {
    let mut left = Vec::with_capacity(alloc, 2).ok()?;
    left.push(update(16, key(0, 0), &None, &image(Some(0xaa))))
        .ok()?;
    left.push(update(116, key(0, 1), &image(Some(1)), &None))
        .ok()?;
    Some(left)
}

fn update(lsn: u64, key: Key, before: &Image, after: &Image) -> KeptUpdate {
    let (before, after) = (ImageView::of(before), ImageView::of(after));
    let logged = RecordView {
        lsn: Lsn(lsn),
        prev: Lsn(0),
        trans: TransId(3),
        body: BodyView::Update { key, before, after },
    };
    KeptUpdate::of(&logged, key, &before, &after)
}

// The commit has the keys and after images of its survivors, in order, and the LSN of its own
// record.
fn is_made(rt: &impl Abort, alloc: Global) -> Option<()> {
    let left = survivors(alloc)?;
    let made = Commit::of(alloc, TransId(3), Lsn(152), left.as_slice()).ok()?;
    assert!(rt; (made.trans.0, made.lsn.0, made.writes.len()) == (3, 152, 2));
    let mut writes = made.writes.left();
    for _ in 0..made.writes.len() {
        let write = writes.next()?;
        assert!(rt; write.after.image().is_some() == (write.key.slot == 0));
    }
    Some(())
}

#[test]
fn a_commit_is_made_of_what_survives(rt: HostRuntime) {
    let alloc = rt.alloc();
    assert!(rt; is_made(&rt, alloc).is_some() || is_made(&rt, alloc).is_some());
}
