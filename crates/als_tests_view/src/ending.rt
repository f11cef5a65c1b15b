use crate::written::{Change, transaction};
use als_published_log::PublishedLog;
use als_record::Key;
use std::alloc::Global;
use std::fs;
use std::rt::Files;
use std::sync::Wait;
use std::test::*;

/// Pages of the database: the two copies of its view have 4 MB.
const PAGES: u32 = 4096;

/// How many views are opened and ended: together they have 1 GB.
const ROUNDS: u32 = 256;

/// Memory that may stay, in the machine's pages of 4 KiB: 400 MB, which is more than an allocator
/// holds back.
const KEPT: u64 = 102_400;

/// A view with eight readers is opened, shows a commit in both copies, and ends. `None`: memory was
/// refused.
fn open_and_end<R: Wait>(rt: &R, alloc: Global) -> Option<()> {
    let (mut log, readers) = PublishedLog::new(alloc, rt, PAGES, 8).ok()?;
    let change = Change {
        key: Key { page: 1, slot: 2 },
        before: None,
        after: Some(7),
    };
    let text = transaction(alloc, log.end(), 1, &[change])?;
    let fed = log.feed(text.as_slice()).is_ok();
    let first = log.publish(rt).is_ok();
    let second = log.publish(rt).is_ok();
    log.close(rt);
    drop(readers);
    if fed && first && second {
        Some(())
    } else {
        None
    }
}

/// The memory of this process, in the machine's pages. `None`: the machine does not say.
fn resident<R: Files + AllocGlobal>(rt: &R) -> Option<u64> {
    let text = fs::read_to_string(rt, "/proc/self/statm").ok()?;
    text.as_str().split_whitespace().nth(1)?.parse::<u64>().ok()
}

/// Both copies, every reader and the list of commits are given back where a view ends: no clause
/// can say it, since nothing counts what `Global` has given out.
#[test]
fn an_ended_view_gives_its_memory_back(rt: HostRuntime) -> Result<(), Fail> {
    let alloc = rt.alloc();
    let before = resident(&rt);
    let mut ended = 0u32;
    for _ in 0..ROUNDS {
        if open_and_end(&rt, alloc).is_some() {
            ended = ended.saturating_add(1);
        }
    }
    assert!(rt; ended.saturating_add(1) >= ROUNDS);
    if let (Some(before), Some(after)) = (before, resident(&rt)) {
        assert!(rt; after.saturating_sub(before) < KEPT, "{before} {after}");
    }
    Ok(())
}
