use crate::resident::resident;
use als_published_log::{Fault, PublishedLog};
use als_record::Key;
use als_sample_logs::{FIRST, PAGES, Primary};
use als_view::Reader;
use std::io;
use std::rt::Files;
use std::sync::Wait;

/// A frame of a session.
const FRAME: usize = 65_536;

const MEGABYTE: usize = 1 << 20;

/// The figures are of so many MB of log.
const MARKS: [usize; 3] = [16, 32, 64];

/// Prints how much memory this process has behind 16, 32 and 64 MB of a log, more than before its
/// first frame. Each frame is published, so the list of commits grows.
pub fn follow_all<R: Print + Files + AllocGlobal + Wait>(rt: &R) -> io::Result<()> {
    let bytes = MEGABYTE.saturating_mul(64);
    let written = Primary::new(rt.alloc(), 16, bytes, PAGES);
    let text = match written.and_then(|primary| primary.write(bytes)) {
        Ok(text) => text,
        Err(fault) => return println!(rt; "{fault}"),
    };
    match PublishedLog::new(rt.alloc(), rt, PAGES, 1) {
        Ok((mut log, mut readers)) => {
            if let Some(mut reader) = readers.pop() {
                follow(rt, &mut log, &mut reader, text.as_slice())?;
            }
            log.close(rt);
        }
        Err(fault) => println!(rt; "{fault}")?,
    }
    Ok(())
}

fn follow<R: Print + Files + AllocGlobal + Wait>(
    rt: &R,
    log: &mut PublishedLog,
    reader: &mut Reader,
    text: &[u8],
) -> io::Result<()> {
    let before = resident(rt);
    for megabytes in MARKS {
        if let Err(fault) = publish_to(rt, log, text, MEGABYTE.saturating_mul(megabytes)) {
            return println!(rt; "{fault}");
        }
        let now = resident(rt);
        let commits = count(reader);
        let (Some(before), Some(now)) = (before, now) else {
            return println!(rt; "this machine does not say how much memory a process has");
        };
        let kilobytes = now.saturating_sub(before).saturating_mul(4);
        println!(rt;
            "behind {megabytes} MB of log: {commits} commits, {kilobytes} KiB more, {} bytes a commit",
            kilobytes.saturating_mul(1024) / commits.max(1)
        )?;
    }
    Ok(())
}

/// Takes the log up to so many bytes in frames, and publishes each.
fn publish_to<R: Wait>(
    rt: &R,
    log: &mut PublishedLog,
    text: &[u8],
    bytes: usize,
) -> Result<(), Fault> {
    let last = bytes.min(text.len());
    for _ in 0..(bytes / FRAME).saturating_add(2) {
        let from = log.end().0 as usize;
        if from < FIRST || from >= last {
            break;
        }
        let to = from.saturating_add(FRAME).min(last);
        match text.get(from..to) {
            Some(frame) => log.feed(frame)?,
            None => break,
        }
        log.publish(rt)?;
    }
    Ok(())
}

/// How many commits are published.
fn count(reader: &mut Reader) -> u64 {
    match reader.get(Key { page: 0, slot: 0 }) {
        Ok(answer) => answer.commits,
        Err(_) => 0,
    }
}
