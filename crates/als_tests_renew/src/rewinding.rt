use crate::log::LOG;
use crate::node::{has, is_taken_back, lay_out, within};
use als_lookback::Fault as LookFault;
use als_record::Lsn;
use als_rewind::Fault;
use std::fs;
use std::fs::File;
use std::process::Abort;
use std::rt::Files;
use std::sync::Wait;

/// The file that keeps the log between two LSNs has its bytes.
fn keeps<R: Abort + AllocGlobal + Files<File = File>>(rt: &R, path: &str, past: &[u8]) {
    assert!(rt; has(rt, path, past));
    assert!(rt; fs::remove_file(rt, path).is_ok());
}

/// A node is taken back to the end of a commit, and again; then below the checkpoint that this left.
/// What its log had behind the LSN is kept, byte for byte.
#[test]
fn a_node_is_taken_back(rt: HostRuntime) {
    let (front, past) = LOG.split_at(80);
    let (_, between) = front.split_at(52);
    assert!(rt; lay_out(&rt, "back").is_some());
    assert!(rt; is_taken_back(&rt, "back", 80, None, "end=80 ack=80 past=73\n") == Ok(true));
    keeps(&rt, "back.past-80-to-153.log", past);
    assert!(rt; is_taken_back(&rt, "back", 80, None, "end=80 ack=80 past=0\n") == Ok(true));
    assert!(rt; is_taken_back(&rt, "back", 52, Some(1), "end=52 ack=52 past=28\n") == Ok(true));
    keeps(&rt, "back.past-52-to-80.log", between);
    assert!(rt; fs::remove_dir_all(&rt, "back").is_ok());
}

/// Where no record ends, the end below is named; and nothing is kept or written.
#[test]
fn an_lsn_that_is_none_is_refused(rt: HostRuntime) {
    let below = Lsn(80);
    let end = Lsn(153);
    assert!(rt; lay_out(&rt, "none").is_some());
    let refused = is_taken_back(&rt, "none", 81, None, "");
    assert!(rt; refused == Err(Fault::NoBoundary { below }));
    let refused = is_taken_back(&rt, "none", 15, None, "");
    assert!(rt; refused == Err(Fault::Look(LookFault::InHeader)));
    let refused = is_taken_back(&rt, "none", 154, None, "");
    assert!(rt; refused == Err(Fault::Look(LookFault::PastEnd { end })));
    assert!(rt; fs::symlink_metadata(&rt, "none.past-81-to-153.log").is_err());
    assert!(rt; is_taken_back(&rt, "none", 153, None, "end=153 ack=153 past=0\n") == Ok(true));
    assert!(rt; fs::remove_dir_all(&rt, "none").is_ok());
}

/// A file of the name with something else is left alone, and so is the node.
#[test]
fn another_file_of_the_name_is_left(rt: HostRuntime) {
    let kept = "other.past-80-to-153.log";
    let (_, past) = LOG.split_at(80);
    let other = [0; 73];
    assert!(rt; lay_out(&rt, "other").is_some());
    assert!(rt; fs::write(&rt, kept, &other).is_ok());
    assert!(rt; is_taken_back(&rt, "other", 80, None, "") == Err(Fault::Kept));
    assert!(rt; fs::write(&rt, kept, &other[..72]).is_ok());
    assert!(rt; is_taken_back(&rt, "other", 80, None, "") == Err(Fault::Kept));
    assert!(rt; fs::write(&rt, kept, past).is_ok());
    assert!(rt; is_taken_back(&rt, "other", 80, None, "end=80 ack=80 past=73\n") == Ok(true));
    keeps(&rt, kept, past);
    assert!(rt; fs::remove_dir_all(&rt, "other").is_ok());
}

/// What a call leaves that was killed: a part of the file that keeps, of the new pages and of the new
/// control block. None: it can't be written.
fn interrupt<R: AllocGlobal + Files<File = File>>(rt: &R, dir: &str, kept: &str) -> Option<()> {
    let alloc = rt.alloc();
    let (_, past) = LOG.split_at(120);
    fs::write(rt, kept, past).ok()?;
    fs::write(rt, within(alloc, dir, "pages.new")?.as_str(), past).ok()?;
    fs::write(rt, within(alloc, dir, "control.new")?.as_str(), past).ok()
}

/// A call that was killed on its way is made again.
#[test]
fn it_is_run_again(rt: HostRuntime) {
    let kept = "again.past-80-to-153.log";
    let (_, past) = LOG.split_at(80);
    assert!(rt; lay_out(&rt, "again").is_some());
    assert!(rt; interrupt(&rt, "again", "again.past-80-to-153.log.new").is_some());
    assert!(rt; is_taken_back(&rt, "again", 80, None, "end=80 ack=80 past=73\n") == Ok(true));
    keeps(&rt, kept, past);
    assert!(rt; fs::symlink_metadata(&rt, "again.past-80-to-153.log.new").is_err());
    assert!(rt; fs::symlink_metadata(&rt, "again/pages.new").is_err());
    assert!(rt; fs::symlink_metadata(&rt, "again/control.new").is_err());
    assert!(rt; fs::remove_dir_all(&rt, "again").is_ok());
}

/// What lies behind the LSN has a commit: without its number, and with another one, nothing is written.
#[test]
fn a_commit_is_lost_only_by_its_number(rt: HostRuntime) {
    let lost = Err(Fault::Loses { commits: 1 });
    assert!(rt; lay_out(&rt, "lost").is_some());
    assert!(rt; is_taken_back(&rt, "lost", 52, None, "") == lost);
    assert!(rt; is_taken_back(&rt, "lost", 52, Some(2), "") == lost);
    assert!(rt; fs::symlink_metadata(&rt, "lost.past-52-to-153.log").is_err());
    assert!(rt; is_taken_back(&rt, "lost", 153, None, "end=153 ack=153 past=0\n") == Ok(true));
    let back = is_taken_back(&rt, "lost", 52, Some(1), "end=52 ack=52 past=101\n");
    assert!(rt; back == Ok(true));
    assert!(rt; is_taken_back(&rt, "lost", 52, Some(1), "end=52 ack=52 past=0\n") == Ok(true));
    assert!(rt; fs::remove_file(&rt, "lost.past-52-to-153.log").is_ok());
    assert!(rt; fs::remove_dir_all(&rt, "lost").is_ok());
}
