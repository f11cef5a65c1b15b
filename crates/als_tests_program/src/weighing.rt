use crate::folder::Folder;
use crate::row::{Row, run_row};
use std::alloc::Global;
use std::fs;
use std::fs::File;
use std::rt::Files;

/// A log of two transactions, with commits at 52 and at 144; the first one ends at 108.
const TEXT: [u8; 200] = [
    65, 76, 83, 76, 79, 71, 48, 49, 0, 0, 0, 4, 0, 0, 0, 0, 0, 0, 0, 36, 1, 0, 0, 0, 0, 0, 0, 0, 0,
    0, 0, 16, 0, 0, 0, 0, 0, 0, 0, 0, 0, 0, 0, 1, 0, 0, 0, 0, 0, 255, 1, 170, 0, 0, 0, 28, 3, 0, 0,
    0, 0, 0, 0, 0, 0, 0, 0, 52, 0, 0, 0, 0, 0, 0, 0, 16, 0, 0, 0, 1, 0, 0, 0, 28, 5, 0, 0, 0, 0, 0,
    0, 0, 0, 0, 0, 80, 0, 0, 0, 0, 0, 0, 0, 52, 0, 0, 0, 1, 0, 0, 0, 36, 1, 0, 0, 0, 0, 0, 0, 0, 0,
    0, 0, 108, 0, 0, 0, 0, 0, 0, 0, 0, 0, 0, 0, 2, 0, 0, 0, 0, 1, 255, 1, 187, 0, 0, 0, 28, 3, 0,
    0, 0, 0, 0, 0, 0, 0, 0, 0, 144, 0, 0, 0, 0, 0, 0, 0, 108, 0, 0, 0, 2, 0, 0, 0, 28, 5, 0, 0, 0,
    0, 0, 0, 0, 0, 0, 0, 172, 0, 0, 0, 0, 0, 0, 0, 144, 0, 0, 0, 2,
];

/// A folder with the node that holds this much of the log. `None`: it can't be written.
fn lays_out<R: AllocGlobal + Files<File = File>>(rt: &R, dir: &str, end: usize) -> Option<()> {
    let alloc = rt.alloc();
    let _ = fs::remove_dir_all(rt, dir);
    fs::create_dir(rt, dir).ok()?;
    let log = format!(in alloc; "{dir}/log.blk").ok()?;
    let control = format!(in alloc; "{dir}/control.blk").ok()?;
    let pages = format!(in alloc; "{dir}/pages.blk").ok()?;
    let names = [log.as_str(), control.as_str(), pages.as_str()];
    Folder::of(alloc, TEXT.get(..end)?)?.write(rt, names)
}

/// The nodes of a test, laid out twice at most.
fn lay_out<R: AllocGlobal + Files<File = File>>(rt: &R, dir: &str, end: usize) -> bool {
    lays_out(rt, dir, end).is_some() || lays_out(rt, dir, end).is_some()
}

/// What a takeover of the node that lags says, where another one holds more.
const ABOVE: &str =
    "als: ahead holds more: its rank is 0/200, and this node's 0/108. Take that one over, or let this one follow it first. Nothing was written
als: refused 22 LogBehind
";

/// The same, where another one does not answer.
const SILENT: &str =
    "als: nobody did not say what it holds (44 Stream); this node's rank is 0/108. Nothing was written
als: refused 44 Stream
";

/// What is said of one that was compared with nobody.
const ALONE: &str =
    "als: behind: its rank 0/108 was compared with no other node's (--peer): see that rank= of als status of each is not above it. Where one is, als rewind --dir behind --to 108 takes this one back, before it answers clients\n";

/// What a node holds that is refused.
const HELD: &str =
    "phase=Following pages=4 end=108 ack=108 checkpoint=0 behind=92 transactions=0 capacity=1024 left=916 rank=0/108\n";

/// A node that lags is taken over beside one that holds more only where that one is not named.
#[test]
fn a_peer_that_holds_more_is_not_passed_over(rt: HostRuntime) {
    assert!(rt; lay_out(&rt, "behind", 108) && lay_out(&rt, "ahead", 200));
    let above = ["als", "takeover", "behind", "--peer", "ahead"];
    run_row(&rt, Row::of(&above, "", "").failing(ABOVE, 3));
    let silent = ["als", "takeover", "behind", "--peer", "nobody"];
    run_row(&rt, Row::of(&silent, "", "").failing(SILENT, 3));
    let status = ["als", "status", "behind"];
    run_row(&rt, Row::of(&status, "", HELD));
    let below = ["als", "takeover", "--dir=ahead", "--peer=behind"];
    run_row(&rt, Row::of(&below, "", "end=200\n0/0 aa\n0/1 bb\n"));
    let alone = ["als", "takeover", "behind"];
    run_row(
        &rt,
        Row::of(&alone, "", "end=108\n0/0 aa\n").failing(ALONE, 0),
    );
    assert!(rt; fs::remove_dir_all(&rt, "behind").is_ok());
    assert!(rt; fs::remove_dir_all(&rt, "ahead").is_ok());
}

/// What `als rewind` says of the commit behind the LSN.
const LOST: &str = "als: commits behind 108: 1
als:   transaction 2 at 144
als: clients may have been answered for this 1 commit; perhaps the wrong node was taken over
";

/// And where its number is not given.
const UNSAID: &str = "als: commits behind 108: 1
als:   transaction 2 at 144
als: clients may have been answered for this 1 commit; perhaps the wrong node was taken over
als: nothing was written: als rewind loses what was committed there only with --lose-commits 1
als: refused 37 BadConfig
";

/// A commit is lost only where its number was given.
#[test]
fn commits_are_lost_by_their_number(rt: HostRuntime) {
    assert!(rt; lay_out(&rt, "losing", 200));
    let back = ["als", "rewind", "--dir", "losing", "--to", "108"];
    run_row(&rt, Row::of(&back, "", "").failing(UNSAID, 3));
    let two = [
        "als",
        "rewind",
        "--dir",
        "losing",
        "--to",
        "108",
        "--lose-commits",
        "2",
    ];
    run_row(&rt, Row::of(&two, "", "").failing(UNSAID, 3));
    let one = [
        "als",
        "rewind",
        "--dir",
        "losing",
        "--to",
        "108",
        "--lose-commits",
        "1",
    ];
    run_row(
        &rt,
        Row::of(&one, "", "end=108 ack=108 past=92\n").failing(LOST, 0),
    );
    assert!(rt; fs::remove_file(&rt, "losing.past-108-to-200.log").is_ok());
    assert!(rt; fs::remove_dir_all(&rt, "losing").is_ok());
}
