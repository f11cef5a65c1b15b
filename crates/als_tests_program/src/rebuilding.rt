// Pages that are not what their log makes of them, and that are laid out anew.
use crate::folder::Folder;
use crate::following::{SOUND, TEXT, prints, refuses};
use std::alloc::Global;
use std::fs;
use std::fs::File;
use std::net::{Net, TcpListener, TcpStream};
use std::process::Abort;
use std::random::RandomSource;
use std::rt::Files;
use std::sync::Wait;
use std::thread::Threads;
use std::time::Clock;

/// The files of the folder.
const FILES: [&str; 3] = [
    "rebuilt/log.blk",
    "rebuilt/control.blk",
    "rebuilt/pages.blk",
];

const VERIFY: [&str; 3] = ["als", "verify", "rebuilt"];

const REBUILD: [&str; 4] = ["als", "rebuild-pages", "--dir", "rebuilt"];

const GET: [&str; 5] = ["als", "get", "rebuilt", "0", "0"];

const TAKEOVER: [&str; 4] = ["als", "takeover", "--dir", "rebuilt"];

const COMMIT: [&str; 4] = ["als", "commit", "--dir", "rebuilt"];

const RESOLVE: [&str; 7] = [
    "als", "resolve", "--dir", "rebuilt", "--trans", "1", "--commit",
];

const PRIMARY: [&str; 6] = [
    "als",
    "primary",
    "--dir",
    "rebuilt",
    "--serve",
    "127.0.0.1:0",
];

/// A primary of which a number is out of its range.
const NO_PRIMARY: [&str; 8] = [
    "als",
    "primary",
    "--dir",
    "rebuilt",
    "--serve",
    "127.0.0.1:0",
    "--connections",
    "0",
];

/// What a folder with a page that is none of its log's is refused by.
const BAD: &str = "als: refused 33 BadPage 0\n";

/// The files of a folder whose first page is there at the log's update of it, with this value in
/// its first slot. `None`: allocation failed.
fn with_value(alloc: Global, value: u8) -> Option<Folder> {
    let Folder {
        log,
        control,
        mut pages,
    } = Folder::of(alloc, &TEXT)?;
    for (place, byte) in [(7, 16), (13, 1), (32, 2), (33, value)] {
        if let Some(found) = pages.get_mut(place) {
            *found = byte;
        }
    }
    Some(Folder {
        log,
        control,
        pages,
    })
}

/// Lays that folder out. `None`: memory was refused.
fn lays_out<R: AllocGlobal + Files<File = File>>(rt: &R, value: u8) -> Option<()> {
    let folder = with_value(rt.alloc(), value)?;
    folder.write(rt, FILES)
}

/// Whether the pages are made anew, and the folder is sound then, with the value that the log has.
fn is_rebuilt<
    R: AllocGlobal
        + Files<File = File>
        + Net<Listener = TcpListener, Stream = TcpStream>
        + Threads
        + Wait
        + Sync
        + Clock
        + RandomSource
        + Clone
        + Send
        + Drop
        + 'static,
>(rt: &R) -> bool {
    prints(rt, &REBUILD, "end=108 ack=108\n")
        && prints(rt, &VERIFY, SOUND)
        && prints(rt, &GET, "aa commits=1 lsn=52\n")
}

/// The same, twice at most: memory may be refused.
fn rebuilt<
    R: Abort
        + AllocGlobal
        + Files<File = File>
        + Net<Listener = TcpListener, Stream = TcpStream>
        + Threads
        + Wait
        + Sync
        + Clock
        + RandomSource
        + Clone
        + Send
        + Drop
        + 'static,
>(rt: &R) {
    assert!(rt; is_rebuilt(rt) || is_rebuilt(rt));
}

#[test]
fn pages_are_made_anew(rt: HostRuntime) {
    assert!(rt; fs::create_dir(&rt, "rebuilt").is_ok());
    // The log has 170 there.
    assert!(rt; lays_out(&rt, 171).is_some() || lays_out(&rt, 171).is_some());
    let printed = "unsound lsn=0 33 BadPage 0\n";
    assert!(rt; refuses(&rt, &VERIFY, printed, BAD) || refuses(&rt, &VERIFY, printed, BAD));
    assert!(rt; refuses(&rt, &TAKEOVER, "", BAD) || refuses(&rt, &TAKEOVER, "", BAD));
    assert!(rt; refuses(&rt, &COMMIT, "", BAD) || refuses(&rt, &COMMIT, "", BAD));
    assert!(rt; refuses(&rt, &RESOLVE, "", BAD) || refuses(&rt, &RESOLVE, "", BAD));
    assert!(rt; refuses(&rt, &PRIMARY, "", BAD) || refuses(&rt, &PRIMARY, "", BAD));
    let range =
        "als: refused 37 BadConfig\nals: --connections is 0: wanted is a number from 1 to 64\n";
    assert!(rt; refuses(&rt, &NO_PRIMARY, "", range) || refuses(&rt, &NO_PRIMARY, "", range));
    rebuilt(&rt);
    // A folder without its pages, with the left of a stop.
    assert!(rt; fs::remove_file(&rt, FILES[2]).is_ok());
    assert!(rt; fs::write(&rt, "rebuilt/pages.new", b"left").is_ok());
    rebuilt(&rt);
    // A page that is as the log has it.
    assert!(rt; lays_out(&rt, 170).is_some() || lays_out(&rt, 170).is_some());
    assert!(rt; prints(&rt, &VERIFY, SOUND) || prints(&rt, &VERIFY, SOUND));
    // Without a control block nothing is written.
    assert!(rt; fs::remove_file(&rt, FILES[1]).is_ok());
    let missing = "als: refused 30 Device\n";
    assert!(rt; refuses(&rt, &REBUILD, "", missing) || refuses(&rt, &REBUILD, "", missing));
    assert!(rt; fs::remove_dir_all(&rt, "rebuilt").is_ok());
}
