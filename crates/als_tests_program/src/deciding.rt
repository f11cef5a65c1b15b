use crate::folder::Folder;
use als_program::program;
use std::fs::File;
use std::net::{Net, TcpListener, TcpStream};
use std::random::RandomSource;
use std::rt::Files;
use std::sync::Wait;
use std::thread::Threads;
use std::time::Clock;
use std::{fs, io};

/// The log of a transaction that is prepared and not decided, and of one that a takeover undoes; the records
/// stand at 16, 52 and 80.
const TEXT: [u8; 116] = [
    65, 76, 83, 76, 79, 71, 48, 49, 0, 0, 0, 4, 0, 0, 0, 0, 0, 0, 0, 36, 1, 0, 0, 0, 0, 0, 0, 0, 0,
    0, 0, 16, 0, 0, 0, 0, 0, 0, 0, 0, 0, 0, 0, 1, 0, 0, 0, 0, 0, 255, 1, 170, 0, 0, 0, 28, 8, 0, 0,
    0, 0, 0, 0, 0, 0, 0, 0, 52, 0, 0, 0, 0, 0, 0, 0, 16, 0, 0, 0, 1, 0, 0, 0, 36, 1, 0, 0, 0, 0, 0,
    0, 0, 0, 0, 0, 80, 0, 0, 0, 0, 0, 0, 0, 0, 0, 0, 0, 2, 0, 0, 0, 0, 1, 255, 1, 187,
];

/// The files of the folder in which it lies.
const FILES: [&str; 3] = [
    "doubted/log.blk",
    "doubted/control.blk",
    "doubted/pages.blk",
];

/// The folder laid out anew, with all of that log acknowledged. `None`: allocation failed.
fn lays_out<R: AllocGlobal + Files<File = File>>(rt: &R) -> Option<()> {
    let folder = Folder::of(rt.alloc(), &TEXT)?;
    let _ = fs::remove_dir_all(rt, "doubted");
    fs::create_dir(rt, "doubted").ok()?;
    folder.write(rt, FILES)
}

const TAKEOVER: [&str; 4] = ["als", "takeover", "--dir", "doubted"];

const COMMIT: [&str; 7] = [
    "als", "resolve", "--dir", "doubted", "--trans", "1", "--commit",
];

const ROLLBACK: [&str; 7] = [
    "als",
    "resolve",
    "--dir",
    "doubted",
    "--trans",
    "1",
    "--rollback",
];

const OTHER: [&str; 7] = [
    "als", "resolve", "--dir", "doubted", "--trans", "2", "--commit",
];

const STATUS: [&str; 3] = ["als", "status", "doubted"];

/// What the folder of the new primary holds.
const HELD: &str =
    "phase=Primary pages=4 end=186 ack=186 checkpoint=0 behind=170 transactions=1 capacity=1024 left=838 rank=116/186
epoch 1 seals 116
trans 1 prepared last=52 undo=16
";

/// What a takeover leaves to the coordinator.
const TOLD: &str =
    "als: transaction 1 is in doubt: it was prepared and not decided; ask its coordinator, then run als resolve --dir doubted --trans 1 with --commit or --rollback\n";

/// The same of the first one, which was compared with no other node's.
const FIRST: &str =
    "als: doubted: its rank 0/116 was compared with no other node's (--peer): see that rank= of als status of each is not above it. Where one is, als rewind --dir doubted --to 116 takes this one back, before it answers clients\nals: transaction 1 is in doubt: it was prepared and not decided; ask its coordinator, then run als resolve --dir doubted --trans 1 with --commit or --rollback\n";

/// Whether the program prints this, tells this on standard error, and ends so.
fn answers<
    R: AllocGlobal
        + Files<File = File>
        + Net<Listener = TcpListener, Stream = TcpStream>
        + Threads
        + Wait
        + Sync
        + Clock
        + RandomSource
        + Clone
        + Send
        + Drop
        + 'static,
>(rt: &R, words: &[&str], printed: &str, told: &str, status: u8) -> bool {
    let mut output = Vec::new(rt.alloc());
    let mut errors = Vec::new(rt.alloc());
    let ended = program(rt, words, io::empty(), &mut output, &mut errors);
    ended == status
        && output.as_slice() == printed.as_bytes()
        && errors.as_slice() == told.as_bytes()
}

/// Whether a command ends well and prints this alone.
fn prints<
    R: AllocGlobal
        + Files<File = File>
        + Net<Listener = TcpListener, Stream = TcpStream>
        + Threads
        + Wait
        + Sync
        + Clock
        + RandomSource
        + Clone
        + Send
        + Drop
        + 'static,
>(rt: &R, words: &[&str], printed: &str) -> bool {
    answers(rt, words, printed, "", 0)
}

/// Whether a command is refused so.
fn refuses<
    R: AllocGlobal
        + Files<File = File>
        + Net<Listener = TcpListener, Stream = TcpStream>
        + Threads
        + Wait
        + Sync
        + Clock
        + RandomSource
        + Clone
        + Send
        + Drop
        + 'static,
>(rt: &R, words: &[&str], refusal: &str) -> bool {
    answers(rt, words, "", refusal, 3)
}

/// Nothing is decided before the takeover, which tells who is in doubt each time that it is run.
fn takes_over<
    R: AllocGlobal
        + Files<File = File>
        + Net<Listener = TcpListener, Stream = TcpStream>
        + Threads
        + Wait
        + Sync
        + Clock
        + RandomSource
        + Clone
        + Send
        + Drop
        + 'static,
>(rt: &R) -> bool {
    refuses(rt, &COMMIT, "als: refused 46 NotPrimary\n")
        && answers(rt, &TAKEOVER, "end=186\n0/0 aa\n", FIRST, 0)
        && answers(rt, &TAKEOVER, "end=186\n0/0 aa\n", TOLD, 0)
        && prints(rt, &STATUS, HELD)
        && refuses(rt, &OTHER, "als: refused 47 NotInDoubt\n")
}

/// It commits, once.
fn commits<
    R: AllocGlobal
        + Files<File = File>
        + Net<Listener = TcpListener, Stream = TcpStream>
        + Threads
        + Wait
        + Sync
        + Clock
        + RandomSource
        + Clone
        + Send
        + Drop
        + 'static,
>(rt: &R) -> bool {
    prints(rt, &COMMIT, "end=242\n0/0 aa\n")
        && refuses(rt, &COMMIT, "als: refused 47 NotInDoubt\n")
        && refuses(rt, &ROLLBACK, "als: refused 47 NotInDoubt\n")
}

/// It rolls back, once; a takeover then tells of nobody.
fn rolls_back<
    R: AllocGlobal
        + Files<File = File>
        + Net<Listener = TcpListener, Stream = TcpStream>
        + Threads
        + Wait
        + Sync
        + Clock
        + RandomSource
        + Clone
        + Send
        + Drop
        + 'static,
>(rt: &R) -> bool {
    prints(rt, &ROLLBACK, "end=284\nempty\n")
        && refuses(rt, &ROLLBACK, "als: refused 47 NotInDoubt\n")
        && prints(rt, &TAKEOVER, "end=284\nempty\n")
}

/// A commit, of which a crash then leaves all but the last write of the control block: so the
/// transaction is in doubt as before, and may roll back.
fn decides<
    R: AllocGlobal
        + Files<File = File>
        + Net<Listener = TcpListener, Stream = TcpStream>
        + Threads
        + Wait
        + Sync
        + Clock
        + RandomSource
        + Clone
        + Send
        + Drop
        + 'static,
>(rt: &R) -> Option<bool> {
    lays_out(rt)?;
    let taken_over = takes_over(rt);
    let control = fs::read(rt, FILES[1]).ok()?;
    let committed = commits(rt);
    fs::write(rt, FILES[1], control.as_slice()).ok()?;
    let rolled_back = rolls_back(rt);
    Some(taken_over && committed && rolled_back)
}

#[test]
fn a_folder_keeps_a_transaction_in_doubt_until_it_is_decided(rt: HostRuntime) {
    assert!(rt; decides(&rt) == Some(true) || decides(&rt) == Some(true));
    assert!(rt; fs::remove_dir_all(&rt, "doubted").is_ok());
}
