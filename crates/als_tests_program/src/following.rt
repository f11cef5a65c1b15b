use als_program::program;
use std::fs::File;
use std::net::{Ipv4Addr, Net, SocketAddr, TcpListener, TcpStream};
use std::random::RandomSource;
use std::rt::Files;
use std::sync::Wait;
use std::thread::Threads;
use std::time::Clock;
use std::{fs, io, thread};

/// A log of a database of four pages: its header, an update of 0/0 to `aa` at 16, its commit at 52
/// and its end at 80.
pub const TEXT: [u8; 108] = [
    65, 76, 83, 76, 79, 71, 48, 49, 0, 0, 0, 4, 0, 0, 0, 0, 0, 0, 0, 36, 1, 0, 0, 0, 0, 0, 0, 0, 0,
    0, 0, 16, 0, 0, 0, 0, 0, 0, 0, 0, 0, 0, 0, 1, 0, 0, 0, 0, 0, 255, 1, 170, 0, 0, 0, 28, 3, 0, 0,
    0, 0, 0, 0, 0, 0, 0, 0, 52, 0, 0, 0, 0, 0, 0, 0, 16, 0, 0, 0, 1, 0, 0, 0, 28, 5, 0, 0, 0, 0, 0,
    0, 0, 0, 0, 0, 80, 0, 0, 0, 0, 0, 0, 0, 52, 0, 0, 0, 1,
];

/// What `als verify` prints of that log.
pub const SOUND: &str =
    "sound records=3 end=108 sha256=511e7b7b06ae9a18af1071bf37cd082a067daa3f90aa2042025e4657f70a0a3d\n";

/// Whether the program ends well, tells nothing and prints this.
pub fn prints<
    R: AllocGlobal
        + Files<File = File>
        + Net<Listener = TcpListener, Stream = TcpStream>
        + Threads
        + Wait
        + Sync
        + Clock
        + RandomSource
        + Clone
        + Send
        + Drop
        + 'static,
>(rt: &R, words: &[&str], wanted: &str) -> bool {
    let mut output = Vec::new(rt.alloc());
    let mut errors = Vec::new(rt.alloc());
    let status = program(rt, words, io::empty(), &mut output, &mut errors);
    status == 0 && errors.is_empty() && output.as_slice() == wanted.as_bytes()
}

/// Whether the program is refused so, and prints this.
pub fn refuses<
    R: AllocGlobal
        + Files<File = File>
        + Net<Listener = TcpListener, Stream = TcpStream>
        + Threads
        + Wait
        + Sync
        + Clock
        + RandomSource
        + Clone
        + Send
        + Drop
        + 'static,
>(rt: &R, words: &[&str], printed: &str, refusal: &str) -> bool {
    let mut output = Vec::new(rt.alloc());
    let mut errors = Vec::new(rt.alloc());
    let status = program(rt, words, io::empty(), &mut output, &mut errors);
    status == 3
        && output.as_slice() == printed.as_bytes()
        && errors.as_slice() == refusal.as_bytes()
}

/// A port of this machine that nobody listens at, as text. `None`: allocation failed.
pub fn free_port<N>(rt: &N) -> Option<String>
where
    N: AllocGlobal + Net<Listener = TcpListener, Stream = TcpStream>,
{
    let listener = TcpListener::bind(rt, SocketAddr::from((Ipv4Addr::LOCALHOST, 0))).ok()?;
    let addr = listener.local_addr().ok()?;
    format!(in rt.alloc(); "{addr}").ok()
}

/// Follows a session with so many threads that redo, and is called again while it is refused:
/// nobody may listen yet, or allocation failed.
fn stands<
    R: AllocGlobal
        + Files<File = File>
        + Net<Listener = TcpListener, Stream = TcpStream>
        + Threads
        + Wait
        + Sync
        + Clock
        + RandomSource
        + Clone
        + Send
        + Drop
        + 'static,
>(rt: &R, addr: &str, workers: &str) -> bool {
    let words = [
        "als",
        "standby",
        "--dir",
        "followed",
        "--from",
        addr,
        "--pages",
        "4",
        "--workers",
        workers,
    ];
    for _ in 0..1000 {
        if prints(rt, &words, "end=108 ack=108\n") {
            return true;
        }
    }
    false
}

/// Comes to the shipper and asks for nothing, once it listens.
fn scans<R: Net>(rt: &R, addr: &str) -> bool {
    for _ in 0..1_000_000 {
        if let Ok(_stream) = TcpStream::connect(rt, addr) {
            return true;
        }
    }
    false
}

/// Serves a session: whether the sending end prints this. A growth that was refused is met by a
/// second try.
fn ships<
    R: AllocGlobal
        + Files<File = File>
        + Net<Listener = TcpListener, Stream = TcpStream>
        + Threads
        + Wait
        + Sync
        + Clock
        + RandomSource
        + Clone
        + Send
        + Drop
        + 'static,
>(rt: &R, addr: &str, sent: &str) -> bool {
    let words = ["als", "ship", "--log", "followed.log", "--listen", addr];
    prints(rt, &words, sent) || prints(rt, &words, sent)
}

/// A log that is shipped, and a folder in which it is followed.
fn lays_out<R: Files<File = File>>(rt: &R) -> bool {
    fs::write(rt, "followed.log", TEXT).is_ok() && fs::create_dir(rt, "followed").is_ok()
}

/// What the folder's phase is, and what committed transactions left at keys of it, outside the
/// database too.
fn holds<
    R: AllocGlobal
        + Files<File = File>
        + Net<Listener = TcpListener, Stream = TcpStream>
        + Threads
        + Wait
        + Sync
        + Clock
        + RandomSource
        + Clone
        + Send
        + Drop
        + 'static,
>(rt: &R, phase: &str) -> bool {
    prints(rt, &["als", "status", "followed"], phase)
        && prints(
            rt,
            &["als", "get", "followed", "0", "0"],
            "aa commits=1 lsn=52\n",
        )
        && prints(
            rt,
            &["als", "get", "followed", "3", "1"],
            "- commits=1 lsn=52\n",
        )
        && prints(
            rt,
            &["als", "get", "followed", "4", "255"],
            "- commits=1 lsn=52\n",
        )
}

/// The folder's state before the takeover, and after it.
const FOLLOWING: &str =
    "phase=Following pages=4 end=108 ack=108 checkpoint=108 behind=0 transactions=0 capacity=1048576 left=1048468 rank=0/108\n";

const PRIMARY: &str =
    "phase=Primary pages=4 end=108 ack=108 checkpoint=108 behind=0 transactions=0 capacity=1048576 left=1048468 rank=108/108\nepoch 1 seals 108\n";

/// Whether what was taken over is refused as a standby, before anybody is called.
fn follows_no_more<
    R: AllocGlobal
        + Files<File = File>
        + Net<Listener = TcpListener, Stream = TcpStream>
        + Threads
        + Wait
        + Sync
        + Clock
        + RandomSource
        + Clone
        + Send
        + Drop
        + 'static,
>(rt: &R, option: &str) -> bool {
    let words = [
        "als",
        "standby",
        "--dir",
        "followed",
        "--from",
        "nowhere:1",
        "--pages",
        "4",
        option,
    ];
    refuses(rt, &words, "", "als: refused 21 Sealed\n")
}

/// The first takeover, which was compared with no other node's.
fn takes_over_alone<
    R: AllocGlobal
        + Files<File = File>
        + Net<Listener = TcpListener, Stream = TcpStream>
        + Threads
        + Wait
        + Sync
        + Clock
        + RandomSource
        + Clone
        + Send
        + Drop
        + 'static,
>(rt: &R) -> bool {
    let takeover = ["als", "takeover", "followed"];
    let mut output = Vec::new(rt.alloc());
    let mut errors = Vec::new(rt.alloc());
    let status = program(rt, &takeover, io::empty(), &mut output, &mut errors);
    let told =
        "als: followed: its rank 0/108 was compared with no other node's (--peer): see that rank= of als status of each is not above it. Where one is, als rewind --dir followed --to 108 takes this one back, before it answers clients\n";
    status == 0
        && output.as_slice() == "end=108\n0/0 aa\n".as_bytes()
        && errors.as_slice() == told.as_bytes()
}

/// What the folder then holds, and a takeover, twice.
fn takes_over<
    R: AllocGlobal
        + Files<File = File>
        + Net<Listener = TcpListener, Stream = TcpStream>
        + Threads
        + Wait
        + Sync
        + Clock
        + RandomSource
        + Clone
        + Send
        + Drop
        + 'static,
>(rt: &R) -> bool {
    let verify = ["als", "verify", "followed"];
    let dump = ["als", "dump", "followed", "--trans", "1", "--from", "52"];
    let takeover = ["als", "takeover", "--dir", "followed"];
    prints(rt, &verify, SOUND)
        && prints(
            rt,
            &dump,
            "52 commit trans=1 prev=16
80 end trans=1 prev=52
",
        )
        && takes_over_alone(rt)
        && prints(
            rt,
            &takeover,
            "end=108
0/0 aa
",
        )
}

/// Two sessions of both ends over the network, what is then held, and a takeover; what the folder
/// holds before and after it. Threads are begun
/// here: a helper that is generic over its runtime may not send it to one.
#[test]
fn a_standby_follows_and_takes_over(rt: HostRuntime) {
    assert!(rt; lays_out(&rt) || lays_out(&rt));
    for (sent, workers) in [("sent=92\n", "4"), ("sent=0\n", "0")] {
        let addr = free_port(&rt)
            .or_else(|| free_port(&rt))
            .expect(&rt, "a port");
        let (rt, addr) = (&rt, addr.as_str());
        let (shipped, stood) = thread::join(
            rt,
            move || ships(rt, addr, sent),
            move || scans(rt, addr) && stands(rt, addr, workers),
        );
        assert!(rt; shipped && stood);
    }
    assert!(rt; holds(&rt, FOLLOWING) || holds(&rt, FOLLOWING));
    assert!(rt; takes_over(&rt) || takes_over(&rt));
    assert!(rt; holds(&rt, PRIMARY) || holds(&rt, PRIMARY));
    for option in [
        "--keep",
        "--serve=127.0.0.1:0",
        "--workers=0",
        "--workers=2",
    ] {
        assert!(rt; follows_no_more(&rt, option) || follows_no_more(&rt, option));
    }
    assert!(rt; fs::remove_dir_all(&rt, "followed").is_ok());
    assert!(rt; fs::remove_file(&rt, "followed.log").is_ok());
}

/// Numbers out of range are found before a file is touched; a folder that is missing is a device
/// that failed.
#[test]
fn standbys_that_are_refused(rt: HostRuntime) {
    let pages =
        "als: refused 37 BadConfig\nals: --pages is 4097: wanted is a number from 1 to 4096\n";
    let blocks =
        "als: refused 37 BadConfig\nals: --log-blocks is 4194305: wanted is a number from 1 to 4194304\n";
    let workers =
        "als: refused 37 BadConfig\nals: --workers is 9: wanted is a number from 0 to 8\n";
    let rows = [
        ("4097", "2048", "4", pages),
        ("4", "4194305", "0", blocks),
        ("4", "2048", "9", workers),
    ];
    for (pages, blocks, workers, bad) in rows {
        let words = [
            "als",
            "standby",
            "--dir",
            "missing",
            "--from",
            "nowhere",
            "--pages",
            pages,
            "--log-blocks",
            blocks,
            "--workers",
            workers,
        ];
        assert!(rt; refuses(&rt, &words, "", bad) || refuses(&rt, &words, "", bad));
    }
    let readers =
        "als: refused 37 BadConfig\nals: --readers is 9: wanted is a number from 1 to 8\n";
    let window =
        "als: refused 37 BadConfig\nals: --window is 65: wanted is a number from 1 to 64\n";
    let unserved = "als: refused 37 BadConfig\nals: --readers has no effect without --serve\n";
    let unheard = "als: refused 37 BadConfig\nals: --window has no effect without --listen\n";
    let alone = "als: refused 37 BadConfig\nals: --follower has no effect without --listen\n";
    let goes_on = [
        ("--keep", "--readers", "2", unserved),
        ("--keep", "--workers", "9", workers),
        ("--keep", "--window", "16", unheard),
        ("--keep", "--follower", "10.0.0.1", alone),
        ("--serve=127.0.0.1:0", "--readers", "9", readers),
        ("--serve=127.0.0.1:0", "--workers", "9", workers),
        ("--listen=127.0.0.1:0", "--window", "65", window),
    ];
    for (flag, name, number, bad) in goes_on {
        let words = [
            "als",
            "standby",
            "--dir",
            "missing",
            "--from",
            "nowhere:1",
            "--pages",
            "4",
            flag,
            name,
            number,
        ];
        assert!(rt; refuses(&rt, &words, "", bad) || refuses(&rt, &words, "", bad));
    }
    let portless = "als: --from nowhere names no port: it is HOST:PORT\nals: refused 44 Stream\n";
    let words = [
        "als", "standby", "--dir", "missing", "--from", "nowhere", "--pages", "4", "--keep",
    ];
    assert!(rt; refuses(&rt, &words, "", portless) || refuses(&rt, &words, "", portless));
    let failed = "als: refused 30 Device\n";
    let words = [
        "als", "standby", "--dir", "missing", "--from", "nowhere", "--pages", "4",
    ];
    assert!(rt; refuses(&rt, &words, "", failed) || refuses(&rt, &words, "", failed));
    let words = ["als", "takeover", "--dir", "missing"];
    assert!(rt; refuses(&rt, &words, "", failed) || refuses(&rt, &words, "", failed));
    let nowhere = "als: refused 44 Stream\n";
    let words = [
        "als", "standby", "--dir", "missing", "--from", "nowhere", "--pages", "4", "--serve",
        "nowhere",
    ];
    assert!(rt; refuses(&rt, &words, "", nowhere) || refuses(&rt, &words, "", nowhere));
}

/// A primary that says nothing is waited for as long as the command line says; one that is not
/// there leaves the folder empty.
#[test]
fn silence_ends_a_session(rt: HostRuntime) {
    let failed = "als: refused 44 Stream\n";
    let missing = "als: refused 30 Device\n";
    assert!(rt; fs::create_dir(&rt, "silent").is_ok());
    let listener = TcpListener::bind(&rt, SocketAddr::from((Ipv4Addr::LOCALHOST, 0)));
    let listener = listener.expect(&rt, "a port");
    let addr = listener.local_addr().expect(&rt, "an address");
    let addr = format!(in rt.alloc(); "{addr}").expect(&rt, "its text");
    let addr = addr.as_str();
    let nowhere = [
        "als",
        "standby",
        "--dir",
        "silent",
        "--from",
        "127.0.0.1:1",
        "--pages",
        "4",
    ];
    assert!(rt; refuses(&rt, &nowhere, "", failed) || refuses(&rt, &nowhere, "", failed));
    let takeover = ["als", "takeover", "--dir", "silent"];
    assert!(rt; refuses(&rt, &takeover, "", missing) || refuses(&rt, &takeover, "", missing));
    let silent = [
        "als",
        "standby",
        "--dir",
        "silent",
        "--from",
        addr,
        "--pages",
        "4",
        "--timeout",
        "1",
    ];
    assert!(rt; refuses(&rt, &silent, "", failed) || refuses(&rt, &silent, "", failed));
    assert!(rt; fs::remove_dir_all(&rt, "silent").is_ok());
}

/// A log file that is altered is told from the record on that is refused; what stands before it is
/// dumped.
#[test]
fn an_altered_log_is_told(rt: HostRuntime) {
    let mut altered = TEXT;
    altered[52 + 4] = 4;
    assert!(rt; fs::write(&rt, "altered.log", altered).is_ok());
    // The end that follows a rollback record, of an update that survives.
    let verify = ["als", "verify", "altered.log"];
    let (printed, told) = (
        "unsound lsn=80 10 WrongState\n",
        "als: refused 10 WrongState\n",
    );
    assert!(rt; refuses(&rt, &verify, printed, told) || refuses(&rt, &verify, printed, told));
    let dump = ["als", "dump", "altered.log", "--page", "0"];
    let printed = "16 update trans=1 0/0 - aa prev=0\n";
    assert!(rt; refuses(&rt, &dump, printed, told) || refuses(&rt, &dump, printed, told));
    assert!(rt; fs::write(&rt, "altered.log", &TEXT[..107]).is_ok());
    let (printed, told) = ("unsound lsn=80 43 Cut\n", "als: refused 43 Cut\n");
    assert!(rt; refuses(&rt, &verify, printed, told) || refuses(&rt, &verify, printed, told));
    assert!(rt; fs::remove_file(&rt, "altered.log").is_ok());
}
