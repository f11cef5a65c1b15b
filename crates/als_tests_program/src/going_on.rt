use crate::following::{TEXT, free_port, prints, refuses};
use als_program::program;
use std::fs::File;
use std::net::{Net, TcpListener, TcpStream};
use std::random::RandomSource;
use std::rt::Files;
use std::sync::Wait;
use std::thread::Threads;
use std::time::Clock;
use std::{fs, io, thread};

/// A log file and an empty folder.
fn lays_out<R: Files<File = File>>(rt: &R, log: &str, dir: &str) -> bool {
    fs::write(rt, log, TEXT).is_ok() && fs::create_dir(rt, dir).is_ok()
}

/// Both are removed.
fn clears<R: AllocGlobal + Files<File = File>>(rt: &R, log: &str, dir: &str) -> bool {
    fs::remove_dir_all(rt, dir).is_ok() && fs::remove_file(rt, log).is_ok()
}

/// Serves a log of four pages: whether a follower of another number is refused.
fn ships_to_another<
    R: AllocGlobal
        + Files<File = File>
        + Net<Listener = TcpListener, Stream = TcpStream>
        + Threads
        + Wait
        + Sync
        + Clock
        + RandomSource
        + Clone
        + Send
        + Drop
        + 'static,
>(rt: &R, addr: &str) -> bool {
    let words = ["als", "ship", "--log", "another.log", "--listen", addr];
    let bad = "als: refused 1 BadHeader\n";
    refuses(rt, &words, "", bad) || refuses(rt, &words, "", bad)
}

/// Follows with a database of five pages, which there is only once a primary has answered, and is hung up
/// on: whether no database was laid out.
fn is_hung_up_on<
    R: AllocGlobal
        + Files<File = File>
        + Net<Listener = TcpListener, Stream = TcpStream>
        + Threads
        + Wait
        + Sync
        + Clock
        + RandomSource
        + Clone
        + Send
        + Drop
        + 'static,
>(rt: &R, addr: &str) -> bool {
    let words = [
        "als",
        "standby",
        "--dir",
        "another",
        "--from",
        addr,
        "--pages",
        "5",
        "--serve",
        "127.0.0.1:0",
    ];
    let status = ["als", "status", "another"];
    for _ in 0..1000 {
        // 44, until the shipper listens.
        if refuses(rt, &words, "", "als: refused 43 Cut\n") {
            return refuses(rt, &status, "", "als: refused 30 Device\n");
        }
    }
    false
}

/// A standby of another number of pages than its primary's log lays out no database.
#[test]
fn another_page_count_ends_both_ends(rt: HostRuntime) {
    assert!(rt; lays_out(&rt, "another.log", "another"));
    let addr = free_port(&rt)
        .or_else(|| free_port(&rt))
        .expect(&rt, "a port");
    let (rt, addr) = (&rt, addr.as_str());
    let (shipped, stood) = thread::join(
        rt,
        move || ships_to_another(rt, addr),
        move || is_hung_up_on(rt, addr),
    );
    assert!(rt; shipped && stood);
    assert!(rt; clears(rt, "another.log", "another"));
}

/// Serves a log of no record.
fn ships_nothing<
    R: AllocGlobal
        + Files<File = File>
        + Net<Listener = TcpListener, Stream = TcpStream>
        + Threads
        + Wait
        + Sync
        + Clock
        + RandomSource
        + Clone
        + Send
        + Drop
        + 'static,
>(rt: &R, addr: &str) -> bool {
    let words = ["als", "ship", "--log", "nothing.log", "--listen", addr];
    prints(rt, &words, "sent=0\n") || prints(rt, &words, "sent=0\n")
}

/// Follows a log of no record, and is taken over: whether that is said to be a takeover of nothing.
fn takes_over_nothing<
    R: AllocGlobal
        + Files<File = File>
        + Net<Listener = TcpListener, Stream = TcpStream>
        + Threads
        + Wait
        + Sync
        + Clock
        + RandomSource
        + Clone
        + Send
        + Drop
        + 'static,
>(rt: &R, addr: &str) -> bool {
    let standby = [
        "als", "standby", "--dir", "nothing", "--from", addr, "--pages", "4",
    ];
    for _ in 0..1000 {
        if prints(rt, &standby, "end=16 ack=16\n") {
            return tells_of_nothing(rt) || tells_of_nothing(rt);
        }
    }
    false
}

/// Whether the takeover of a folder that followed no record says so.
fn tells_of_nothing<
    R: AllocGlobal
        + Files<File = File>
        + Net<Listener = TcpListener, Stream = TcpStream>
        + Threads
        + Wait
        + Sync
        + Clock
        + RandomSource
        + Clone
        + Send
        + Drop
        + 'static,
>(rt: &R) -> bool {
    let takeover = ["als", "takeover", "--dir", "nothing"];
    let mut output = Vec::new(rt.alloc());
    let mut errors = Vec::new(rt.alloc());
    let status = program(rt, &takeover, io::empty(), &mut output, &mut errors);
    let told =
        "als: nothing holds no record: nothing was ever followed there\nals: nothing: its rank 0/16 was compared with no other node's (--peer): see that rank= of als status of each is not above it. Where one is, als rewind --dir nothing --to 16 takes this one back, before it answers clients\n";
    status == 0
        && output.as_slice() == "end=16\nempty\n".as_bytes()
        && errors.as_slice() == told.as_bytes()
}

/// A takeover of a folder in which nothing was ever followed says so.
#[test]
fn a_takeover_of_nothing_is_told(rt: HostRuntime) {
    assert!(rt; fs::write(&rt, "nothing.log", &TEXT[..16]).is_ok());
    assert!(rt; fs::create_dir(&rt, "nothing").is_ok());
    let addr = free_port(&rt)
        .or_else(|| free_port(&rt))
        .expect(&rt, "a port");
    let (rt, addr) = (&rt, addr.as_str());
    let (shipped, stood) = thread::join(
        rt,
        move || ships_nothing(rt, addr),
        move || takes_over_nothing(rt, addr),
    );
    assert!(rt; shipped && stood);
    assert!(rt; clears(rt, "nothing.log", "nothing"));
}

/// Serves one follower, and prints what it sent.
fn ships_once<
    R: AllocGlobal
        + Files<File = File>
        + Net<Listener = TcpListener, Stream = TcpStream>
        + Threads
        + Wait
        + Sync
        + Clock
        + RandomSource
        + Clone
        + Send
        + Drop
        + 'static,
>(rt: &R, addr: &str) -> bool {
    let words = ["als", "ship", "--log", "served.log", "--listen", addr];
    prints(rt, &words, "sent=92\n") || prints(rt, &words, "sent=92\n")
}

/// Follows one session and answers reads beside it, and is called again while nobody listens.
fn serves<
    R: AllocGlobal
        + Files<File = File>
        + Net<Listener = TcpListener, Stream = TcpStream>
        + Threads
        + Wait
        + Sync
        + Clock
        + RandomSource
        + Clone
        + Send
        + Drop
        + 'static,
>(rt: &R, addr: &str) -> bool {
    let words = [
        "als",
        "standby",
        "--dir",
        "served",
        "--from",
        addr,
        "--pages",
        "4",
        "--workers",
        "0",
        "--serve",
        "127.0.0.1:0",
        "--readers",
        "1",
    ];
    for _ in 0..1000 {
        if prints(rt, &words, "end=108 ack=108\n") {
            return true;
        }
    }
    false
}

/// A standby that answers reads follows one session, unless it is kept.
#[test]
fn a_standby_that_answers_ends_with_its_session(rt: HostRuntime) {
    assert!(rt; lays_out(&rt, "served.log", "served"));
    let addr = free_port(&rt)
        .or_else(|| free_port(&rt))
        .expect(&rt, "a port");
    let (rt, addr) = (&rt, addr.as_str());
    let (shipped, stood) = thread::join(rt, move || ships_once(rt, addr), move || serves(rt, addr));
    assert!(rt; shipped && stood);
    assert!(rt; clears(rt, "served.log", "served"));
}

/// Waits at the end of the log for more, until its follower goes away.
fn ships_on<
    R: AllocGlobal
        + Files<File = File>
        + Net<Listener = TcpListener, Stream = TcpStream>
        + Threads
        + Wait
        + Sync
        + Clock
        + RandomSource
        + Clone
        + Send
        + Drop
        + 'static,
>(rt: &R, addr: &str) -> bool {
    let words = [
        "als",
        "ship",
        "--log",
        "waited.log",
        "--listen",
        addr,
        "--follow",
        "--timeout",
        "0",
    ];
    let mut output = Vec::new(rt.alloc());
    let mut errors = Vec::new(rt.alloc());
    let status = program(rt, &words, io::empty(), &mut output, &mut errors);
    // 43 or 44, as the network tells it.
    status == 3 && output.is_empty()
}

/// Follows until the primary has said nothing for a second, and is called again until the folder has
/// all of the log.
fn gives_up<
    R: AllocGlobal
        + Files<File = File>
        + Net<Listener = TcpListener, Stream = TcpStream>
        + Threads
        + Wait
        + Sync
        + Clock
        + RandomSource
        + Clone
        + Send
        + Drop
        + 'static,
>(rt: &R, addr: &str) -> bool {
    let standby = [
        "als",
        "standby",
        "--dir",
        "waited",
        "--from",
        addr,
        "--pages",
        "4",
        "--timeout",
        "1",
    ];
    let get = ["als", "get", "waited", "0", "0"];
    for _ in 0..1000 {
        if !refuses(rt, &standby, "", "als: refused 44 Stream\n") {
            return false;
        }
        if prints(rt, &get, "aa commits=1 lsn=52\n") {
            return true;
        }
    }
    false
}

/// A shipper that waits for its file to grow says nothing for ten seconds; a standby that waits for one
/// gives it up, and has all that came.
#[test]
fn a_peer_that_says_nothing_is_given_up(rt: HostRuntime) {
    assert!(rt; lays_out(&rt, "waited.log", "waited"));
    let addr = free_port(&rt)
        .or_else(|| free_port(&rt))
        .expect(&rt, "a port");
    let (rt, addr) = (&rt, addr.as_str());
    let (shipped, stood) = thread::join(rt, move || ships_on(rt, addr), move || gives_up(rt, addr));
    assert!(rt; shipped && stood);
    assert!(rt; clears(rt, "waited.log", "waited"));
}
