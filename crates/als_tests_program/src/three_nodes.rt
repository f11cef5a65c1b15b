use crate::following::{TEXT, free_port, prints, refuses};
use std::fs::File;
use std::net::{Net, TcpListener, TcpStream};
use std::random::RandomSource;
use std::rt::Files;
use std::sync::Wait;
use std::thread::Threads;
use std::time::Clock;
use std::{fs, thread};

/// What the primary wrote behind that log: an update of 0/1 to `bb` by transaction 2 at 108, its
/// commit at 144 and its end at 172.
const MORE: [u8; 92] = [
    0, 0, 0, 36, 1, 0, 0, 0, 0, 0, 0, 0, 0, 0, 0, 108, 0, 0, 0, 0, 0, 0, 0, 0, 0, 0, 0, 2, 0, 0, 0,
    0, 1, 255, 1, 187, 0, 0, 0, 28, 3, 0, 0, 0, 0, 0, 0, 0, 0, 0, 0, 144, 0, 0, 0, 0, 0, 0, 0, 108,
    0, 0, 0, 2, 0, 0, 0, 28, 5, 0, 0, 0, 0, 0, 0, 0, 0, 0, 0, 172, 0, 0, 0, 0, 0, 0, 0, 144, 0, 0,
    0, 2,
];

/// The primary's log up to the update of transaction 2, and all of it; three empty folders.
fn lays_out<R: Files<File = File>>(rt: &R) -> bool {
    let mut front = [0; 144];
    front[..108].copy_from_slice(&TEXT);
    front[108..].copy_from_slice(&MORE[..36]);
    let mut whole = [0; 200];
    whole[..108].copy_from_slice(&TEXT);
    whole[108..].copy_from_slice(&MORE);
    fs::write(rt, "nodes-144.log", front).is_ok()
        && fs::write(rt, "nodes-200.log", whole).is_ok()
        && fs::create_dir(rt, "node-a").is_ok()
        && fs::create_dir(rt, "node-b").is_ok()
        && fs::create_dir(rt, "node-c").is_ok()
}

/// All of that is removed.
fn clears<R: AllocGlobal + Files<File = File>>(rt: &R) -> bool {
    fs::remove_dir_all(rt, "node-a").is_ok()
        && fs::remove_dir_all(rt, "node-b").is_ok()
        && fs::remove_dir_all(rt, "node-c").is_ok()
        && fs::remove_file(rt, "nodes-144.log").is_ok()
        && fs::remove_file(rt, "nodes-200.log").is_ok()
}

/// What a command does: it prints this, or it is refused so.
#[derive(Clone, Copy)]
enum Ends<'a> {
    Well(&'a str),
    Refused(&'a str),
}

/// Whether a command ends so.
fn ends_so<
    R: AllocGlobal
        + Files<File = File>
        + Net<Listener = TcpListener, Stream = TcpStream>
        + Threads
        + Wait
        + Sync
        + Clock
        + RandomSource
        + Clone
        + Send
        + Drop
        + 'static,
>(rt: &R, words: &[&str], wanted: Ends<'_>) -> bool {
    match wanted {
        Ends::Well(printed) => prints(rt, words, printed),
        Ends::Refused(told) => refuses(rt, words, "", told),
    }
}

/// Follows a session in a folder, again while nobody serves yet.
fn follows<
    R: AllocGlobal
        + Files<File = File>
        + Net<Listener = TcpListener, Stream = TcpStream>
        + Threads
        + Wait
        + Sync
        + Clock
        + RandomSource
        + Clone
        + Send
        + Drop
        + 'static,
>(rt: &R, addr: &str, dir: &str, wanted: Ends<'_>) -> bool {
    let words = [
        "als",
        "standby",
        "--dir",
        dir,
        "--from",
        addr,
        "--pages",
        "4",
        "--workers",
        "0",
        "--explain",
    ];
    for _ in 0..1000 {
        if ends_so(rt, &words, wanted) {
            return true;
        }
    }
    false
}

/// A session: what is served, by a file (`--log`) or by a node (`--dir`), to whom, and how both ends
/// end.
#[derive(Clone, Copy)]
struct Session<'a> {
    kind: &'a str,
    served: &'a str,
    sent: Ends<'a>,
    dir: &'a str,
    followed: Ends<'a>,
}

const DIVERGED: &str = "als: refused 42 Diverged 144\n";

const PARTED: &str = "als: commits behind 144: 1
als:   transaction 2 at 144
als: clients may have been answered for this 1 commit; perhaps the wrong node was taken over
als: refused 42 Diverged 144
als: node-c: the two logs parted at offset 144: the node that serves goes on from a takeover that was sealed there, and this log goes past it. What it holds past 144 is not in that node's log. First see that both are one log up to there, by als cut PATH --at 144 | sha256sum of both: where they differ, or that node's log was begun by als begin, it is another log, and only an empty folder follows it. Where they are the same, als rewind --dir node-c --to 144 keeps what is past it in a file beside the folder, which follows on then; or keep the folder, and follow with an empty one
";

/// Two standbys of one primary, and one of its longer log. Then the first is taken over: the second goes
/// on with it, whose log has a compensation and an end more; the third, which went past the seal, is
/// refused.
const SESSIONS: [Session<'static>; 5] = [
    Session {
        kind: "--log",
        served: "nodes-144.log",
        sent: Ends::Well("sent=128\n"),
        dir: "node-a",
        followed: Ends::Well("end=144 ack=144\n"),
    },
    Session {
        kind: "--log",
        served: "nodes-144.log",
        sent: Ends::Well("sent=128\n"),
        dir: "node-b",
        followed: Ends::Well("end=144 ack=144\n"),
    },
    Session {
        kind: "--log",
        served: "nodes-200.log",
        sent: Ends::Well("sent=184\n"),
        dir: "node-c",
        followed: Ends::Well("end=200 ack=200\n"),
    },
    Session {
        kind: "--dir",
        served: "node-a",
        sent: Ends::Well("sent=70\n"),
        dir: "node-b",
        followed: Ends::Well("end=214 ack=214\n"),
    },
    Session {
        kind: "--dir",
        served: "node-a",
        sent: Ends::Refused(DIVERGED),
        dir: "node-c",
        followed: Ends::Refused(PARTED),
    },
];

/// Serves a session. A growth that was refused is met by a second try.
fn ships<
    R: AllocGlobal
        + Files<File = File>
        + Net<Listener = TcpListener, Stream = TcpStream>
        + Threads
        + Wait
        + Sync
        + Clock
        + RandomSource
        + Clone
        + Send
        + Drop
        + 'static,
>(rt: &R, addr: &str, session: Session<'_>) -> bool {
    let words = [
        "als",
        "ship",
        session.kind,
        session.served,
        "--listen",
        addr,
    ];
    ends_so(rt, &words, session.sent) || ends_so(rt, &words, session.sent)
}

/// What `examples/three-nodes` shows: a takeover of one of two standbys, which the other follows then.
#[test]
fn three_nodes(rt: HostRuntime) {
    assert!(rt; lays_out(&rt));
    let takeover = ["als", "takeover", "--dir", "node-a"];
    let made = "end=214\n0/0 aa\n";
    for (place, session) in SESSIONS.iter().enumerate() {
        if place == 3 {
            assert!(rt; prints(&rt, &takeover, made) || prints(&rt, &takeover, made));
        }
        let addr = free_port(&rt)
            .or_else(|| free_port(&rt))
            .expect(&rt, "a port");
        let (rt, addr, session) = (&rt, addr.as_str(), *session);
        let (shipped, stood) = thread::join(
            rt,
            move || ships(rt, addr, session),
            move || follows(rt, addr, session.dir, session.followed),
        );
        assert!(rt; shipped && stood);
    }
    let get = ["als", "get", "node-b", "0", "1"];
    let none = "- commits=1 lsn=52\n";
    assert!(rt; prints(&rt, &get, none) || prints(&rt, &get, none));
    assert!(rt; clears(&rt));
}
