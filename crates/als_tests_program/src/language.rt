use crate::row::{Row, WORLD, run_row};
use als_program::program;
use std::fs::File;
use std::net::{Net, TcpListener, TcpStream};
use std::process::Abort;
use std::random::RandomSource;
use std::rt::Files;
use std::sync::Wait;
use std::thread::Threads;
use std::time::Clock;

/// First lines that are no world.
const BAD_WORLDS: [&str; 9] = [
    "world",
    "world pages=4 log=8 frames=4 workers=2",
    "world pages=4 log=8 frames=4 workers=2 pending=1000 ",
    "world pages=4 log=8 frames=4 pending=1000 workers=2",
    "world pages=4  log=8 frames=4 workers=2 pending=1000",
    "world pages=+4 log=8 frames=4 workers=2 pending=1000",
    "world pages= log=8 frames=4 workers=2 pending=1000",
    "world pages=18446744073709551616 log=8 frames=4 workers=2 pending=1000",
    "show status",
];

/// First lines whose world is refused.
const REFUSED_WORLDS: [&str; 11] = [
    "world pages=4 log=0 frames=4 workers=2 pending=1000",
    "world pages=4 log=4194305 frames=4 workers=2 pending=1000",
    "world pages=4 log=8 frames=4 workers=0 pending=1000",
    "world pages=4 log=8 frames=4 workers=9 pending=1000",
    "world pages=0 log=8 frames=4 workers=2 pending=1000",
    "world pages=4097 log=8 frames=4 workers=2 pending=1000",
    "world pages=4 log=8 frames=0 workers=2 pending=1000",
    "world pages=4 log=8 frames=4097 workers=2 pending=1000",
    "world pages=4 log=8 frames=4 workers=2 pending=0",
    "world pages=4 log=8 frames=4 workers=2 pending=1000001",
    "world pages=18446744073709551615 log=8 frames=4 workers=2 pending=1",
];

/// Lines that are none of the language.
const BAD_LINES: [&str; 91] = [
    " ",
    "nothing",
    "COMMIT 1",
    " commit 1",
    "commit 1 ",
    "commit  1",
    "commit\t1",
    "commit 1\r",
    "commit",
    "commit x",
    "commit +1",
    "commit -1",
    "commit 4294967296",
    "commit 1 1",
    "commit 1 prev=",
    "commit 1 prev=+1",
    "commit 1 prev=18446744073709551616",
    "commit 1 prev=1 prev=1",
    "commit 1 Prev=1",
    "commit prev=1",
    "ckpt 0",
    "ckptend 0",
    "prepare",
    "prepare 1 2",
    "u 1 0 0 -",
    "u 1 0 0 - aa bb",
    "u 1 4294967296 0 - aa",
    "u 1 0 256 - aa",
    "u 1 0 0 - a",
    "u 1 0 0 - AA",
    "u 1 0 0 - 0g",
    "u 1 0 0 -- aa",
    "u 1 0 0 .. aa",
    "c 1 0 0 aa",
    "c 1 0 0 aa -",
    "c 1 0 0 aa 18446744073709551616",
    "feed 16",
    "feed 16 15",
    "feed 0 17",
    "feed 16 18446744073709551616",
    "resync 0",
    "lend 0",
    "lend 4294967296 0",
    "lend 0 18446744073709551616",
    "redo",
    "hand 0",
    "give -1",
    "drop 0 0",
    "recall 4294967296",
    "flush",
    "sync-pages 0",
    "show dirty 0",
    "drain 0",
    "log-write 0",
    "log_sync",
    "ctl-sync 0",
    "force 1",
    "fail",
    "fail log",
    "fail log 0",
    "fail log 1 1",
    "fail log 18446744073709551616",
    "fail disk 1",
    "crash",
    "crash ",
    "crash 256",
    "crash 1 new",
    "crash old 1",
    "crash 1  1",
    "ready 0",
    "publish 1",
    "read 0",
    "read 0 256",
    "read 4294967296 0",
    "resolve 1",
    "resolve 1 end",
    "resolve 4294967296 commit",
    "resolve 1 commit 1",
    "adopt",
    "adopt ",
    "adopt x",
    "adopt 130 108",
    "adopt 108 18446744073709551616",
    "adopt 9 9 9 9 9 9 9 9 9 9 9 9 9 9 9 9 9 9 9 9 9 9 9 9 9 9 9 9 9 9 9 9 9",
    "show epochs 1",
    "read 0 0 0",
    "show",
    "show page",
    "show page 4",
    "show log x",
    "world pages=4 log=8 frames=4 workers=2 pending=1000",
];

fn tells_bad_worlds<
    R: Abort
        + AllocGlobal
        + Files<File = File>
        + Net<Listener = TcpListener, Stream = TcpStream>
        + Threads
        + Wait
        + Sync
        + Clock
        + RandomSource
        + Clone
        + Send
        + Drop
        + 'static,
>(rt: &R) -> Option<()> {
    for line in BAD_WORLDS {
        let script = format!(in rt.alloc();
            "#
{line}
"
        )
        .ok()?;
        run_row(
            rt,
            Row::sim(script.as_str(), "").failing("line 2: bad line\n", 2),
        );
    }
    Some(())
}

#[test]
fn sim_tells_bad_worlds(rt: HostRuntime) {
    assert!(rt; tells_bad_worlds(&rt).is_some() || tells_bad_worlds(&rt).is_some());
}

fn tells_bad_lines<
    R: Abort
        + AllocGlobal
        + Files<File = File>
        + Net<Listener = TcpListener, Stream = TcpStream>
        + Threads
        + Wait
        + Sync
        + Clock
        + RandomSource
        + Clone
        + Send
        + Drop
        + 'static,
>(rt: &R) -> Option<()> {
    for line in BAD_LINES {
        let script = format!(in rt.alloc();
            "{WORLD}feed 16 16
{line}
feed 16 16
"
        )
        .ok()?;
        let output = "ok taken=0 records=0 end=16\n";
        run_row(
            rt,
            Row::sim(script.as_str(), output).failing("line 3: bad line\n", 2),
        );
    }
    Some(())
}

#[test]
fn sim_tells_bad_lines(rt: HostRuntime) {
    assert!(rt; tells_bad_lines(&rt).is_some() || tells_bad_lines(&rt).is_some());
}

/// Empty lines and comments are passed over and counted; a missing first line would come behind the
/// last.
fn counts_lines<
    R: Abort
        + AllocGlobal
        + Files<File = File>
        + Net<Listener = TcpListener, Stream = TcpStream>
        + Threads
        + Wait
        + Sync
        + Clock
        + RandomSource
        + Clone
        + Send
        + Drop
        + 'static,
>(rt: &R) -> Option<()> {
    let bare = "world pages=4 log=8 frames=4 workers=2 pending=1000";
    let zeros =
        "world pages=0004 log=08 frames=4 workers=2 pending=1000\nfeed 0016 000000000000000000000016";
    let passed = format!(in rt.alloc();
        "
# \u{e9}
{WORLD}
#\r
feed 16 16

x"
    )
    .ok()?;
    let fed = "ok taken=0 records=0 end=16\n";
    run_row(rt, Row::sim(bare, ""));
    run_row(rt, Row::sim(zeros, fed));
    run_row(
        rt,
        Row::sim(passed.as_str(), fed).failing("line 8: bad line\n", 2),
    );
    run_row(rt, Row::sim("", "").failing("line 1: bad line\n", 2));
    run_row(
        rt,
        Row::sim(
            "

",
            "",
        )
        .failing("line 3: bad line\n", 2),
    );
    run_row(rt, Row::sim("#", "").failing("line 2: bad line\n", 2));
    Some(())
}

#[test]
fn sim_counts_lines(rt: HostRuntime) {
    assert!(rt; counts_lines(&rt).is_some() || counts_lines(&rt).is_some());
}

/// A line that is no text is a bad line, also where a comment that is none is passed over.
fn wants_text<
    R: Abort
        + AllocGlobal
        + Files<File = File>
        + Net<Listener = TcpListener, Stream = TcpStream>
        + Threads
        + Wait
        + Sync
        + Clock
        + RandomSource
        + Clone
        + Send
        + Drop
        + 'static,
>(rt: &R) -> Option<()> {
    let script = b"#\xff\nworld pages=4 log=8 frames=4 workers=2 pending=1000\ncommit 1\xff\n";
    let mut output = Vec::new(rt.alloc());
    let mut errors = Vec::new(rt.alloc());
    let words = ["als", "sim"];
    let status = program(rt, &words, script.as_slice(), &mut output, &mut errors);
    if status != 2 || !output.is_empty() || errors.as_slice() != b"line 3: bad line\n".as_slice() {
        return None;
    }
    Some(())
}

#[test]
fn sim_wants_text(rt: HostRuntime) {
    assert!(rt; wants_text(&rt).is_some() || wants_text(&rt).is_some());
}

/// A world that is refused ends the script, whatever follows.
fn refuses_worlds<
    R: Abort
        + AllocGlobal
        + Files<File = File>
        + Net<Listener = TcpListener, Stream = TcpStream>
        + Threads
        + Wait
        + Sync
        + Clock
        + RandomSource
        + Clone
        + Send
        + Drop
        + 'static,
>(rt: &R) -> Option<()> {
    for line in REFUSED_WORLDS {
        let script = format!(in rt.alloc();
            "{line}
x
"
        )
        .ok()?;
        run_row(
            rt,
            Row::sim(script.as_str(), "refused 37 BadConfig\n").failing("", 3),
        );
    }
    Some(())
}

#[test]
fn sim_refuses_worlds(rt: HostRuntime) {
    assert!(rt; refuses_worlds(&rt).is_some() || refuses_worlds(&rt).is_some());
}
