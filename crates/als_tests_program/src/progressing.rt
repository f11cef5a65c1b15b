use crate::folder::Folder;
use als_program::{Terminals, program, program_on};
use std::fs::File;
use std::net::{Net, TcpListener, TcpStream};
use std::random::RandomSource;
use std::rt::Files;
use std::sync::Wait;
use std::thread::Threads;
use std::time::Clock;
use std::{fs, io};

/// The files of the folder that is taken over.
const FILES: [&str; 3] = [
    "waiting/log.blk",
    "waiting/control.blk",
    "waiting/pages.blk",
];

/// A log of so many updates of one record. `None`: allocation failed.
fn log_of<
    R: AllocGlobal
        + Files<File = File>
        + Net<Listener = TcpListener, Stream = TcpStream>
        + Threads
        + Wait
        + Sync
        + Clock
        + RandomSource
        + Clone
        + Send
        + Drop
        + 'static,
>(rt: &R, updates: u32) -> Option<Vec<u8>> {
    let mut script = String::new(rt.alloc());
    script
        .push_str(
            "pages 4
u 1 0 0 - aa
",
        )
        .ok()?;
    for _ in 1..updates {
        script.push_str("u 1 0 0 aa aa\n").ok()?;
    }
    script
        .push_str(
            "commit 1
end 1
",
        )
        .ok()?;
    let mut log = Vec::new(rt.alloc());
    let status = program(
        rt,
        &["als", "make"],
        script.as_bytes(),
        &mut log,
        io::sink(),
    );
    if status == 0 { Some(log) } else { None }
}

/// The same, twice at most.
fn made<
    R: AllocGlobal
        + Files<File = File>
        + Net<Listener = TcpListener, Stream = TcpStream>
        + Threads
        + Wait
        + Sync
        + Clock
        + RandomSource
        + Clone
        + Send
        + Drop
        + 'static,
>(rt: &R, updates: u32) -> Option<Vec<u8>> {
    match log_of(rt, updates) {
        Some(log) => Some(log),
        None => log_of(rt, updates),
    }
}

/// What a takeover that has to redo this log says on standard error, but that it was compared with no other
/// node's. `None`: allocation failed.
fn said<
    R: AllocGlobal
        + Files<File = File>
        + Net<Listener = TcpListener, Stream = TcpStream>
        + Threads
        + Wait
        + Sync
        + Clock
        + RandomSource
        + Clone
        + Send
        + Drop
        + 'static,
>(rt: &R, log: &[u8], errors: bool) -> Option<Vec<u8>> {
    Folder::of(rt.alloc(), log)?.write(rt, FILES)?;
    let terminals = Terminals {
        input: false,
        output: false,
        errors,
    };
    let words = ["als", "takeover", "--dir", "waiting"];
    let mut said = Vec::new(rt.alloc());
    let status = program_on(rt, terminals, &words, io::empty(), io::sink(), &mut said);
    if status != 0 {
        return None;
    }
    let mut kept = Vec::new(rt.alloc());
    for line in said.split(|b| *b == b'\n') {
        if !line.is_empty() && !line.starts_with(b"als: waiting: its rank ") {
            kept.extend_from_slice(line).ok()?;
            kept.push(b'\n').ok()?;
        }
    }
    Some(kept)
}

/// The same, twice at most.
fn says<
    R: AllocGlobal
        + Files<File = File>
        + Net<Listener = TcpListener, Stream = TcpStream>
        + Threads
        + Wait
        + Sync
        + Clock
        + RandomSource
        + Clone
        + Send
        + Drop
        + 'static,
>(rt: &R, log: &[u8], errors: bool) -> Option<Vec<u8>> {
    match said(rt, log, errors) {
        Some(said) => Some(said),
        None => said(rt, log, errors),
    }
}

/// A person is told how a long redo goes on, and nothing of a short one. Nobody else is.
#[test]
fn a_long_redo_is_told(rt: HostRuntime) {
    assert!(rt; fs::create_dir(&rt, "waiting").is_ok());
    let long = made(&rt, 100_000).expect(&rt, "a log");
    let told = says(&rt, long.as_slice(), true).expect(&rt, "a takeover");
    let told = told.as_slice();
    assert!(rt; told.ends_with(b" a second\n"));
    // On a busy machine there are lines of other work too.
    let mut lines: u32 = 0;
    for line in told.split(|b| *b == b'\n') {
        if line.starts_with(b"als: redo: ") {
            assert!(rt; lines != 0 || line.starts_with(b"als: redo: 100000 changes wait"));
            assert!(rt; lines != 1 || line.starts_with(b"als: redo: 9"));
            lines = lines.saturating_add(1);
        }
    }
    assert!(rt; (5..=22).contains(&lines), "{lines} lines");
    let silent = says(&rt, long.as_slice(), false).expect(&rt, "a takeover");
    assert!(rt; silent.is_empty());
    let short = made(&rt, 1_000).expect(&rt, "a log");
    let silent = says(&rt, short.as_slice(), true).expect(&rt, "a takeover");
    assert!(rt; silent.is_empty());
    assert!(rt; fs::remove_dir_all(&rt, "waiting").is_ok());
}
