use crate::ports::Ports;
use std::fs::File;
use std::io::Write;
use std::net::{Net, OpenStream, TcpStream};
use std::rt::Files;
use std::time::{Clock, Duration};
use std::{fs, io, thread};

/// Milliseconds after which a standby is asked again.
const NAP: u64 = 20;

/// It is asked so often at most.
const NAPS: u32 = 500;

/// So often a primary is asked to commit at most until it has ended.
const LAST: u32 = 200;

/// Seconds for which an answer is waited for.
const PATIENCE: u64 = 20;

/// A key.
#[derive(Clone, Copy)]
struct Place {
    page: u8,
    slot: u8,
}

/// The key that a commit with a number writes: another one each time, up to 60.
fn place_of(number: u8) -> Place {
    Place {
        page: number % 4,
        slot: number / 4 % 15,
    }
}

/// The key of the commits that end a primary. No other commit writes it.
const END: Place = Place { page: 3, slot: 14 };

/// What it then has.
const ENDED: u8 = 255;

/// What is answered to a request over a connection of its own. None: nobody answered.
fn exchange<R: Net + AllocGlobal>(rt: &R, port: u64, request: &str) -> Option<String> {
    let alloc = rt.alloc();
    let at = format!(in alloc; "127.0.0.1:{port}").ok()?;
    let mut stream = TcpStream::connect(rt, at.as_str()).ok()?;
    stream
        .set_read_timeout(Some(Duration::from_secs(PATIENCE)))
        .ok()?;
    stream.write_all(request.as_bytes()).ok()?;
    io::read_to_string(alloc, stream).ok()
}

/// The decimal number between two texts. None: there is none.
fn between(text: &str, front: &str, back: &str) -> Option<u64> {
    let (_, rest) = text.split_once(front)?;
    let (number, _) = rest.split_once(back)?;
    number.parse::<u64>().ok()
}

/// Asks a primary to commit one byte. The LSN that it answers. None: it did not answer that it has committed.
fn commit<R: Net + AllocGlobal>(rt: &R, port: u64, place: Place, byte: u8) -> Option<u64> {
    let alloc = rt.alloc();
    let Place { page, slot } = place;
    let body = format!(in alloc;
        "{{\"set\":[{{\"key\":[{page},{slot}],\"to\":\"{byte:02x}\"}}]}}"
    ).ok()?;
    let length = body.as_str().len();
    let body = body.as_str();
    let request = format!(in alloc;
        "POST /commit HTTP/1.1\r\nHost: localhost\r\nConnection: close\r\nContent-Length: {length}\r\n\r\n{body}"
    ).ok()?;
    let answer = exchange(rt, port, request.as_str())?;
    if !answer.as_str().starts_with("HTTP/1.1 200") {
        return None;
    }
    between(answer.as_str(), "als-lsn: ", "\r\n")
}

/// Whether a node shows a byte at a place, in an answer that is not older than an LSN. It is asked until it
/// has come so far. None: it did not within ten seconds.
fn shows<R: Net + AllocGlobal + Clock>(
    rt: &R,
    port: u64,
    lsn: u64,
    place: Place,
    byte: u8,
) -> Option<bool> {
    let alloc = rt.alloc();
    let Place { page, slot } = place;
    let request = format!(in alloc;
        "GET /keys/{page}/{slot} HTTP/1.1\r\nHost: localhost\r\nConnection: close\r\nAls-At-Least: {lsn}\r\n\r\n"
    ).ok()?;
    let value = format!(in alloc; "{{\"value\":\"{byte:02x}\",").ok()?;
    for _ in 0..NAPS {
        if let Some(answer) = exchange(rt, port, request.as_str()) {
            if answer.as_str().starts_with("HTTP/1.1 200") {
                return Some(answer.as_str().contains(value.as_str()));
            }
        }
        thread::sleep(rt, Duration::from_millis(NAP));
    }
    None
}

/// Whether each standby shows a byte at a place, behind a commit.
fn all_show<R: Net + AllocGlobal + Clock>(
    rt: &R,
    standbys: &[u64],
    lsn: u64,
    place: Place,
    byte: u8,
) -> bool {
    for port in standbys {
        if shows(rt, *port, lsn, place, byte) != Some(true) {
            return false;
        }
    }
    true
}

/// Commits those with these numbers, and reads each of them at the primary and at each standby. Whether each
/// was answered, and each read was right.
fn commit_all<R: Net + AllocGlobal + Clock>(
    rt: &R,
    port: u64,
    standbys: &[u64],
    numbers: (u8, u8),
) -> bool {
    for number in numbers.0..numbers.1 {
        let place = place_of(number);
        let Some(lsn) = commit(rt, port, place, number) else {
            return false;
        };
        if shows(rt, port, lsn, place, number) != Some(true)
            || !all_show(rt, standbys, lsn, place, number)
        {
            return false;
        }
    }
    true
}

/// Whether each standby that still answers behind a commit shows a byte at a place.
fn none_denies<R: Net + AllocGlobal + Clock>(
    rt: &R,
    standbys: &[u64],
    lsn: u64,
    place: Place,
    byte: u8,
) -> bool {
    for port in standbys {
        if shows(rt, *port, lsn, place, byte) == Some(false) {
            return false;
        }
    }
    true
}

/// What a client has seen of a primary and its standbys.
#[derive(Clone, Copy)]
pub struct Seen {
    /// Each commit was answered, and each read was right.
    pub is_right: bool,
    /// A commit was answered once the primary's log was away, so one of the standbys has it.
    pub answers_last: bool,
}

/// Takes the log of a primary away, and asks it to commit until it no more does. None: it commits on. A standby
/// whose session has ended with the primary answers no more.
fn end<R: AllocGlobal + Files<File = File> + Net + Clock>(
    rt: &R,
    dir: &str,
    port: u64,
    standbys: &[u64],
) -> Option<Seen> {
    let alloc = rt.alloc();
    let log = format!(in alloc; "{dir}/log.blk").ok()?;
    let moved = format!(in alloc; "{dir}/moved").ok()?;
    fs::rename(rt, log.as_str(), moved.as_str()).ok()?;
    let mut seen = Seen {
        is_right: true,
        answers_last: false,
    };
    for _ in 0..LAST {
        match commit(rt, port, END, ENDED) {
            Some(lsn) => {
                seen.answers_last = true;
                seen.is_right = seen.is_right && none_denies(rt, standbys, lsn, END, ENDED);
            }
            None => return Some(seen),
        }
        thread::sleep(rt, Duration::from_millis(NAP));
    }
    None
}

/// Works with a primary and its standbys, and ends the primary. None: the primary did not begin or did not end.
pub fn works<R: AllocGlobal + Files<File = File> + Net + Clock>(
    rt: &R,
    dir: &str,
    ports: &Ports,
    standbys: &[u64],
    numbers: (u8, u8),
) -> Option<Seen> {
    let port = ports.serve(rt)?;
    let is_right = commit_all(rt, port, standbys, numbers);
    let seen = end(rt, dir, port, standbys)?;
    Some(Seen {
        is_right: is_right && seen.is_right,
        answers_last: seen.answers_last,
    })
}
