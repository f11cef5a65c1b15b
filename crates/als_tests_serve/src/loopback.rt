use crate::asking::{Fixed, published};
use crate::written::{Change, transaction};
use als_http::{Answering, Servers, listen};
use als_published_log::PublishedLog;
use als_record::Key;
use als_report::State;
use als_view::Reader;
use std::alloc::Global;
use std::io::{Read, Write};
use std::net::{Net, Shutdown, SocketAddr, TcpListener, TcpStream};
use std::sync::Wait;
use std::test::*;
use std::thread::{Threads, join};
use std::time::{Clock, Duration};
use std::{io, thread};

/// How many commits are published beside the client.
const COMMITS: u8 = 20;

/// How often the client asks at most.
const ASKED: u32 = 5_000;

/// What is answered to a request over a connection of its own.
fn asked<R: Net + AllocGlobal>(rt: &R, at: SocketAddr, request: &str) -> io::Result<String> {
    let mut stream = TcpStream::connect(rt, at)?;
    stream.write_all(request.as_bytes())?;
    io::read_to_string(rt.alloc(), stream)
}

/// The decimal number between two texts. None: there is none.
fn between(text: &str, front: &str, back: &str) -> Option<u64> {
    let (_, rest) = text.split_once(front)?;
    let (number, _) = rest.split_once(back)?;
    number.parse::<u64>().ok()
}

/// Reads the key again and again, each time in an answer that is not older than the one before, up
/// to the last commit. Whether each answer was right: the commit n writes the byte n.
fn watch<R: Net + AllocGlobal>(rt: &R, at: SocketAddr) -> Option<bool> {
    let alloc = rt.alloc();
    let mut last = 0;
    for _ in 0..ASKED {
        let request = format!(in alloc;
            "GET /keys/0/0 HTTP/1.1\r\nHost: localhost\r\nConnection: close\r\nAls-At-Least: {last}\r\n\r\n"
        ).ok()?;
        let text = asked(rt, at, request.as_str()).ok()?;
        let lsn = between(text.as_str(), "als-lsn: ", "\r\n")?;
        let commits = between(text.as_str(), "\"commits\":", ",")?;
        let value = if commits == 0 {
            format!(in alloc; "{{\"value\":null,").ok()?
        } else {
            format!(in alloc; "{{\"value\":\"{commits:02x}\",").ok()?
        };
        if lsn < last || !text.as_str().contains(value.as_str()) {
            return Some(false);
        }
        last = lsn;
        if commits >= u64::from(COMMITS) {
            return Some(true);
        }
    }
    Some(false)
}

/// Publishes the commits one by one: the one with a number writes that byte. Whether all went well.
fn publish_all<R: Wait>(rt: &R, alloc: Global, log: &mut PublishedLog) -> bool {
    let mut before = None;
    for number in 1..=COMMITS {
        let change = Change {
            key: Key { page: 0, slot: 0 },
            before,
            after: Some(number),
        };
        before = Some(number);
        let Some(text) = transaction(alloc, log.end(), number, &[change]) else {
            return false;
        };
        if log.feed(text.as_slice()).is_err() || log.publish(rt).is_err() {
            return false;
        }
        thread::yield_now();
    }
    true
}

/// A seat for each reader.
fn seats(
    alloc: Global,
    rt: &HostRuntime,
    readers: Vec<Reader>,
) -> Option<Vec<(Answering<Fixed>, HostRuntime)>> {
    let mut seats = Vec::with_capacity(alloc, readers.len()).ok()?;
    for reader in readers {
        let answering = Answering::new(alloc, reader, Fixed(State::Following, None));
        seats.push((answering, rt.clone().ok()?)).ok()?;
    }
    Some(seats)
}

#[test]
fn two_threads_answer_beside_a_publisher(rt: HostRuntime) -> Result<(), Fail> {
    let alloc = rt.alloc();
    let (mut log, readers) = PublishedLog::new(alloc, &rt, 2, 2)?;
    let seats = seats(alloc, &rt, readers).ok_or("seats")?;
    let listener = listen(&rt, alloc, "0")?;
    let at = listener.local_addr()?;
    let servers = Servers::start(&rt, alloc, &listener, seats)?;
    let (written, seen) = join(&rt, || publish_all(&rt, alloc, &mut log), || watch(&rt, at));
    servers.close(&rt);
    log.close(&rt);
    assert!(rt; written);
    assert!(rt; seen == Some(true));
    Ok(())
}

/// Publishes all commits after a while.
fn publish_late<R: Clock + Wait>(rt: &R, alloc: Global, log: &mut PublishedLog) -> bool {
    thread::sleep(rt, Duration::from_millis(1_500));
    publish_all(rt, alloc, log)
}

/// The commit that is published late is read by who waits for it.
const WAITS: &str = "GET /keys/0 HTTP/1.1\r\nHost: localhost\r\nConnection: close\r\n\
    Als-At-Least: 52\r\nAls-Wait: 20\r\n\r\n";

/// Who does not wait is refused at once, and so is who would wait for too long.
const REFUSED: [(&str, &str); 2] = [
    (
        "GET /keys/0 HTTP/1.1\r\nHost: localhost\r\nConnection: close\r\n\
        Als-At-Least: 52\r\n\r\n",
        "HTTP/1.1 503 ",
    ),
    (
        "GET /keys/0 HTTP/1.1\r\nHost: localhost\r\nConnection: close\r\n\
        Als-At-Least: 52\r\nAls-Wait: 61\r\n\r\n",
        "HTTP/1.1 400 ",
    ),
];

/// How often a read that waits is asked at most. One that comes while both threads end their last connections is
/// a guest's, and does not wait; the last try is over long before the commit is published.
const TRIES: u32 = 10;

/// What a read that waits is answered.
fn asked_patiently<R: Net + AllocGlobal + Clock>(rt: &R, at: SocketAddr) -> io::Result<String> {
    let mut text = asked(rt, at, WAITS)?;
    for _ in 1..TRIES {
        if text.as_str().starts_with("HTTP/1.1 200 ") {
            break;
        }
        thread::sleep(rt, Duration::from_millis(50));
        text = asked(rt, at, WAITS)?;
    }
    Ok(text)
}

#[test]
fn a_read_waits_for_what_it_names(rt: HostRuntime) -> Result<(), Fail> {
    let alloc = rt.alloc();
    let (mut log, readers) = PublishedLog::new(alloc, &rt, 2, 2)?;
    let seats = seats(alloc, &rt, readers).ok_or("seats")?;
    let listener = listen(&rt, alloc, "0")?;
    let at = listener.local_addr()?;
    let servers = Servers::start(&rt, alloc, &listener, seats)?;
    for (request, front) in REFUSED {
        let text = asked(&rt, at, request)?;
        assert!(rt; text.as_str().starts_with(front), "{request}");
    }
    let (written, text) = join(
        &rt,
        || publish_late(&rt, alloc, &mut log),
        || asked_patiently(&rt, at),
    );
    servers.close(&rt);
    log.close(&rt);
    assert!(rt; written);
    let text = text?;
    assert!(rt; text.as_str().starts_with("HTTP/1.1 200 "));
    Ok(())
}

#[test]
fn a_silent_peer_gives_way(rt: HostRuntime) -> Result<(), Fail> {
    let alloc = rt.alloc();
    let (log, readers) = published(&rt, alloc, 1).ok_or("memory")?;
    let seats = seats(alloc, &rt, readers).ok_or("seats")?;
    let listener = listen(&rt, alloc, "0")?;
    let at = listener.local_addr()?;
    let servers = Servers::start(&rt, alloc, &listener, seats)?;
    let mut silent = TcpStream::connect(&rt, at)?;
    silent.write_all(b"GET /keys/1")?;
    thread::sleep(&rt, Duration::from_millis(50));
    let text = asked(
        &rt,
        at,
        "GET /keys/1/3 HTTP/1.1\r\nHost: localhost\r\nConnection: close\r\n\r\n",
    )?;
    assert!(rt; text.as_str().starts_with("HTTP/1.1 200 "));
    // The part of a request is refused where its time is over.
    let refused = io::read_to_string(alloc, silent)?;
    assert!(rt; refused.as_str().starts_with("HTTP/1.1 408 "));
    // A peer that keeps its connection does not keep the thread from its end.
    let kept = TcpStream::connect(&rt, at)?;
    thread::sleep(&rt, Duration::from_millis(50));
    servers.close(&rt);
    drop(kept);
    log.close(&rt);
    Ok(())
}

#[test]
fn one_peer_is_no_crowd(rt: HostRuntime) -> Result<(), Fail> {
    let alloc = rt.alloc();
    let (log, readers) = published(&rt, alloc, 3).ok_or("memory")?;
    let seats = seats(alloc, &rt, readers).ok_or("seats")?;
    let listener = listen(&rt, alloc, "0")?;
    let at = listener.local_addr()?;
    let servers = Servers::start(&rt, alloc, &listener, seats)?;
    let mut first = TcpStream::connect(&rt, at)?;
    first.write_all(b"GET /keys/1")?;
    thread::sleep(&rt, Duration::from_millis(100));
    // The second thread waits for no other connection of the same peer.
    let mut second = TcpStream::connect(&rt, at)?;
    second.write_all(b"GET /keys/1")?;
    thread::sleep(&rt, Duration::from_millis(2500));
    first.write_all(b"/3 HTTP/1.1\r\nHost: localhost\r\nConnection: close\r\n\r\n")?;
    let text = io::read_to_string(alloc, first)?;
    assert!(rt; text.as_str().starts_with("HTTP/1.1 200 "));
    second.write_all(b"/3 HTTP/1.1\r\nHost: localhost\r\n\r\n")?;
    let text = io::read_to_string(alloc, second)?;
    assert!(rt; text.as_str().starts_with("HTTP/1.1 200 "));
    servers.close(&rt);
    log.close(&rt);
    Ok(())
}

#[test]
fn a_host_of_another_site_is_misdirected(rt: HostRuntime) -> Result<(), Fail> {
    let alloc = rt.alloc();
    let (log, readers) = published(&rt, alloc, 1).ok_or("memory")?;
    let seats = seats(alloc, &rt, readers).ok_or("seats")?;
    let listener = listen(&rt, alloc, "0")?;
    let at = listener.local_addr()?;
    let servers = Servers::start(&rt, alloc, &listener, seats)?;
    let other = "GET /status HTTP/1.1\r\nHost: evil.example\r\nConnection: close\r\n\r\n";
    let text = asked(&rt, at, other)?;
    assert!(rt; text.as_str().starts_with("HTTP/1.1 421 "));
    servers.close(&rt);
    log.close(&rt);
    Ok(())
}

/// How many slow clients come.
const SLOW: usize = 30;

#[test]
fn slow_peers_shut_nobody_out(rt: HostRuntime) -> Result<(), Fail> {
    let alloc = rt.alloc();
    let (log, readers) = published(&rt, alloc, 2).ok_or("memory")?;
    let seats = seats(alloc, &rt, readers).ok_or("seats")?;
    let listener = listen(&rt, alloc, "0")?;
    let at = listener.local_addr()?;
    let servers = Servers::start(&rt, alloc, &listener, seats)?;
    let mut slow = Vec::with_capacity(alloc, SLOW)?;
    for _ in 0..SLOW {
        let mut stream = TcpStream::connect(&rt, at)?;
        stream.write_all(b"GET /keys/1")?;
        slow.push(stream)?;
    }
    thread::sleep(&rt, Duration::from_millis(50));
    let begun = rt.monotonic()?;
    for path in ["/health", "/status", "/metrics", "/keys/1/3"] {
        let request = format!(in alloc;
            "GET {path} HTTP/1.1\r\nHost: localhost\r\nConnection: close\r\n\r\n"
        )?;
        let text = asked(&rt, at, request.as_str())?;
        assert!(rt; text.as_str().starts_with("HTTP/1.1 200 "), "{path}");
    }
    let took = rt.monotonic()?.saturating_sub(begun);
    drop(slow);
    servers.close(&rt);
    log.close(&rt);
    assert!(rt; took < Duration::from_secs(5));
    Ok(())
}

#[test]
fn a_request_that_drips_is_given_up(rt: HostRuntime) -> Result<(), Fail> {
    let alloc = rt.alloc();
    let (log, readers) = published(&rt, alloc, 1).ok_or("memory")?;
    let seats = seats(alloc, &rt, readers).ok_or("seats")?;
    let listener = listen(&rt, alloc, "0")?;
    let at = listener.local_addr()?;
    let servers = Servers::start(&rt, alloc, &listener, seats)?;
    let mut stream = TcpStream::connect(&rt, at)?;
    let mut written: u32 = 0;
    for _ in 0..40u32 {
        if stream.write_all(b"G").is_err() {
            break;
        }
        written = written.saturating_add(1);
        thread::sleep(&rt, Duration::from_millis(500));
    }
    servers.close(&rt);
    log.close(&rt);
    // It has five seconds for its request: the twentieth byte comes after ten.
    assert!(rt; written < 20);
    Ok(())
}
