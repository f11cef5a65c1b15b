use als_http::{Servers, config, listen};
use bytes::Bytes;
use http::{Request, StatusCode};
use http_server::{Response, Service};
use std::alloc::{AllocError, Global};
use std::io::Write;
use std::net::{Net, SocketAddr, TcpListener, TcpStream};
use std::random::RandomSource;
use std::sync::atomic::{AtomicU64, Ordering};
use std::sync::{Arc, Wait};
use std::test::*;
use std::thread::Threads;
use std::time::{Clock, Duration};
use std::{io, thread};

/// How long a commit of these tests waits.
const COMMITS: u64 = 3_000;

/// The most guests that wait for a commit, and some more.
const MANY: usize = 70;

/// Waits for each commit, and counts them. A read is answered at once.
struct Slow<R> {
    rt: R,
    begun: Arc<AtomicU64, Global>,
}

impl<R: Drop> Drop for Slow<R> {
    fn drop(self) {
        let Slow { rt, begun } = self;
        drop(rt);
        drop(begun);
    }
}

impl<R: Clock> Service for Slow<R> {
    ghost answers = { λ old request response new. Unit {0} };

    fn call(
        &mut self,
        request: &Request<Bytes>,
        response: &mut Response,
    ) -> Result<(), AllocError> {
        if request.method().as_str() == "POST" {
            self.begun.fetch_add(1, Ordering::SeqCst);
            thread::sleep(&self.rt, Duration::from_millis(COMMITS));
        }
        response.status = StatusCode::OK;
        Ok(())
    }
}

/// Four threads, of which one waits for a peer at a time and another is kept for a second peer, that serve
/// the listener, and how many commits they begin.
fn serve<R: Threads + Wait + Clock + RandomSource + Clone + Send + Drop + 'static>(
    rt: &R,
    alloc: Global,
    listener: &TcpListener,
) -> io::Result<(Servers, Arc<AtomicU64, Global>)> {
    let begun = Arc::new(alloc, AtomicU64::new(0))?;
    let mut seats = Vec::with_capacity(alloc, 4)?;
    for _ in 0..4u32 {
        let slow = Slow {
            rt: rt.clone()?,
            begun: Arc::try_clone(&begun)?,
        };
        seats.push((slow, rt.clone()?))?;
    }
    let servers = Servers::start_any(rt, alloc, listener, seats, config())?;
    Ok((servers, begun))
}

/// Sends a request over a connection of its own.
fn send<R: Net<Stream = TcpStream>>(
    rt: &R,
    at: SocketAddr,
    request: &str,
) -> io::Result<TcpStream> {
    let mut stream = TcpStream::connect(rt, at)?;
    stream.write_all(request.as_bytes())?;
    Ok(stream)
}

/// A commit.
const COMMIT: &str = "POST /commit HTTP/1.1\r\nHost: a\r\nContent-Length: 2\r\n\r\n{}";

/// A read.
const HEALTH: &str = "GET /health HTTP/1.1\r\nHost: a\r\nConnection: close\r\n\r\n";

#[test]
fn a_read_waits_for_no_commit_of_a_guest(rt: HostRuntime) -> Result<(), Fail> {
    let alloc = rt.alloc();
    let listener = listen(&rt, alloc, "0")?;
    let at = listener.local_addr()?;
    let (servers, begun) = serve(&rt, alloc, &listener)?;
    // The peer's one connection, and two guests that commit.
    let kept = TcpStream::connect(&rt, at)?;
    thread::sleep(&rt, Duration::from_millis(100));
    let first = send(&rt, at, COMMIT)?;
    let second = send(&rt, at, COMMIT)?;
    thread::sleep(&rt, Duration::from_millis(300));
    let before = rt.monotonic()?;
    let health = io::read_to_string(alloc, send(&rt, at, HEALTH)?)?;
    let took = rt.monotonic()?.saturating_sub(before);
    assert!(rt; health.as_str().starts_with("HTTP/1.1 200 "));
    assert!(rt; took < Duration::from_millis(COMMITS / 2));
    // One guest's commit is carried out after the other's.
    assert!(rt; begun.load(Ordering::SeqCst) == 1);
    for stream in [first, second] {
        let text = io::read_to_string(alloc, stream)?;
        assert!(rt; text.as_str().starts_with("HTTP/1.1 200 "));
    }
    assert!(rt; begun.load(Ordering::SeqCst) == 2);
    drop(kept);
    servers.close(&rt);
    Ok(())
}

#[test]
fn a_guest_without_a_place_in_the_line_is_refused(rt: HostRuntime) -> Result<(), Fail> {
    let alloc = rt.alloc();
    let listener = listen(&rt, alloc, "0")?;
    let at = listener.local_addr()?;
    let (servers, begun) = serve(&rt, alloc, &listener)?;
    let kept = TcpStream::connect(&rt, at)?;
    thread::sleep(&rt, Duration::from_millis(100));
    let mut many = Vec::with_capacity(alloc, MANY)?;
    for _ in 0..MANY {
        many.push(send(&rt, at, COMMIT)?)?;
    }
    let before = rt.monotonic()?;
    let last = many.pop().ok_or("a guest")?;
    let text = io::read_to_string(alloc, last)?;
    let took = rt.monotonic()?.saturating_sub(before);
    assert!(rt; text.as_str().starts_with("HTTP/1.1 503 "));
    assert!(rt; text.as_str().contains("\r\nretry-after: 1\r\n"));
    assert!(rt;
        text.as_str().ends_with(
            "\r\n\r\n{\"name\":\"NotBegun\",\"error\":\"all connections are taken\"}"
        )
    );
    assert!(rt; took < Duration::from_millis(COMMITS / 2));
    // Nothing of it was begun: at most the commit of the first guest, which may still be in the line.
    thread::sleep(&rt, Duration::from_millis(300));
    assert!(rt; begun.load(Ordering::SeqCst) <= 1);
    drop(many);
    drop(kept);
    servers.close(&rt);
    Ok(())
}
