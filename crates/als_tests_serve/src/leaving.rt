use als_http::{Servers, config, listen};
use bytes::Bytes;
use http::{Request, StatusCode};
use http_server::{Response, Service};
use std::alloc::{AllocError, Global};
use std::io::{Read, Write};
use std::net::{TcpListener, TcpStream};
use std::random::RandomSource;
use std::sync::atomic::{AtomicU64, Ordering};
use std::sync::{Arc, Wait};
use std::test::*;
use std::thread::Threads;
use std::time::{Clock, Duration};
use std::{io, thread};

/// Milliseconds from the first byte of a connection after which an answer is its last one, and one more.
const LIFE: u64 = 60_001;

/// Milliseconds that the node takes for an answer.
const OWN: u64 = 900;

/// The bytes of an answer: each is written by itself.
const ANSWER: usize = 20_000;

/// How many requests a read brings: the node takes longer for their answers than a peer may.
const READ: usize = 8;

/// A clock that can be put forward.
struct Forward<R> {
    rt: R,
    by: Arc<AtomicU64, Global>,
}

impl<R: Drop> Drop for Forward<R> {
    fn drop(self) {
        let Forward { rt, by } = self;
        drop(rt);
        drop(by);
    }
}

impl<R: Wait> Wait for Forward<R> {}

impl<R: Clock> Clock for Forward<R> {
    fn monotonic(&self) -> io::Result<Duration> {
        let now = self.rt.monotonic()?;
        Ok(now.saturating_add(Duration::from_millis(self.by.load(Ordering::SeqCst))))
    }

    fn since_1970(&self) -> io::Result<Duration> {
        self.rt.since_1970()
    }

    fn sleep(&self, duration: Duration) {
        self.rt.sleep(duration);
    }
}

/// Answers each request by so many bytes, for which the node takes so long by its clock.
#[derive(Drop)]
struct Long {
    alloc: Global,
    by: Arc<AtomicU64, Global>,
    own: u64,
    len: usize,
}

impl Service for Long {
    ghost answers = { λ old request response new. Unit {0} };

    fn call(
        &mut self,
        _request: &Request<Bytes>,
        response: &mut Response,
    ) -> Result<(), AllocError> {
        self.by.fetch_add(self.own, Ordering::SeqCst);
        let body = vec![in self.alloc; b'a'; self.len]?;
        response.status = StatusCode::OK;
        response.body.push(Bytes::from_vec(body)?)?;
        Ok(())
    }
}

/// One thread that serves the listener by such a service, and what puts its clock forward.
fn serve<R: Threads + Wait + Clock + RandomSource + Clone + Send + Drop + 'static>(
    rt: &R,
    alloc: Global,
    listener: &TcpListener,
    own: u64,
    len: usize,
) -> io::Result<(Servers, Arc<AtomicU64, Global>)> {
    let by = Arc::new(alloc, AtomicU64::new(0))?;
    let service = Long {
        alloc,
        by: Arc::try_clone(&by)?,
        own,
        len,
    };
    let clock = Forward {
        rt: rt.clone()?,
        by: Arc::try_clone(&by)?,
    };
    let mut seats = Vec::with_capacity(alloc, 1)?;
    seats.push((service, clock))?;
    let servers = Servers::start_any(rt, alloc, listener, seats, config())?;
    Ok((servers, by))
}

/// A request after which the connection may go on.
const READS: &str = "GET /health HTTP/1.1\r\nHost: a\r\n\r\n";

/// The same, after which it is closed.
const LAST: &str = "GET /health HTTP/1.1\r\nHost: a\r\nConnection: close\r\n\r\n";

/// What has come of an answer to a short request: one read.
fn heard(stream: &mut TcpStream) -> io::Result<[u8; 256]> {
    let mut bytes = [0; 256];
    stream.read(&mut bytes)?;
    Ok(bytes)
}

/// Whether these bytes have that text.
fn has(bytes: &[u8], text: &[u8]) -> bool {
    bytes.windows(text.len().max(1)).any(|some| some == text)
}

#[test]
fn an_answer_says_that_it_is_the_last_one(rt: HostRuntime) -> Result<(), Fail> {
    let alloc = rt.alloc();
    let listener = listen(&rt, alloc, "0")?;
    let at = listener.local_addr()?;
    let (servers, by) = serve(&rt, alloc, &listener, 0, 2)?;
    let mut stream = TcpStream::connect(&rt, at)?;
    stream.write_all(READS.as_bytes())?;
    let first = heard(&mut stream)?;
    assert!(rt; first.starts_with(b"HTTP/1.1 200 "));
    assert!(rt; !has(&first, b"connection: close"));
    // The thread waits for the next request when its time is over.
    thread::sleep(&rt, Duration::from_millis(50));
    by.fetch_add(LIFE, Ordering::SeqCst);
    stream.write_all(READS.as_bytes())?;
    let last = io::read_to_string(alloc, stream)?;
    servers.close(&rt);
    assert!(rt; last.as_str().starts_with("HTTP/1.1 200 "));
    assert!(rt; last.as_str().contains("connection: close\r\n"));
    Ok(())
}

#[test]
fn a_connection_is_not_closed_before_its_last_answer(rt: HostRuntime) -> Result<(), Fail> {
    let alloc = rt.alloc();
    let listener = listen(&rt, alloc, "0")?;
    let at = listener.local_addr()?;
    // The time of the connection is over while it is answered for the first time.
    let (servers, by) = serve(&rt, alloc, &listener, LIFE, 2)?;
    let mut stream = TcpStream::connect(&rt, at)?;
    stream.write_all(READS.as_bytes())?;
    let first = heard(&mut stream)?;
    assert!(rt; first.starts_with(b"HTTP/1.1 200 "));
    thread::sleep(&rt, Duration::from_millis(50));
    let second = match stream.write_all(READS.as_bytes()) {
        Ok(()) => io::read_to_string(alloc, stream)?,
        Err(_) => String::new(alloc),
    };
    drop(by);
    servers.close(&rt);
    assert!(rt; second.as_str().starts_with("HTTP/1.1 200 "));
    assert!(rt; second.as_str().contains("connection: close\r\n"));
    Ok(())
}

#[test]
fn the_nodes_own_time_is_not_the_peers(rt: HostRuntime) -> Result<(), Fail> {
    let alloc = rt.alloc();
    let listener = listen(&rt, alloc, "0")?;
    let at = listener.local_addr()?;
    let (servers, by) = serve(&rt, alloc, &listener, OWN, ANSWER)?;
    let mut stream = TcpStream::connect(&rt, at)?;
    let mut requests = String::new(alloc);
    for _ in 1..READ {
        requests.push_str(READS)?;
    }
    requests.push_str(LAST)?;
    stream.write_all(requests.as_bytes())?;
    let text = io::read_to_string(alloc, stream)?;
    drop(by);
    servers.close(&rt);
    assert!(rt; text.as_str().len() > READ * ANSWER);
    Ok(())
}
