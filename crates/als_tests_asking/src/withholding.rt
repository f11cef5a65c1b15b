use crate::acting::{Acting, Nothing};
use als_asking::{Asking, Guard, Outcome, Shown, Withheld};
use als_http::{Hosts, config_with};
use http_server::{Connection, serve};
use std::alloc::Global;
use std::hash::RandomState;
use std::io;
use std::sync::Arc;
use std::test::*;
use std::time::{Clock, Duration};

/// The bytes of a body, at most.
const BODY: usize = 65_536;

/// What is answered of a key before the log with which the primary began is confirmed.
const EARLY: &str = "HTTP/1.1 503 Service Unavailable\r\ncontent-type: application/json\r\n\
    cache-control: no-store\r\nretry-after: 1\r\ncontent-length: 96\r\n\r\n\
    {\"error\":\"35 Warming: too few standbys have acknowledged the log with which this primary began\"}";

/// What is answered of a key once no standby was heard for too long.
const UNHEARD: &str = "HTTP/1.1 503 Service Unavailable\r\ncontent-type: application/json\r\n\
    cache-control: no-store\r\nretry-after: 1\r\ncontent-length: 102\r\n\r\n\
    {\"error\":\"too few standbys have answered this primary of late: another node may have been taken over\"}";

/// When standbys answered, of a primary that reads for five seconds after that.
#[derive(Clone, Copy, Debug)]
enum Heard {
    /// It has no standby, and reads always.
    Alone,
    /// The log with which it began is not confirmed.
    Unconfirmed,
    /// It is confirmed, and no round was answered.
    Never,
    /// A round that began so many milliseconds ago was.
    Ago(u64),
}

/// A clock that stands still, 100 seconds after its start.
#[derive(Drop)]
struct Stopped;

impl Clock for Stopped {
    fn monotonic(&self) -> io::Result<Duration> {
        Ok(Duration::from_secs(100))
    }

    fn since_1970(&self) -> io::Result<Duration> {
        Ok(Duration::from_secs(100))
    }
}

/// What the threads know then.
fn shown_of(heard: Heard) -> Shown {
    let read_for = match heard {
        Heard::Alone => None,
        _ => Some(Duration::from_secs(5)),
    };
    let shown = Shown::new(read_for);
    if !matches!(heard, Heard::Unconfirmed) {
        shown.confirm();
    }
    if let Heard::Ago(milliseconds) = heard {
        let began = Duration::from_millis(100_000u64.saturating_sub(milliseconds));
        shown.hear(began);
    }
    shown
}

/// What is answered to a request of this head, where standbys were heard so.
fn answered(alloc: Global, keys: RandomState, heard: Heard, request: &str) -> Option<Vec<u8>> {
    let shown = Arc::new(alloc, shown_of(heard)).ok()?;
    let outcome = Outcome::NotBegun;
    let acting = Acting { alloc, outcome };
    let asking = Asking::new(alloc, Guard::Loopback, Hosts::Loopback, acting, Nothing);
    let mut withheld = Withheld::new(alloc, Stopped, shown, asking);
    let mut connection = Connection::new(alloc, keys, config_with(BODY));
    let mut request = request.as_bytes();
    let mut answer = Vec::new(alloc);
    serve(&mut connection, &mut withheld, &mut request, &mut answer).ok()?;
    Some(answer)
}

/// Whether what is answered begins so.
fn begins(alloc: Global, keys: RandomState, heard: Heard, request: &str, front: &str) -> bool {
    match answered(alloc, keys, heard, request) {
        Some(found) => found.as_slice().starts_with(front.as_bytes()),
        None => false,
    }
}

#[test]
fn commits_are_read_once_they_are_confirmed(rt: HostRuntime) -> Result<(), Fail> {
    let alloc = rt.alloc();
    let keys = RandomState::new(&rt)?;
    let table = [
        (
            "GET /keys/1/3 HTTP/1.1\r\nHost: localhost\r\n\r\n",
            "HTTP/1.1 404 ",
        ),
        (
            "GET /keys/1 HTTP/1.1\r\nHost: localhost\r\n\r\n",
            "HTTP/1.1 404 ",
        ),
        (
            "POST /read HTTP/1.1\r\nHost: localhost\r\nContent-Length: 16\r\n\r\n\
            {\"keys\":[[1,3]]}",
            "HTTP/1.1 404 ",
        ),
        (
            "GET /in-doubt HTTP/1.1\r\nHost: localhost\r\n\r\n",
            "HTTP/1.1 200 ",
        ),
    ];
    for (request, front) in table {
        for (heard, wanted) in [
            (Heard::Alone, front),
            (Heard::Unconfirmed, EARLY),
            (Heard::Never, UNHEARD),
            (Heard::Ago(0), front),
            (Heard::Ago(5_000), front),
            (Heard::Ago(5_002), UNHEARD),
            (Heard::Ago(90_000), UNHEARD),
        ] {
            assert!(rt;
                begins(alloc, keys, heard, request, wanted),
                "{request}: {heard:?}"
            );
        }
    }
    Ok(())
}

#[test]
fn what_tells_of_no_commit_is_never_withheld(rt: HostRuntime) -> Result<(), Fail> {
    let alloc = rt.alloc();
    let keys = RandomState::new(&rt)?;
    let table = [
        (
            "GET /health HTTP/1.1\r\nHost: localhost\r\n\r\n",
            "HTTP/1.1 404 ",
        ),
        (
            "GET /status HTTP/1.1\r\nHost: localhost\r\n\r\n",
            "HTTP/1.1 404 ",
        ),
        (
            "GET /keys/a/3 HTTP/1.1\r\nHost: localhost\r\n\r\n",
            "HTTP/1.1 404 ",
        ),
        (
            "POST /commit HTTP/1.1\r\nHost: localhost\r\nContent-Length: 33\r\n\r\n\
            {\"set\":[{\"key\":[1,3],\"to\":\"ab\"}]}",
            "HTTP/1.1 503 Service Unavailable\r\ncontent-type: application/json\r\n\
            cache-control: no-store\r\nretry-after: 1\r\ncontent-length: 19\r\n",
        ),
    ];
    for (request, front) in table {
        for heard in [
            Heard::Alone,
            Heard::Unconfirmed,
            Heard::Never,
            Heard::Ago(0),
        ] {
            assert!(rt;
                begins(alloc, keys, heard, request, front),
                "{request}: {heard:?}"
            );
        }
    }
    Ok(())
}
