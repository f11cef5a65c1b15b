ghost use Rattle.std.specs.Prelude.{◌<◌, ◌^◌};

use crate::written::{Change, transaction};
use als_http::{Answering, Hosts, config};
use als_published_log::PublishedLog;
use als_record::{Key, Lsn};
use als_report::{Follower, MOST_FOLLOWERS, Refusals, Report, Reports, State, Work};
use als_view::Reader;
use arrayvec::ArrayVec;
use http_server::{Connection, serve};
use std::alloc::Global;
use std::hash::RandomState;
use std::net::{IpAddr, Ipv4Addr, Ipv6Addr};
use std::sync::Wait;
use std::test::*;

/// What a standby tells of itself in these tests: its state, and for how long a frame waits.
pub struct Fixed(pub State, pub Option<u64>);

impl Drop for Fixed {
    fn drop(self) {
        let Fixed(_, _) = self;
    }
}

impl Reports for Fixed {
    fn report(&self) -> Report {
        Report {
            state: self.0,
            end: Lsn(108),
            acknowledged: Lsn(80),
            pending: 5,
            leases: 1,
            silence: Some(2),
            waiting: self.1,
            capacity: Some(1024),
            failures: 3,
            last_fault: Some(43),
            epoch: Some(1),
            greatest: Some(9),
            work: Work {
                transactions: 9,
                groups: 4,
                force_microseconds: 1_500_007,
            },
            in_doubt: 3,
            sync: 1,
            followers: followers_of(self.0),
            refusals: Refusals {
                count: 6,
                last: Some(29),
            },
        }
    }
}

/// The same, where the last acknowledged frame came this long ago.
struct Heard(Fixed, Option<u64>);

impl Drop for Heard {
    fn drop(self) {
        let Heard(fixed, _) = self;
        drop(fixed);
    }
}

impl Reports for Heard {
    fn report(&self) -> Report {
        Report {
            silence: self.1,
            ..self.0.report()
        }
    }
}

/// Those of a node that takes commits; nobody follows another one.
fn followers_of(state: State) -> ArrayVec<Follower, MOST_FOLLOWERS> {
    match state {
        State::Committing | State::Unconfirmed => followers(),
        _ => ArrayVec::new(),
    }
}

/// Two followers: one has the whole acknowledged log, and one lacks bytes of it.
fn followers() -> ArrayVec<Follower, MOST_FOLLOWERS> {
    let mut followers = ArrayVec::new();
    let _ = followers.try_push(Follower {
        peer: IpAddr::V4(Ipv4Addr::LOCALHOST),
        acknowledged: Lsn(80),
        silence: 6,
        age: 70,
        counts: true,
    });
    let _ = followers.try_push(Follower {
        peer: IpAddr::V6(Ipv6Addr::LOCALHOST),
        acknowledged: Lsn(52),
        silence: 7,
        age: 60,
        counts: false,
    });
    followers
}

/// A log of two pages in which one commit wrote the byte 171 to slot 3 of page 1, and readers of
/// it, to whom it is published. Its commit is at LSN 52. `None`: allocation failed.
pub fn published<R: Wait>(
    rt: &R,
    alloc: Global,
    readers: usize,
) -> Option<(PublishedLog, Vec<Reader>)>
    requires { (0 < readers) × (readers < 2 ^ 32) }
{
    let (mut log, all) = PublishedLog::new(alloc, rt, 2, readers).ok()?;
    let change = Change {
        key: Key { page: 1, slot: 3 },
        before: None,
        after: Some(171),
    };
    let text = transaction(alloc, log.end(), 1, &[change])?;
    let fed = log.feed(text.as_slice()).is_ok() && log.publish(rt).is_ok();
    if fed {
        Some((log, all))
    } else {
        log.close(rt);
        None
    }
}

/// What is answered to these bytes.
pub fn answered<S: Reports>(
    alloc: Global,
    keys: RandomState,
    answering: &mut Answering<S>,
    request: &[u8],
) -> Option<Vec<u8>> {
    let mut connection = Connection::new(alloc, keys, config());
    let mut request = request;
    let mut answer = Vec::new(alloc);
    serve(&mut connection, answering, &mut request, &mut answer).ok()?;
    Some(answer)
}

/// Whether these bytes are answered by those.
pub fn gives<S: Reports>(
    alloc: Global,
    keys: RandomState,
    answering: &mut Answering<S>,
    request: &str,
    answer: &str,
) -> bool {
    match answered(alloc, keys, answering, request.as_bytes()) {
        Some(found) => found.as_slice() == answer.as_bytes(),
        None => false,
    }
}

/// Whether what is answered to these bytes begins so.
pub fn begins<S: Reports>(
    alloc: Global,
    keys: RandomState,
    answering: &mut Answering<S>,
    request: &str,
    front: &str,
) -> bool {
    match answered(alloc, keys, answering, request.as_bytes()) {
        Some(found) => found.as_slice().starts_with(front.as_bytes()),
        None => false,
    }
}

const KEY: &str = "HTTP/1.1 200 OK\r\ncontent-type: application/json\r\ncache-control: no-store\r\n\
    als-lsn: 52\r\netag: \"52\"\r\ncontent-length: 35\r\n\r\n{\"value\":\"ab\",\"commits\":1,\"lsn\":52}";

const NOTHING: &str =
    "HTTP/1.1 200 OK\r\ncontent-type: application/json\r\ncache-control: no-store\r\n\
    als-lsn: 52\r\netag: \"52\"\r\ncontent-length: 35\r\n\r\n{\"value\":null,\"commits\":1,\"lsn\":52}";

/// What is answered of a key that the database has not.
pub const NO_SUCH_KEY: &str =
    "HTTP/1.1 404 Not Found\r\ncontent-type: application/json\r\ncache-control: no-store\r\n\
    content-length: 49\r\n\r\n{\"error\":\"the database has no such page or slot\"}";

const STATUS: &str =
    "HTTP/1.1 200 OK\r\ncontent-type: application/json\r\ncache-control: no-store\r\n\
    content-length: 191\r\n\r\n{\"state\":\"following\",\"end\":108,\"acknowledged\":80,\"pending\":5,\
    \"leases\":1,\"commits\":1,\"seconds_since_last_frame\":2,\"capacity\":1024,\"left\":916,\
    \"takeovers_left\":31,\"transactions_left\":4294967286}";

#[test]
fn each_path_is_answered(rt: HostRuntime) -> Result<(), Fail> {
    let alloc = rt.alloc();
    let keys = RandomState::new(&rt)?;
    let (log, mut readers) = published(&rt, alloc, 1).ok_or("memory")?;
    let reader = readers.pop().ok_or("a reader")?;
    let mut answering = Answering::new(alloc, reader, Fixed(State::Following, None));
    let table = [
        ("GET /keys/1/3 HTTP/1.1\r\nHost: a\r\n\r\n", KEY),
        (
            "GET /keys/1/3 HTTP/1.1\r\nHost: a\r\nAls-At-Least: 52\r\n\r\n",
            KEY,
        ),
        ("GET /keys/0/3 HTTP/1.1\r\nHost: a\r\n\r\n", NOTHING),
        ("GET /keys/2/0 HTTP/1.1\r\nHost: a\r\n\r\n", NO_SUCH_KEY),
        ("GET /keys/1/15 HTTP/1.1\r\nHost: a\r\n\r\n", NO_SUCH_KEY),
        (
            "GET /keys/4294967295/4294967295 HTTP/1.1\r\nHost: a\r\n\r\n",
            NO_SUCH_KEY,
        ),
        ("GET /status HTTP/1.1\r\nHost: a\r\n\r\n", STATUS),
    ];
    for (request, answer) in table {
        assert!(rt;
            gives(alloc, keys, &mut answering, request, answer),
            "{request}"
        );
    }
    log.close(&rt);
    Ok(())
}

#[test]
fn each_refusal_is_answered(rt: HostRuntime) -> Result<(), Fail> {
    let alloc = rt.alloc();
    let keys = RandomState::new(&rt)?;
    let (log, mut readers) = published(&rt, alloc, 1).ok_or("memory")?;
    let reader = readers.pop().ok_or("a reader")?;
    let mut answering = Answering::new(alloc, reader, Fixed(State::Sealed, None));
    let table = [
        (
            "GET /keys/1/3 HTTP/1.1\r\nHost: a\r\nals-at-least: 53\r\n\r\n",
            "HTTP/1.1 503 ",
        ),
        (
            "GET /keys/1/3 HTTP/1.1\r\nHost: a\r\nals-at-least: x\r\n\r\n",
            "HTTP/1.1 400 ",
        ),
        (
            "GET /keys/1/3 HTTP/1.1\r\nHost: a\r\nals-at-least: 1\r\nals-at-least: 2\r\n\r\n",
            "HTTP/1.1 400 ",
        ),
        ("GET /keys/a/3 HTTP/1.1\r\nHost: a\r\n\r\n", "HTTP/1.1 400 "),
        (
            "GET /keys/1/4294967296 HTTP/1.1\r\nHost: a\r\n\r\n",
            "HTTP/1.1 400 ",
        ),
        (
            "GET /index.html HTTP/1.1\r\nHost: a\r\n\r\n",
            "HTTP/1.1 404 ",
        ),
        (
            "POST /decide HTTP/1.1\r\nHost: a\r\ncontent-length: 1\r\n\r\nx",
            "HTTP/1.1 405 ",
        ),
        (
            "POST / HTTP/1.1\r\nHost: a\r\ncontent-length: 1\r\n\r\nx",
            "HTTP/1.1 405 ",
        ),
        ("GET /health HTTP/1.1\r\nHost: a\r\n\r\n", "HTTP/1.1 503 "),
        (
            "PUT /keys/1/3 HTTP/1.1\r\nHost: a\r\ncontent-length: 1\r\n\r\nx",
            "HTTP/1.1 405 Method Not Allowed\r\n\
            content-type: application/json\r\ncache-control: no-store\r\nallow: GET, HEAD\r\n",
        ),
        ("GET /status HTTP/1.1\r\n\r\n", "HTTP/1.1 400 "),
        (
            "\u{1}\u{2}\r\n\r\n",
            "HTTP/1.1 400 Bad Request\r\nconnection: close\r\n",
        ),
        ("GET /status HTTP/1.1\r\nHost: a", "HTTP/1.1 400 "),
    ];
    for (request, front) in table {
        assert!(rt;
            begins(alloc, keys, &mut answering, request, front),
            "{request}"
        );
    }
    log.close(&rt);
    let request = "GET /keys/1/3 HTTP/1.1\r\nHost: a\r\n\r\n";
    assert!(rt; begins(alloc, keys, &mut answering, request, "HTTP/1.1 503 "));
    Ok(())
}

#[test]
fn metrics_and_health_are_answered(rt: HostRuntime) -> Result<(), Fail> {
    let alloc = rt.alloc();
    let keys = RandomState::new(&rt)?;
    let (log, mut readers) = published(&rt, alloc, 1).ok_or("memory")?;
    let reader = readers.pop().ok_or("a reader")?;
    let mut answering = Answering::new(alloc, reader, Fixed(State::Following, None));
    let health = "HEAD /health HTTP/1.1\r\nHost: a\r\n\r\n";
    assert!(rt; begins(alloc, keys, &mut answering, health, "HTTP/1.1 200 OK\r\n"));
    let metrics = "GET /metrics HTTP/1.0\r\n\r\n";
    let found = answered(alloc, keys, &mut answering, metrics.as_bytes()).ok_or("an answer")?;
    let text = String::from_utf8(found).ok().ok_or("text")?;
    for line in [
        "\r\ncontent-type: text/plain; version=0.0.4\r\n",
        "\nals_state{state=\"following\"} 1\n",
        "\n# TYPE als_end_bytes gauge\nals_end_bytes 108\n",
        "\nals_acknowledged_bytes 80\n",
        "\nals_pending_changes 5\n",
        "\nals_leases 1\n",
        "\nals_warming 0\n",
        "\nals_commits 1\n",
        "\nals_seconds_since_last_frame 2\n",
        "\nals_info{version=\"0.2.0\",role=\"standby\",epoch=\"1\"} 1\n",
        "\nals_log_capacity_bytes 1024\n",
        "\nals_log_left_bytes 916\n",
        "\nals_takeovers_left 31\n",
        "\nals_transactions_left 4294967286\n",
        "\n# TYPE als_session_failures_total counter\nals_session_failures_total 3\n",
        "\nals_session_last_fault 43\n",
    ] {
        assert!(rt; text.contains(line), "{line}");
    }
    log.close(&rt);
    Ok(())
}

/// What `/health` answers of a node that reports this.
fn health_of<S: Reports + Drop>(
    alloc: Global,
    keys: RandomState,
    reader: Reader,
    reports: S,
) -> Option<Vec<u8>> {
    let mut answering = Answering::new(alloc, reader, reports);
    answered(
        alloc,
        keys,
        &mut answering,
        b"GET /health HTTP/1.1\r\nHost: a\r\n\r\n",
    )
}

#[test]
fn health_is_of_a_session_that_goes_on(rt: HostRuntime) -> Result<(), Fail> {
    let alloc = rt.alloc();
    let keys = RandomState::new(&rt)?;
    let (log, mut readers) = published(&rt, alloc, 12).ok_or("memory")?;
    let table = [
        (State::Following, None, true),
        (State::Following, Some(10), true),
        // A frame that waits for longer is one that the standby does not acknowledge.
        (State::Following, Some(11), false),
        (State::Recovering, None, false),
        (State::Waiting, None, false),
        (State::Refusing, None, false),
        (State::Sealed, None, false),
        (State::Primary, None, false),
        (State::Stopped, None, false),
        (State::Committing, None, true),
        // Commits wait for followers.
        (State::Unconfirmed, None, false),
    ];
    for (state, waiting, is_healthy) in table {
        let reader = readers.pop().ok_or("a reader")?;
        let answer = health_of(alloc, keys, reader, Fixed(state, waiting)).ok_or("an answer")?;
        let front: &[u8] = if is_healthy {
            b"HTTP/1.1 200 "
        } else {
            b"HTTP/1.1 503 "
        };
        assert!(rt; answer.as_slice().starts_with(front), "{}", state.name());
    }
    log.close(&rt);
    Ok(())
}

#[test]
fn a_standby_of_a_frozen_primary_is_not_healthy(rt: HostRuntime) -> Result<(), Fail> {
    let alloc = rt.alloc();
    let keys = RandomState::new(&rt)?;
    let (log, mut readers) = published(&rt, alloc, 4).ok_or("memory")?;
    let table = [
        (State::Following, Some(30), "HTTP/1.1 200 "),
        (State::Following, Some(31), "HTTP/1.1 503 "),
        (State::Following, None, "HTTP/1.1 503 "),
        // Nobody sends to a primary.
        (State::Committing, None, "HTTP/1.1 200 "),
    ];
    for (state, silence, front) in table {
        let reader = readers.pop().ok_or("a reader")?;
        let reports = Heard(Fixed(state, None), silence);
        let answer = health_of(alloc, keys, reader, reports).ok_or("an answer")?;
        assert!(rt;
            answer.as_slice().starts_with(front.as_bytes()),
            "{}",
            state.name()
        );
    }
    log.close(&rt);
    Ok(())
}

#[test]
fn a_standby_without_a_list_is_warming(rt: HostRuntime) -> Result<(), Fail> {
    let alloc = rt.alloc();
    let keys = RandomState::new(&rt)?;
    let (publisher, mut readers) = als_view::new(alloc, &rt, 2, 1, false)?;
    let reader = readers.pop().ok_or("a reader")?;
    let mut answering = Answering::new(alloc, reader, Fixed(State::Following, None));
    let key = "GET /keys/1/3 HTTP/1.1\r\nHost: a\r\n\r\n";
    assert!(rt; begins(alloc, keys, &mut answering, key, "HTTP/1.1 503 "));
    let health = "GET /health HTTP/1.1\r\nHost: a\r\n\r\n";
    assert!(rt; begins(alloc, keys, &mut answering, health, "HTTP/1.1 503 "));
    let status = "GET /status HTTP/1.1\r\nHost: a\r\n\r\n";
    assert!(rt; begins(alloc, keys, &mut answering, status, "HTTP/1.1 200 "));
    publisher.close(&rt);
    Ok(())
}

#[test]
fn a_host_of_another_node_is_misdirected(rt: HostRuntime) -> Result<(), Fail> {
    let alloc = rt.alloc();
    let keys = RandomState::new(&rt)?;
    let (log, mut readers) = published(&rt, alloc, 1).ok_or("memory")?;
    let reader = readers.pop().ok_or("a reader")?;
    let standing = Fixed(State::Following, None);
    let mut answering = Answering::new(alloc, reader, standing);
    answering.answer_for(Hosts::Loopback);
    let table = [
        ("localhost", "HTTP/1.1 200 "),
        ("localhost:7071", "HTTP/1.1 200 "),
        ("127.0.0.1:7071", "HTTP/1.1 200 "),
        ("[::1]:7071", "HTTP/1.1 200 "),
        ("evil.example", "HTTP/1.1 421 "),
        ("localhost.evil.example", "HTTP/1.1 421 "),
    ];
    for (host, front) in table {
        let request = format!(in alloc; "GET /keys/1/3 HTTP/1.1\r\nHost: {host}\r\n\r\n")?;
        assert!(rt;
            begins(alloc, keys, &mut answering, request.as_str(), front),
            "{host}"
        );
    }
    log.close(&rt);
    Ok(())
}

#[test]
fn a_head_has_at_most_seven_kilobytes(rt: HostRuntime) -> Result<(), Fail> {
    let alloc = rt.alloc();
    let keys = RandomState::new(&rt)?;
    let (log, mut readers) = published(&rt, alloc, 1).ok_or("memory")?;
    let reader = readers.pop().ok_or("a reader")?;
    let mut answering = Answering::new(alloc, reader, Fixed(State::Following, None));
    let mut request = String::from_str(alloc, "GET /status HTTP/1.1\r\nHost: a\r\nx: ")?;
    for _ in 0..8192 {
        request.push_str("y")?;
    }
    request.push_str("\r\n\r\n")?;
    assert!(rt;
        begins(
            alloc,
            keys,
            &mut answering,
            request.as_str(),
            "HTTP/1.1 431 "
        )
    );
    log.close(&rt);
    Ok(())
}
