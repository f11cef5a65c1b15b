use crate::acting::{begins, gives};
use als_asking::{Guard, Outcome};
use als_engine::Fault;
use als_record::{Key, Lsn, TransId};
use als_writer::{NotDecided, Refusal, Written};
use std::alloc::Global;
use std::hash::RandomState;
use std::test::*;

/// A transaction of one set, to be prepared.
const PREPARE: &str = "POST /prepare HTTP/1.1\r\nHost: localhost\r\nContent-Length: 33\r\n\r\n\
    {\"set\":[{\"key\":[1,3],\"to\":\"ab\"}]}";

/// The decision that transaction 7 commits.
const COMMIT: &str =
    "POST /decide HTTP/1.1\r\nHost: localhost\r\nContent-Length: 25\r\n\r\n{\"trans\":7,\"commit\":true}";

/// The decision that it rolls back.
const ROLL_BACK: &str =
    "POST /decide HTTP/1.1\r\nHost: localhost\r\nContent-Length: 26\r\n\r\n{\"commit\":false,\"trans\":7}";

/// What was written.
const WRITTEN: Written = Written {
    trans: TransId(7),
    lsn: Lsn(52),
    end: Lsn(108),
};

/// What stands before the text of an answer.
const FIELDS: &str = "content-type: application/json\r\ncache-control: no-store\r\n";

/// Whether a request is answered by this status, these fields of its own and this text.
fn answers(
    alloc: Global,
    keys: RandomState,
    outcome: Outcome,
    request: &str,
    (status, own, text): (&str, &str, &str),
) -> bool {
    let len = text.len();
    match format!(in alloc;
        "HTTP/1.1 {status}\r\n{FIELDS}{own}content-length: {len}\r\n\r\n{text}"
    ) {
        Ok(answer) => gives(
            alloc,
            keys,
            Guard::Loopback,
            outcome,
            request,
            answer.as_str(),
        ),
        Err(_) => false,
    }
}

#[test]
fn what_is_prepared_is_answered(rt: HostRuntime) -> Result<(), Fail> {
    let alloc = rt.alloc();
    let keys = RandomState::new(&rt)?;
    let key = Key { page: 1, slot: 3 };
    let by = TransId(9);
    let table = [
        (
            Outcome::Prepared(WRITTEN),
            (
                "200 OK",
                "als-lsn: 52\r\n",
                "{\"trans\":7,\"lsn\":52,\"prepared\":true}",
            ),
        ),
        (
            Outcome::Refused(Refusal::Held { key, by }),
            ("409 Conflict", "", "{\"held_by\":9}"),
        ),
        (
            Outcome::Refused(Refusal::LogFull),
            (
                "507 Insufficient Storage",
                "",
                "{\"refused\":29,\"name\":\"LogFull\"}",
            ),
        ),
        (
            Outcome::NotBegun,
            (
                "503 Service Unavailable",
                "retry-after: 1\r\n",
                "{\"name\":\"NotBegun\"}",
            ),
        ),
        (
            Outcome::Unknown(WRITTEN),
            (
                "504 Gateway Timeout",
                "",
                "{\"unknown\":true,\"trans\":7,\"lsn\":52}",
            ),
        ),
    ];
    for (outcome, answer) in table {
        let (_, _, text) = answer;
        assert!(rt; answers(alloc, keys, outcome, PREPARE, answer), "{text}");
    }
    Ok(())
}

#[test]
fn a_decision_is_answered(rt: HostRuntime) -> Result<(), Fail> {
    let alloc = rt.alloc();
    let keys = RandomState::new(&rt)?;
    let table = [
        (
            Outcome::Decided(WRITTEN),
            (
                "200 OK",
                "als-lsn: 52\r\n",
                "{\"trans\":7,\"lsn\":52,\"committed\":true}",
            ),
        ),
        (
            Outcome::NotDecided(NotDecided::NotInDoubt),
            (
                "404 Not Found",
                "",
                "{\"error\":\"not in doubt\",\"trans\":7}",
            ),
        ),
        (
            Outcome::NotDecided(NotDecided::State(Fault::Stopped)),
            (
                "503 Service Unavailable",
                "retry-after: 1\r\n",
                "{\"refused\":31,\"name\":\"Stopped\"}",
            ),
        ),
        (
            Outcome::NotDecided(NotDecided::Untidy),
            (
                "503 Service Unavailable",
                "retry-after: 1\r\n",
                "{\"refused\":23,\"name\":\"NotDrained\"}",
            ),
        ),
        (
            Outcome::Unknown(WRITTEN),
            (
                "504 Gateway Timeout",
                "",
                "{\"unknown\":true,\"trans\":7,\"lsn\":52}",
            ),
        ),
        (
            Outcome::Lost,
            ("504 Gateway Timeout", "", "{\"unknown\":true}"),
        ),
    ];
    for (outcome, answer) in table {
        let (_, _, text) = answer;
        assert!(rt; answers(alloc, keys, outcome, COMMIT, answer), "{text}");
    }
    let answer = ("200 OK", "", "{\"trans\":7,\"lsn\":52,\"committed\":false}");
    let decided = Outcome::Decided(WRITTEN);
    assert!(rt; answers(alloc, keys, decided, ROLL_BACK, answer));
    Ok(())
}

#[test]
fn what_is_in_doubt_is_listed(rt: HostRuntime) -> Result<(), Fail> {
    let keys = RandomState::new(&rt)?;
    let request = "GET /in-doubt HTTP/1.1\r\nHost: localhost\r\n\r\n";
    let text = "[{\"trans\":7,\"lsn\":52},{\"trans\":9,\"lsn\":180}]";
    assert!(rt;
        answers(
            rt.alloc(),
            keys,
            Outcome::Lost,
            request,
            ("200 OK", "", text)
        )
    );
    Ok(())
}

/// A decision with this body is answered 400, and this is wrong with it.
fn is_no_decision(alloc: Global, keys: RandomState, body: &str, why: &str) -> bool {
    let len = body.len();
    let request = format!(in alloc;
        "POST /decide HTTP/1.1\r\nHost: localhost\r\nContent-Length: {len}\r\n\r\n{body}"
    );
    let text = format!(in alloc; "{{\"error\":\"{why}\"}}");
    match (request, text) {
        (Ok(request), Ok(text)) => answers(
            alloc,
            keys,
            Outcome::Decided(WRITTEN),
            request.as_str(),
            ("400 Bad Request", "", text.as_str()),
        ),
        _ => false,
    }
}

#[test]
fn a_body_that_is_no_decision_is_refused(rt: HostRuntime) -> Result<(), Fail> {
    let alloc = rt.alloc();
    let keys = RandomState::new(&rt)?;
    let none = "no decision: an object of \\\"trans\\\" and \\\"commit\\\"";
    let trans = "\\\"trans\\\" is no number from 1 to 4294967295";
    let table = [
        ("7", none),
        ("{}", none),
        ("{\"trans\":7}", none),
        ("{\"trans\":7,\"commit\":true,\"x\":1}", none),
        ("{\"trans\":7,\"commits\":true}", none),
        ("{\"trans\":0,\"commit\":true}", trans),
        ("{\"trans\":4294967296,\"commit\":true}", trans),
        ("{\"trans\":\"7\",\"commit\":true}", trans),
        ("{\"trans\":-1,\"commit\":true}", trans),
        (
            "{\"trans\":7,\"commit\":1}",
            "\\\"commit\\\" is neither true nor false",
        ),
        (
            "{\"trans\":7,\"trans\":8}",
            "a name comes twice in one object",
        ),
        ("[{\"trans\":7,\"commit\":true}]", none),
        ("{", "no JSON"),
    ];
    for (body, why) in table {
        assert!(rt; is_no_decision(alloc, keys, body, why), "{body}");
    }
    Ok(())
}

#[test]
fn decisions_are_guarded_as_commits(rt: HostRuntime) -> Result<(), Fail> {
    let alloc = rt.alloc();
    let keys = RandomState::new(&rt)?;
    let table = [
        (PREPARE, "HTTP/1.1 401 Unauthorized"),
        (COMMIT, "HTTP/1.1 401 Unauthorized"),
        (
            "GET /decide HTTP/1.1\r\nHost: localhost\r\n\r\n",
            "HTTP/1.1 405 Method Not Allowed",
        ),
        (
            "GET /in-doubt HTTP/1.1\r\nHost: localhost\r\n\r\n",
            "HTTP/1.1 200 OK",
        ),
        (
            "GET /in-doubt HTTP/1.1\r\nHost: evil.example\r\n\r\n",
            "HTTP/1.1 421 Misdirected Request",
        ),
        (
            "POST /in-doubt HTTP/1.1\r\nHost: localhost\r\nContent-Length: 0\r\n\r\n",
            "HTTP/1.1 405 Method Not Allowed",
        ),
    ];
    for (request, front) in table {
        let mut token = Vec::new(alloc);
        token.extend_from_slice("abcdefghijklmnop".as_bytes())?;
        let guard = Guard::Token(token);
        assert!(rt;
            begins(alloc, keys, guard, Outcome::Lost, request, front),
            "{request}"
        );
    }
    Ok(())
}
