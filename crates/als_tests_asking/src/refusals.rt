use crate::acting::{begins, gives};
use als_asking::{Guard, Outcome};
use als_record::{Lsn, TransId};
use als_writer::Written;
use std::alloc::Global;
use std::hash::RandomState;
use std::test::*;

/// What each transaction of these tests becomes.
const DONE: Outcome = Outcome::Committed(Written {
    trans: TransId(1),
    lsn: Lsn(52),
    end: Lsn(108),
});

#[test]
fn a_request_that_asks_for_nothing_is_refused(rt: HostRuntime) -> Result<(), Fail> {
    let alloc = rt.alloc();
    let keys = RandomState::new(&rt)?;
    let table = [
        (
            "GET /commit HTTP/1.1\r\nHost: localhost\r\n\r\n",
            "HTTP/1.1 405 Method Not Allowed\r\ncontent-type: application/json\r\n\
            cache-control: no-store\r\nallow: POST\r\ncontent-length: 46\r\n\r\n\
            {\"error\":\"transactions are committed by POST\"}",
        ),
        (
            "POST /commit HTTP/1.1\r\nHost: evil.example\r\nContent-Length: 33\r\n\r\n\
            {\"set\":[{\"key\":[1,3],\"to\":\"ab\"}]}",
            "HTTP/1.1 421 Misdirected Request\r\ncontent-type: application/json\r\n\
            cache-control: no-store\r\ncontent-length: 67\r\n\r\n\
            {\"error\":\"this node has no such host: localhost, 127.0.0.1, [::1]\"}",
        ),
        (
            "POST /commit HTTP/1.1\r\nHost: localhost\r\nOrigin: http://evil.example\r\n\
            Content-Length: 33\r\n\r\n{\"set\":[{\"key\":[1,3],\"to\":\"ab\"}]}",
            "HTTP/1.1 403 Forbidden\r\ncontent-type: application/json\r\ncache-control: no-store\r\n\
            content-length: 46\r\n\r\n{\"error\":\"a page of a browser may not commit\"}",
        ),
        (
            "POST /commit HTTP/1.1\r\nHost: localhost\r\nContent-Length: 1\r\n\r\n{",
            "HTTP/1.1 400 Bad Request\r\ncontent-type: application/json\r\n\
            cache-control: no-store\r\ncontent-length: 19\r\n\r\n{\"error\":\"no JSON\"}",
        ),
        (
            "POST /commit HTTP/1.1\r\nHost: localhost\r\nContent-Length: 2\r\n\r\n[]",
            "HTTP/1.1 400 Bad Request\r\ncontent-type: application/json\r\n\
            cache-control: no-store\r\ncontent-length: 47\r\n\r\n\
            {\"error\":\"transaction 1 of the array: no JSON\"}",
        ),
        (
            "POST /commit HTTP/1.1\r\nHost: localhost\r\nContent-Length: 34\r\n\r\n\
            [{\"set\":[{\"key\":[1,3],\"to\":\"ab\"}]}",
            "HTTP/1.1 400 Bad Request\r\ncontent-type: application/json\r\n\
            cache-control: no-store\r\ncontent-length: 50\r\n\r\n\
            {\"error\":\"no array: it does not end in a bracket\"}",
        ),
        (
            "POST /commit HTTP/1.1\r\nHost: localhost\r\nContent-Length: 38\r\n\r\n\
            [{\"set\":[{\"key\":[1,3],\"to\":\"ab\"}]},{}]",
            "HTTP/1.1 400 Bad Request\r\ncontent-type: application/json\r\n\
            cache-control: no-store\r\ncontent-length: 100\r\n\r\n\
            {\"error\":\"transaction 2 of the array: no transaction: an object of \\\"set\\\", with \\\"if\\\" or without\"}",
        ),
    ];
    for (request, answer) in table {
        assert!(rt;
            gives(alloc, keys, Guard::Loopback, DONE, request, answer),
            "{request}"
        );
    }
    Ok(())
}

#[test]
fn another_path_goes_to_the_reads(rt: HostRuntime) -> Result<(), Fail> {
    let keys = RandomState::new(&rt)?;
    assert!(rt;
        begins(
            rt.alloc(),
            keys,
            Guard::Loopback,
            DONE,
            "GET /status HTTP/1.1\r\nHost: localhost\r\n\r\n",
            "HTTP/1.1 404 Not Found"
        )
    );
    Ok(())
}

/// The guard of this token.
fn guard_of(alloc: Global, token: &str) -> Option<Guard> {
    let mut bytes = Vec::new(alloc);
    bytes.extend_from_slice(token.as_bytes()).ok()?;
    Some(Guard::Token(bytes))
}

#[test]
fn the_token_alone_is_taken(rt: HostRuntime) -> Result<(), Fail> {
    let alloc = rt.alloc();
    let keys = RandomState::new(&rt)?;
    let table = [
        (
            "POST /commit HTTP/1.1\r\nHost: localhost\r\nAuthorization: Bearer abcdefghijklmnop\r\n\
            Content-Length: 33\r\n\r\n{\"set\":[{\"key\":[1,3],\"to\":\"ab\"}]}",
            "HTTP/1.1 200 OK",
        ),
        (
            "POST /commit HTTP/1.1\r\nHost: localhost\r\nContent-Length: 33\r\n\r\n\
            {\"set\":[{\"key\":[1,3],\"to\":\"ab\"}]}",
            "HTTP/1.1 401 Unauthorized",
        ),
        (
            "POST /commit HTTP/1.1\r\nHost: localhost\r\nAuthorization: Basic abcdefghijklmnop\r\n\
            Content-Length: 33\r\n\r\n{\"set\":[{\"key\":[1,3],\"to\":\"ab\"}]}",
            "HTTP/1.1 401 Unauthorized",
        ),
        (
            "POST /commit HTTP/1.1\r\nHost: localhost\r\nAuthorization: Bearer abcdefghijklmnoq\r\n\
            Content-Length: 33\r\n\r\n{\"set\":[{\"key\":[1,3],\"to\":\"ab\"}]}",
            "HTTP/1.1 403 Forbidden",
        ),
        (
            "POST /commit HTTP/1.1\r\nHost: localhost\r\nAuthorization: Bearer abcdefghijklmno\r\n\
            Content-Length: 33\r\n\r\n{\"set\":[{\"key\":[1,3],\"to\":\"ab\"}]}",
            "HTTP/1.1 403 Forbidden",
        ),
        (
            "POST /commit HTTP/1.1\r\nHost: localhost\r\nAuthorization: Bearer abcdefghijklmnop\r\n\
            Authorization: Bearer abcdefghijklmnop\r\nContent-Length: 33\r\n\r\n\
            {\"set\":[{\"key\":[1,3],\"to\":\"ab\"}]}",
            "HTTP/1.1 401 Unauthorized",
        ),
    ];
    for (request, front) in table {
        let guard = guard_of(alloc, "abcdefghijklmnop").ok_or("memory")?;
        assert!(rt;
            begins(alloc, keys, guard, DONE, request, front),
            "{request}"
        );
    }
    Ok(())
}
