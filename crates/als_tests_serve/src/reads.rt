use crate::asking::{Fixed, NO_SUCH_KEY, begins, gives, published};
use als_http::Answering;
use als_report::State;
use std::hash::RandomState;
use std::test::*;

/// Page 1 of the log of which the one commit wrote slot 3.
const PAGE: &str = "HTTP/1.1 200 OK\r\ncontent-type: application/json\r\n\
    cache-control: no-store\r\nals-lsn: 52\r\netag: \"52\"\r\ncontent-length: 108\r\n\r\n\
    {\"values\":[null,null,null,\"ab\",null,null,null,null,null,null,null,null,null,null,null],\
    \"commits\":1,\"lsn\":52}";

/// The keys of a body, in its order.
const THREE: &str = "HTTP/1.1 200 OK\r\ncontent-type: application/json\r\n\
    cache-control: no-store\r\nals-lsn: 52\r\netag: \"52\"\r\ncontent-length: 48\r\n\r\n\
    {\"values\":[\"ab\",null,\"ab\"],\"commits\":1,\"lsn\":52}";

#[test]
fn many_keys_are_answered_at_once(rt: HostRuntime) -> Result<(), Fail> {
    let alloc = rt.alloc();
    let keys = RandomState::new(&rt)?;
    let (log, mut readers) = published(&rt, alloc, 1).ok_or("memory")?;
    let reader = readers.pop().ok_or("a reader")?;
    let mut answering = Answering::new(alloc, reader, Fixed(State::Following, None));
    let table = [
        ("GET /keys/1 HTTP/1.1\r\nHost: a\r\n\r\n", PAGE),
        (
            "GET /keys/1 HTTP/1.1\r\nHost: a\r\nAls-At-Least: 52\r\n\r\n",
            PAGE,
        ),
        ("GET /keys/2 HTTP/1.1\r\nHost: a\r\n\r\n", NO_SUCH_KEY),
        (
            "POST /read HTTP/1.1\r\nHost: a\r\ncontent-length: 28\r\n\r\n\
            {\"keys\":[[1,3],[0,0],[1,3]]}",
            THREE,
        ),
        (
            "POST /read HTTP/1.1\r\nHost: a\r\ncontent-length: 22\r\n\r\n\
            {\"keys\":[[1,3],[2,0]]}",
            NO_SUCH_KEY,
        ),
    ];
    for (request, answer) in table {
        assert!(rt;
            gives(alloc, keys, &mut answering, request, answer),
            "{request}"
        );
    }
    log.close(&rt);
    Ok(())
}

#[test]
fn a_read_that_names_no_keys_is_refused(rt: HostRuntime) -> Result<(), Fail> {
    let alloc = rt.alloc();
    let keys = RandomState::new(&rt)?;
    let (log, mut readers) = published(&rt, alloc, 1).ok_or("memory")?;
    let reader = readers.pop().ok_or("a reader")?;
    let mut answering = Answering::new(alloc, reader, Fixed(State::Following, None));
    let table = [
        (
            "POST /read HTTP/1.1\r\nHost: a\r\ncontent-length: 16\r\n\r\n{\"keys\":[[1,3]}}",
            "HTTP/1.1 400 ",
        ),
        (
            "POST /read HTTP/1.1\r\nHost: a\r\ncontent-length: 18\r\n\r\n{\"keys\":[[1,3,4]]}",
            "HTTP/1.1 400 ",
        ),
        (
            "POST /read HTTP/1.1\r\nHost: a\r\ncontent-length: 25\r\n\r\n\
            {\"keys\":[[1,3]],\"of\":\"a\"}",
            "HTTP/1.1 400 ",
        ),
        (
            "POST /read HTTP/1.1\r\nHost: a\r\nAls-At-Least: 53\r\ncontent-length: 16\r\n\r\n\
            {\"keys\":[[1,3]]}",
            "HTTP/1.1 503 ",
        ),
        (
            "POST /read HTTP/1.1\r\nHost: a\r\nAls-At-Least: x\r\ncontent-length: 16\r\n\r\n\
            {\"keys\":[[1,3]]}",
            "HTTP/1.1 400 ",
        ),
        (
            "GET /read HTTP/1.1\r\nHost: a\r\n\r\n",
            "HTTP/1.1 405 Method Not Allowed\r\n\
            content-type: application/json\r\ncache-control: no-store\r\nallow: POST\r\n",
        ),
        ("GET /keys/ HTTP/1.1\r\nHost: a\r\n\r\n", "HTTP/1.1 400 "),
        ("GET /keys/x HTTP/1.1\r\nHost: a\r\n\r\n", "HTTP/1.1 400 "),
    ];
    for (request, front) in table {
        assert!(rt;
            begins(alloc, keys, &mut answering, request, front),
            "{request}"
        );
    }
    log.close(&rt);
    Ok(())
}
