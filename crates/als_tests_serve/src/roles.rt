use crate::asking::{Fixed, answered, begins, gives, published};
use als_http::Answering;
use als_record::Lsn;
use als_report::{Report, Reports, State};
use std::hash::RandomState;
use std::test::*;

/// A node that reports that its log holds no record.
struct Empty(Fixed);

impl Drop for Empty {
    fn drop(self) {
        let Empty(fixed) = self;
        drop(fixed);
    }
}

impl Reports for Empty {
    fn report(&self) -> Report {
        Report {
            end: Lsn(16),
            acknowledged: Lsn(16),
            ..self.0.report()
        }
    }
}

const PRIMARY: &str = "GET /primary HTTP/1.1\r\nHost: a\r\n\r\n";

const STANDBY: &str = "GET /standby HTTP/1.1\r\nHost: a\r\n\r\n";

#[test]
fn a_role_is_of_one_node_at_most(rt: HostRuntime) -> Result<(), Fail> {
    let alloc = rt.alloc();
    let keys = RandomState::new(&rt)?;
    let (log, mut readers) = published(&rt, alloc, 11).ok_or("memory")?;
    let (yes, no) = ("HTTP/1.1 200 ", "HTTP/1.1 503 ");
    let table = [
        (State::Committing, None, yes, no),
        // Too few followers confirm its commits: a primary that was deposed, or that has just started.
        (State::Unconfirmed, None, no, no),
        (State::Following, None, no, yes),
        // A frame that waits for longer is one that the standby does not acknowledge.
        (State::Following, Some(11), no, no),
        (State::Recovering, None, no, no),
        (State::Waiting, None, no, no),
        (State::Refusing, None, no, no),
        (State::Sealed, None, no, no),
        (State::Primary, None, no, no),
        (State::Stopped, None, no, no),
    ];
    for (state, waiting, primary, standby) in table {
        let reader = readers.pop().ok_or("a reader")?;
        let mut answering = Answering::new(alloc, reader, Fixed(state, waiting));
        let name = state.name();
        assert!(rt;
            begins(alloc, keys, &mut answering, PRIMARY, primary),
            "{name}"
        );
        assert!(rt;
            begins(alloc, keys, &mut answering, STANDBY, standby),
            "{name}"
        );
    }
    log.close(&rt);
    Ok(())
}

#[test]
fn a_role_is_answered_in_json(rt: HostRuntime) -> Result<(), Fail> {
    let alloc = rt.alloc();
    let keys = RandomState::new(&rt)?;
    let (log, mut readers) = published(&rt, alloc, 1).ok_or("memory")?;
    let reader = readers.pop().ok_or("a reader")?;
    let mut answering = Answering::new(alloc, reader, Fixed(State::Committing, None));
    let primary = "HTTP/1.1 200 OK\r\ncontent-type: application/json\r\ncache-control: no-store\r\n\
        content-length: 16\r\n\r\n{\"primary\":true}";
    assert!(rt; gives(alloc, keys, &mut answering, PRIMARY, primary));
    let standby = "HTTP/1.1 503 Service Unavailable\r\ncontent-type: application/json\r\n\
        cache-control: no-store\r\ncontent-length: 17\r\n\r\n{\"standby\":false}";
    assert!(rt; gives(alloc, keys, &mut answering, STANDBY, standby));
    log.close(&rt);
    Ok(())
}

#[test]
fn a_primary_says_that_nothing_was_committed(rt: HostRuntime) -> Result<(), Fail> {
    let alloc = rt.alloc();
    let keys = RandomState::new(&rt)?;
    let (log, mut readers) = published(&rt, alloc, 1).ok_or("memory")?;
    let reader = readers.pop().ok_or("a reader")?;
    let reports = Empty(Fixed(State::Committing, None));
    let mut answering = Answering::new(alloc, reader, reports);
    let request = b"GET /status HTTP/1.0\r\n\r\n";
    let found = answered(alloc, keys, &mut answering, request).ok_or("an answer")?;
    let text = String::from_utf8(found).ok().ok_or("text")?;
    assert!(rt; text.contains(",\"new\":true,"));
    log.close(&rt);
    Ok(())
}
