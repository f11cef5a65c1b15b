use crate::acting::gives;
use als_asking::{Guard, Outcome};
use als_engine::Fault;
use als_record::{ImageView, KeptImage, Key, Lsn, TransId};
use als_writer::{Failing, Flaw, Refusal, Unmet, Written};
use std::alloc::Global;
use std::hash::RandomState;
use std::test::*;

/// A transaction of one set.
const ONE: &str = "POST /commit HTTP/1.1\r\nHost: localhost\r\nContent-Length: 33\r\n\r\n\
    {\"set\":[{\"key\":[1,3],\"to\":\"ab\"}]}";

/// Two of them.
const TWO: &str = "POST /commit HTTP/1.1\r\nHost: localhost\r\nContent-Length: 70\r\n\r\n\
    [{\"set\":[{\"key\":[1,3],\"to\":\"ab\"}]}, {\"set\":[{\"key\":[1,3],\"to\":\"ab\"}]}]";

/// What was written.
const WRITTEN: Written = Written {
    trans: TransId(1),
    lsn: Lsn(52),
    end: Lsn(108),
};

/// The key of these tests.
const KEY: Key = Key { page: 1, slot: 3 };

/// Whether a request is answered so, where each transaction has this outcome.
fn answers(
    alloc: Global,
    keys: RandomState,
    outcome: Outcome,
    request: &str,
    answer: &str,
) -> bool {
    gives(alloc, keys, Guard::Loopback, outcome, request, answer)
}

#[test]
fn what_is_in_the_log_is_answered(rt: HostRuntime) -> Result<(), Fail> {
    let alloc = rt.alloc();
    let keys = RandomState::new(&rt)?;
    let table = [
        (
            Outcome::Committed(WRITTEN),
            "HTTP/1.1 200 OK\r\ncontent-type: application/json\r\ncache-control: no-store\r\n\
            als-lsn: 52\r\ncontent-length: 20\r\n\r\n{\"trans\":1,\"lsn\":52}",
        ),
        (
            Outcome::Unknown(WRITTEN),
            "HTTP/1.1 504 Gateway Timeout\r\ncontent-type: application/json\r\n\
            cache-control: no-store\r\ncontent-length: 35\r\n\r\n\
            {\"unknown\":true,\"trans\":1,\"lsn\":52}",
        ),
        (
            Outcome::Lost,
            "HTTP/1.1 504 Gateway Timeout\r\ncontent-type: application/json\r\n\
            cache-control: no-store\r\ncontent-length: 16\r\n\r\n{\"unknown\":true}",
        ),
        (
            Outcome::NotBegun,
            "HTTP/1.1 503 Service Unavailable\r\ncontent-type: application/json\r\n\
            cache-control: no-store\r\nretry-after: 1\r\ncontent-length: 19\r\n\r\n\
            {\"name\":\"NotBegun\"}",
        ),
    ];
    for (outcome, answer) in table {
        assert!(rt; answers(alloc, keys, outcome, ONE, answer), "{answer}");
    }
    Ok(())
}

/// A slot of page 1 for which a comparison failed, with its value.
fn unmet(slot: u8, image: KeptImage) -> Unmet {
    Unmet {
        key: Key { page: 1, slot },
        image,
    }
}

/// The refusal of a transaction of which these comparisons failed.
fn not_as_asked(unmet: &[Unmet]) -> Refusal {
    let mut failing = Failing::none();
    for one in unmet {
        failing.push(*one);
    }
    Refusal::NotAsAsked { failing }
}

#[test]
fn what_was_refused_is_answered(rt: HostRuntime) -> Result<(), Fail> {
    let alloc = rt.alloc();
    let keys = RandomState::new(&rt)?;
    let cd = KeptImage::of(&ImageView {
        bytes: Some(&[0xcd]),
    });
    let ab = KeptImage::of(&ImageView {
        bytes: Some(&[0xab]),
    });
    let table = [
        (
            not_as_asked(&[unmet(3, cd)]),
            "HTTP/1.1 409 Conflict\r\ncontent-type: application/json\r\ncache-control: no-store\r\n\
            content-length: 45\r\n\r\n{\"not_as_asked\":[{\"key\":[1,3],\"value\":\"cd\"}]}",
        ),
        (
            not_as_asked(&[unmet(3, KeptImage::absent())]),
            "HTTP/1.1 409 Conflict\r\ncontent-type: application/json\r\ncache-control: no-store\r\n\
            content-length: 45\r\n\r\n{\"not_as_asked\":[{\"key\":[1,3],\"value\":null}]}",
        ),
        (
            not_as_asked(&[unmet(5, ab), unmet(3, KeptImage::absent())]),
            "HTTP/1.1 409 Conflict\r\ncontent-type: application/json\r\ncache-control: no-store\r\n\
            content-length: 72\r\n\r\n{\"not_as_asked\":[{\"key\":[1,5],\"value\":\"ab\"},\
            {\"key\":[1,3],\"value\":null}]}",
        ),
        (
            Refusal::Held {
                key: KEY,
                by: TransId(7),
            },
            "HTTP/1.1 409 Conflict\r\ncontent-type: application/json\r\ncache-control: no-store\r\n\
            content-length: 13\r\n\r\n{\"held_by\":7}",
        ),
        (
            Refusal::Invalid(Flaw::KeyTwice { key: KEY }),
            "HTTP/1.1 400 Bad Request\r\ncontent-type: application/json\r\n\
            cache-control: no-store\r\ncontent-length: 43\r\n\r\n\
            {\"error\":\"it sets a key twice\",\"key\":[1,3]}",
        ),
        (
            Refusal::LogFull,
            "HTTP/1.1 507 Insufficient Storage\r\ncontent-type: application/json\r\n\
            cache-control: no-store\r\ncontent-length: 31\r\n\r\n\
            {\"refused\":29,\"name\":\"LogFull\"}",
        ),
        (
            Refusal::State(Fault::Stopped),
            "HTTP/1.1 503 Service Unavailable\r\ncontent-type: application/json\r\n\
            cache-control: no-store\r\nretry-after: 1\r\ncontent-length: 31\r\n\r\n\
            {\"refused\":31,\"name\":\"Stopped\"}",
        ),
        (
            Refusal::Untidy,
            "HTTP/1.1 503 Service Unavailable\r\ncontent-type: application/json\r\n\
            cache-control: no-store\r\nretry-after: 1\r\ncontent-length: 34\r\n\r\n\
            {\"refused\":23,\"name\":\"NotDrained\"}",
        ),
    ];
    for (refusal, answer) in table {
        let outcome = Outcome::Refused(refusal);
        assert!(rt; answers(alloc, keys, outcome, ONE, answer), "{answer}");
    }
    Ok(())
}

#[test]
fn an_array_is_answered_by_an_array(rt: HostRuntime) -> Result<(), Fail> {
    let alloc = rt.alloc();
    let keys = RandomState::new(&rt)?;
    let committed = Outcome::Committed(WRITTEN);
    assert!(rt;
        answers(
            alloc,
            keys,
            committed,
            TWO,
            "HTTP/1.1 200 OK\r\ncontent-type: application/json\r\ncache-control: no-store\r\n\
            content-length: 69\r\n\r\n\
            [{\"status\":200,\"trans\":1,\"lsn\":52},{\"status\":200,\"trans\":1,\"lsn\":52}]"
        )
    );
    let held = Outcome::Refused(Refusal::Held {
        key: KEY,
        by: TransId(7),
    });
    assert!(rt;
        answers(
            alloc,
            keys,
            held,
            TWO,
            "HTTP/1.1 200 OK\r\ncontent-type: application/json\r\ncache-control: no-store\r\n\
            content-length: 55\r\n\r\n\
            [{\"status\":409,\"held_by\":7},{\"status\":409,\"held_by\":7}]"
        )
    );
    Ok(())
}
