use crate::log::{Began, Log, summary, text};
use als_compare::{Summary, write_question};
use als_comparing::serve_log;
use als_epochs::History;
use als_record::{LogHeader, Lsn};
use als_ship::Fault;
use als_wire::write_resume;
use std::alloc::Global;
use std::process::Abort;

/// Bytes of the log: three pieces, and 3,392 more.
const LEN: u32 = 200_000;

/// What a source of the log answers to this question: no session begins. `None`: allocation failed.
fn answered(rt: &impl Abort, alloc: Global, question: &Summary, wanted: u8) -> Option<()> {
    let mut log = Log::new(text(alloc, LEN)?);
    let mut asked = Vec::new(alloc);
    write_question(&mut asked, question).ok()?;
    let mut began = Began::new();
    let mut written = Vec::new(alloc);
    let mut reader = asked.as_slice();
    match serve_log(alloc, &mut log, &mut began, 4, &mut reader, &mut written) {
        Err(Fault::Memory) | Err(Fault::Stream) => return None,
        served => assert!(rt; served == Ok(0)),
    }
    assert!(rt; written.as_slice() == [b'V', wanted].as_slice());
    assert!(rt; began.from.is_none());
    Some(())
}

/// Questions about fronts of the log, and about others. `None`: allocation failed.
fn questions(rt: &impl Abort, alloc: Global) -> Option<()> {
    let mut bytes = text(alloc, LEN)?;
    for len in [0, 1, 65_536, 65_537, 131_072, 199_999, 200_000] {
        answered(rt, alloc, &summary(bytes.as_slice().get(..len)?, 1), 0)?;
    }
    // Of the epoch before: its seal is at 100.
    answered(rt, alloc, &summary(bytes.as_slice().get(..100)?, 0), 0)?;
    answered(rt, alloc, &summary(bytes.as_slice().get(..101)?, 0), 3)?;
    // Another log, of which so much is asked: all of it parts, and its beginning is another one.
    let mut another = text(alloc, 150)?;
    *another.as_mut_slice().get_mut(50)? ^= 1;
    answered(rt, alloc, &summary(another.as_slice(), 0), 3)?;
    answered(rt, alloc, &summary(another.as_slice().get(..100)?, 0), 1)?;
    answered(rt, alloc, &summary(another.as_slice().get(..50)?, 0), 0)?;
    // Of a later one.
    answered(rt, alloc, &summary(bytes.as_slice().get(..100)?, 2), 3)?;
    // One byte is another one: in the first piece, in the last one, and past the end.
    bytes.push(7).ok()?;
    answered(rt, alloc, &summary(bytes.as_slice(), 1), 2)?;
    *bytes.as_mut_slice().get_mut(199_999)? ^= 1;
    answered(rt, alloc, &summary(bytes.as_slice().get(..200_000)?, 1), 1)?;
    answered(rt, alloc, &summary(bytes.as_slice().get(..199_999)?, 1), 0)?;
    *bytes.as_mut_slice().get_mut(16)? ^= 1;
    answered(rt, alloc, &summary(bytes.as_slice().get(..17)?, 1), 1)?;
    answered(rt, alloc, &summary(bytes.as_slice().get(..16)?, 1), 0)
}

#[test]
fn fronts_are_the_same_and_others_are_not(rt: HostRuntime) {
    let alloc = rt.alloc();
    assert!(rt; questions(&rt, alloc).is_some() || questions(&rt, alloc).is_some());
}

/// A follower that asks for the log gets it. `None`: allocation failed.
fn session(rt: &impl Abort, alloc: Global) -> Option<()> {
    let mut log = Log::new(text(alloc, 300)?);
    let mut asked = Vec::new(alloc);
    let mut history = History::empty();
    history.push(Lsn(100));
    write_resume(&mut asked, Lsn(16), LogHeader { pages: 4 }, &history).ok()?;
    let mut began = Began::new();
    let mut written = Vec::new(alloc);
    let mut reader = asked.as_slice();
    match serve_log(alloc, &mut log, &mut began, 4, &mut reader, &mut written) {
        Err(Fault::Memory) | Err(Fault::Stream) => return None,
        served => assert!(rt; served == Err(Fault::Cut)),
    }
    assert!(rt; began.from == Some(Lsn(16)));
    // The history, and the one frame that it did not answer.
    assert!(rt; written.len() == 13 + 17 + 284);
    Some(())
}

#[test]
fn a_session_is_as_ever(rt: HostRuntime) {
    let alloc = rt.alloc();
    assert!(rt; session(&rt, alloc).is_some() || session(&rt, alloc).is_some());
}
