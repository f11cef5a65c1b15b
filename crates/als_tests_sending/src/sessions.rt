use crate::follower::{Ears, told};
use crate::log::{HEADER, Log, Step, sealed, text};
use als_record::Lsn;
use als_sending::send_log;
use als_ship::Fault;
use als_wire::{write_data, write_epochs};
use std::alloc::Global;
use std::process::Abort;

/// What a session answered and sent, and what was heard of the follower.
struct Done {
    answer: Result<u64, Fault>,
    sent: Vec<u8>,
    from: Option<Lsn>,
    count: u32,
    last: Option<Lsn>,
}

impl Drop for Done {
    fn drop(self) {
        let Done {
            answer: _,
            sent,
            from: _,
            count: _,
            last: _,
        } = self;
        drop(sent);
    }
}

/// A session with a follower that told this. `None`: allocation failed.
fn session(alloc: Global, log: &mut Log, window: u32, told: &[u8]) -> Option<Done> {
    let mut ears = Ears::new();
    let mut sent = Vec::new(alloc);
    let mut reader = told;
    let window = window.clamp(1, 64);
    let answer = send_log(alloc, log, &mut ears, window, &mut reader, &mut sent);
    match answer {
        Err(Fault::Memory) | Err(Fault::Stream) => None,
        answer => Some(Done {
            answer,
            sent,
            from: ears.from,
            count: ears.count,
            last: ears.last,
        }),
    }
}

/// The own history, and Data frames of these parts of the text. `None`: allocation failed.
fn frames(alloc: Global, bytes: &[u8], parts: &[(usize, usize)]) -> Option<Vec<u8>> {
    let mut sent = Vec::new(alloc);
    write_epochs(&mut sent, &sealed()).ok()?;
    for (from, to) in parts {
        let part = bytes.get(*from..*to)?;
        if part.len() > 65536 {
            return None;
        }
        write_data(&mut sent, 1, *from as u64, part).ok()?;
    }
    Some(sent)
}

/// A log of three pieces and a half, sent with this window. `None`: allocation failed.
fn pieces(rt: &impl Abort, alloc: Global, window: u32) -> Option<()> {
    let mut log = Log::new(text(alloc, 229376)?, 229376, &[]);
    let told = told(
        alloc,
        16,
        HEADER,
        &sealed(),
        &[65552, 131088, 196624, 229376, 229376],
    )?;
    let done = session(alloc, &mut log, window, told.as_slice())?;
    let parts = [
        (16, 65552),
        (65552, 131088),
        (131088, 196624),
        (196624, 229376),
        (229376, 229376),
    ];
    let wanted = frames(alloc, text(alloc, 229376)?.as_slice(), &parts)?;
    assert!(rt; done.answer == Ok(229360));
    assert!(rt; done.sent.as_slice() == wanted.as_slice());
    assert!(rt; done.from == Some(Lsn(16)));
    assert!(rt; done.count == 5);
    assert!(rt; done.last == Some(Lsn(229376)));
    Some(())
}

#[test]
fn a_log_is_sent_in_pieces(rt: HostRuntime) {
    let alloc = rt.alloc();
    assert!(rt; pieces(&rt, alloc, 1).is_some() || pieces(&rt, alloc, 1).is_some());
    assert!(rt; pieces(&rt, alloc, 2).is_some() || pieces(&rt, alloc, 2).is_some());
    assert!(rt; pieces(&rt, alloc, 16).is_some() || pieces(&rt, alloc, 16).is_some());
}

/// A follower that answers this and goes away: so many bytes were sent. `None`: allocation failed.
fn ahead(
    rt: &impl Abort,
    alloc: Global,
    window: u32,
    answers: &[u64],
    wanted: usize,
) -> Option<()> {
    let mut log = Log::new(text(alloc, 229376)?, 229376, &[]);
    let told = told(alloc, 16, HEADER, &sealed(), answers)?;
    let done = session(alloc, &mut log, window, told.as_slice())?;
    assert!(rt; done.answer == Err(Fault::Cut));
    assert!(rt; done.sent.len() == wanted);
    Some(())
}

// An Epochs frame of one seal has 13 bytes, a whole piece 65,553.
#[test]
fn frames_go_out_ahead_of_their_answers(rt: HostRuntime) {
    let alloc = rt.alloc();
    let rows = [(1, 65566), (2, 131119), (3, 196672), (16, 229441)];
    for (window, sent) in rows {
        assert!(rt;
            ahead(&rt, alloc, window, &[], sent).is_some()
                || ahead(&rt, alloc, window, &[], sent).is_some()
        );
    }
    assert!(rt;
        ahead(&rt, alloc, 1, &[65552], 131119).is_some()
            || ahead(&rt, alloc, 1, &[65552], 131119).is_some()
    );
}

/// A log that grows while its follower is there. `None`: allocation failed.
fn grows(rt: &impl Abort, alloc: Global) -> Option<()> {
    let script = &[Step::Grows(216), Step::Beats, Step::Grows(300), Step::Beats];
    let mut log = Log::new(text(alloc, 300)?, 116, script);
    let told = told(
        alloc,
        100,
        HEADER,
        &sealed(),
        &[116, 216, 216, 300, 300, 300],
    )?;
    let done = session(alloc, &mut log, 4, told.as_slice())?;
    let parts = [
        (100, 116),
        (116, 216),
        (215, 216),
        (216, 300),
        (299, 300),
        (300, 300),
    ];
    let wanted = frames(alloc, text(alloc, 300)?.as_slice(), &parts)?;
    assert!(rt; done.answer == Ok(200));
    assert!(rt; done.sent.as_slice() == wanted.as_slice());
    assert!(rt; done.count == 6);
    Some(())
}

#[test]
fn a_log_grows_and_beats_between(rt: HostRuntime) {
    let alloc = rt.alloc();
    assert!(rt; grows(&rt, alloc).is_some() || grows(&rt, alloc).is_some());
}

/// A follower that holds all of the log is answered at once. `None`: allocation failed.
fn greets(rt: &impl Abort, alloc: Global) -> Option<()> {
    let mut log = Log::new(text(alloc, 116)?, 116, &[]);
    let told = told(alloc, 116, HEADER, &sealed(), &[116, 116])?;
    let done = session(alloc, &mut log, 16, told.as_slice())?;
    let wanted = frames(
        alloc,
        text(alloc, 116)?.as_slice(),
        &[(115, 116), (116, 116)],
    )?;
    assert!(rt; done.answer == Ok(0));
    assert!(rt; done.sent.as_slice() == wanted.as_slice());
    assert!(rt; done.last == Some(Lsn(116)));
    Some(())
}

#[test]
fn a_follower_with_nothing_new_is_answered_at_once(rt: HostRuntime) {
    let alloc = rt.alloc();
    assert!(rt; greets(&rt, alloc).is_some() || greets(&rt, alloc).is_some());
}

/// A log that does not beat, before a follower that holds so much of it. `None`: allocation failed.
fn does_not_beat(
    rt: &impl Abort,
    alloc: Global,
    from: u64,
    parts: &[(usize, usize)],
    answers: &[u64],
) -> Option<()> {
    let script = &[Step::Grows(216), Step::Beats, Step::Grows(300)];
    let mut log = Log::new(text(alloc, 300)?, 116, script);
    log.beats = false;
    let told = told(alloc, from, HEADER, &sealed(), answers)?;
    let done = session(alloc, &mut log, 4, told.as_slice())?;
    let wanted = frames(alloc, text(alloc, 300)?.as_slice(), parts)?;
    assert!(rt; done.answer == Ok(216_u64.saturating_sub(from)));
    assert!(rt; done.sent.as_slice() == wanted.as_slice());
    assert!(rt; done.last == Some(Lsn(216)));
    Some(())
}

// What comes behind the beat is for the next session.
#[test]
fn a_log_that_does_not_beat_is_sent_and_ends(rt: HostRuntime) {
    let alloc = rt.alloc();
    let parts = [(100, 116), (116, 216), (216, 216)];
    let answers = [116, 216, 216];
    assert!(rt;
        does_not_beat(&rt, alloc, 100, &parts, &answers).is_some()
            || does_not_beat(&rt, alloc, 100, &parts, &answers).is_some()
    );
    // Nor is it greeted.
    assert!(rt;
        does_not_beat(&rt, alloc, 116, &parts[1..], &answers[1..]).is_some()
            || does_not_beat(&rt, alloc, 116, &parts[1..], &answers[1..]).is_some()
    );
}
