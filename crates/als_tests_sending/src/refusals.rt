use crate::follower::{Ears, told};
use crate::log::{HEADER, Log, sealed, text};
use als_epochs::History;
use als_record::{LogHeader, Lsn};
use als_sending::send_log;
use als_ship::Fault;
use std::alloc::Global;
use std::process::Abort;

/// A session with a follower that told this: why it ended early, whether it began, how many answers
/// came, and how many bytes were sent. `None`: allocation failed.
fn refused(
    rt: &impl Abort,
    alloc: Global,
    told: &[u8],
    wanted: Fault,
    begun: bool,
    count: u32,
    sent: usize,
) -> Option<()> {
    let mut log = Log::new(text(alloc, 300)?, 300, &[]);
    let mut ears = Ears::new();
    let mut written = Vec::new(alloc);
    let mut reader = told;
    match send_log(alloc, &mut log, &mut ears, 4, &mut reader, &mut written) {
        Err(Fault::Memory) | Err(Fault::Stream) => return None,
        answer => assert!(rt; answer == Err(wanted)),
    }
    assert!(rt; ears.from.is_some() == begun);
    assert!(rt; ears.count == count);
    assert!(rt; written.len() == sent);
    Some(())
}

/// Another header, another history, a parted log, and more than there is. `None`: allocation failed.
fn turned_away(rt: &impl Abort, alloc: Global) -> Option<()> {
    let other = LogHeader { pages: 5 };
    let own = told(alloc, 16, other, &sealed(), &[])?;
    refused(rt, alloc, own.as_slice(), Fault::BadHeader, false, 0, 0)?;
    let history = History::of(&[Lsn(50)])?;
    let own = told(alloc, 16, HEADER, &history, &[])?;
    let fault = Fault::OtherEpoch { epoch: 1 };
    refused(rt, alloc, own.as_slice(), fault, false, 0, 13)?;
    let own = told(alloc, 101, HEADER, &History::empty(), &[])?;
    let fault = Fault::Diverged { seal: Lsn(100) };
    refused(rt, alloc, own.as_slice(), fault, false, 0, 13)?;
    let own = told(alloc, 301, HEADER, &sealed(), &[])?;
    refused(rt, alloc, own.as_slice(), Fault::Gap, false, 0, 13)
}

#[test]
fn a_follower_is_turned_away(rt: HostRuntime) {
    let alloc = rt.alloc();
    assert!(rt; turned_away(&rt, alloc).is_some() || turned_away(&rt, alloc).is_some());
}

/// Another frame, and none. `None`: allocation failed.
fn ends_early(rt: &impl Abort, alloc: Global) -> Option<()> {
    refused(rt, alloc, b"A", Fault::BadFrame, false, 0, 0)?;
    refused(rt, alloc, b"", Fault::Cut, false, 0, 0)?;
    let mut own = told(alloc, 200, HEADER, &sealed(), &[])?;
    own.push(b'F').ok()?;
    refused(rt, alloc, own.as_slice(), Fault::BadFrame, true, 0, 130)?;
    let own = told(alloc, 200, HEADER, &sealed(), &[300])?;
    refused(rt, alloc, own.as_slice(), Fault::Cut, true, 1, 147)
}

#[test]
fn a_session_ends_early(rt: HostRuntime) {
    let alloc = rt.alloc();
    assert!(rt; ends_early(&rt, alloc).is_some() || ends_early(&rt, alloc).is_some());
}

/// A log that can't be read. `None`: allocation failed.
fn log_fails(rt: &impl Abort, alloc: Global) -> Option<()> {
    let mut log = Log::new(text(alloc, 300)?, 300, &[]);
    log.fails_from = 200;
    let mut ears = Ears::new();
    let mut written = Vec::new(alloc);
    let own = told(alloc, 200, HEADER, &sealed(), &[])?;
    let mut reader = own.as_slice();
    match send_log(alloc, &mut log, &mut ears, 4, &mut reader, &mut written) {
        Err(Fault::Memory) => return None,
        answer => assert!(rt; answer == Err(Fault::Stream)),
    }
    assert!(rt; written.len() <= 13);
    assert!(rt; ears.count == 0);
    Some(())
}

#[test]
fn a_failing_log_is_told(rt: HostRuntime) {
    let alloc = rt.alloc();
    assert!(rt; log_fails(&rt, alloc).is_some() || log_fails(&rt, alloc).is_some());
}
