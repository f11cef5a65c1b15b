use crate::log::{LOG, damaged};
use als_backup::{Fault, compare, copy_session, recall};
use als_epochs::History;
use als_lookback::Fault as LookFault;
use als_operate::Fault as NodeFault;
use als_record::{Fault as ShapeFault, Lsn};
use als_ship::Fault as SessionFault;
use als_wire::{write_acknowledged, write_data, write_epochs};
use std::alloc::Global;
use std::process::Abort;

/// What a source sends whose log this is, behind an offset, under this history: a frame of the byte before
/// it, and then frames of 40 bytes.
fn sent(alloc: Global, log: &[u8], from: usize, history: &History) -> Result<Vec<u8>, Fault> {
    let mut bytes = Vec::new(alloc);
    write_epochs(&mut bytes, history)?;
    let before = from.saturating_sub(1);
    put(
        &mut bytes,
        history.epoch(),
        before,
        log.get(before..from).unwrap_or(&[]),
    )?;
    let mut at = from;
    for piece in log.get(from..).unwrap_or(&[]).chunks(40) {
        put(&mut bytes, history.epoch(), at, piece)?;
        at = at.saturating_add(piece.len());
    }
    Ok(bytes)
}

/// Writes a frame of these bytes.
fn put(bytes: &mut Vec<u8>, epoch: u32, at: usize, piece: &[u8]) -> Result<(), Fault> {
    if piece.len() > 65_536 {
        return Err(Fault::NotEmpty);
    }
    write_data(bytes, epoch, at as u64, piece)?;
    Ok(())
}

/// What is written behind so many bytes of the log, up to an end, where the source says this of them, and
/// sends this.
fn written(
    alloc: Global,
    held: usize,
    verdict: &[u8],
    session: &[u8],
    end: u64,
) -> Result<Vec<u8>, Fault> {
    let mut held = LOG.get(..held).unwrap_or(&[]);
    let mut text = recall(alloc, &mut held)?;
    let mut asked = Vec::new(alloc);
    let mut verdict = verdict;
    let compared = compare(&text, 0, &mut verdict, &mut asked)?;
    if end < text.position() {
        return Err(Fault::from(SessionFault::Gap));
    }
    let (mut session, mut told, mut output) = (session, Vec::new(alloc), Vec::new(alloc));
    let theirs = History::empty();
    copy_session(
        alloc,
        compared,
        &mut text,
        &theirs,
        end,
        &mut session,
        &mut told,
        &mut output,
    )?;
    let mut nothing = Vec::new(alloc);
    write_acknowledged(&mut nothing, Lsn(16))?;
    if !output.is_empty() && !told.as_slice().ends_with(nothing.as_slice()) {
        return Err(Fault::NotEmpty);
    }
    Ok(output)
}

/// A source with the log of LOG, that was taken over at 16 and has this text, is backed up behind so many
/// bytes, up to an end.
fn backed_up(alloc: Global, log: &[u8], held: usize, end: u64) -> Result<Vec<u8>, Fault> {
    let history = History::of(&[Lsn(16)]).unwrap_or(History::empty());
    let session = sent(alloc, log, held, &history)?;
    written(alloc, held, b"V\0", session.as_slice(), end)
}

/// What is written is the log from there up to the end.
fn is_backed_up(rt: &impl Abort, alloc: Global, held: usize, end: usize) {
    let found = backed_up(alloc, &LOG, held, end as u64);
    assert!(rt; found.is_ok_and(|it| Some(it.as_slice()) == LOG.get(held..end)));
}

#[test]
fn a_log_is_copied_up_to_an_end(rt: HostRuntime) {
    // From a header, from the end of a record and from within one, up to the end and to one before it.
    let rows = [
        (16, 153),
        (16, 116),
        (80, 153),
        (100, 116),
        (153, 153),
        (16, 16),
    ];
    for (held, end) in rows {
        is_backed_up(&rt, rt.alloc(), held, end);
    }
}

#[test]
fn an_end_within_a_record_is_none(rt: HostRuntime) {
    let cut = Fault::Look(LookFault::Cut);
    assert!(rt; backed_up(rt.alloc(), &LOG, 16, 117).is_err_and(|fault| fault == cut));
}

#[test]
fn a_damaged_record_is_refused(rt: HostRuntime) {
    let bad = Fault::Look(LookFault::Shape(ShapeFault::BadType));
    assert!(rt; backed_up(rt.alloc(), &damaged(), 80, 153).is_err_and(|fault| fault == bad));
}

#[test]
fn another_log_is_not_gone_on_with(rt: HostRuntime) {
    let other = Fault::Node(NodeFault::OtherLog);
    let found = written(rt.alloc(), 80, b"V\x01", &[], 153);
    assert!(rt; found.is_err_and(|fault| fault == other));
    let gap = Fault::Node(NodeFault::Session(SessionFault::Gap));
    assert!(rt; written(rt.alloc(), 80, b"V\x02", &[], 153).is_err_and(|fault| fault == gap));
}

#[test]
fn a_gap_is_refused(rt: HostRuntime) {
    let session = sent(rt.alloc(), &LOG, 80, &History::empty());
    let gap = Fault::Node(NodeFault::Session(SessionFault::Gap));
    if let Ok(session) = session {
        let found = written(rt.alloc(), 52, b"V\0", session.as_slice(), 153);
        assert!(rt; found.is_err_and(|fault| fault == gap));
    }
}
