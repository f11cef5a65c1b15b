use crate::log::{LOG, damaged};
use als_lookback::{Fault, Until, cut_log};
use als_record::{Fault as ShapeFault, Lsn};
use std::alloc::Global;
use std::process::Abort;

/// Where the log of a text is cut, and whether what was written is the front of the text up to there.
fn cut(alloc: Global, text: &[u8], until: Until) -> Result<(u64, bool), Fault> {
    let mut written = Vec::new(alloc);
    let end = cut_log(alloc, text, until, &mut written)?.0;
    let is_front = match text.get(..end as usize) {
        Some(front) => written.as_slice() == front,
        None => false,
    };
    Ok((end, is_front))
}

/// The log is cut at this LSN up to there.
fn is_cut(rt: &impl Abort, alloc: Global, text: &[u8], at: u64, end: u64) {
    assert!(rt; cut(alloc, text, Until::At(Lsn(at))) == Ok((end, true)));
}

#[test]
fn a_log_is_cut_behind_a_record(rt: HostRuntime) {
    let rows = [
        (16, 16),
        (51, 16),
        (52, 52),
        (79, 52),
        (80, 80),
        (115, 80),
        (152, 116),
        (153, 153),
    ];
    for (at, end) in rows {
        is_cut(&rt, rt.alloc(), &LOG, at, end);
    }
    assert!(rt; cut(rt.alloc(), &LOG, Until::End) == Ok((153, true)));
}

#[test]
fn an_lsn_outside_the_log_is_refused(rt: HostRuntime) {
    let past = Fault::PastEnd { end: Lsn(153) };
    assert!(rt; cut(rt.alloc(), &LOG, Until::At(Lsn(15))) == Err(Fault::InHeader));
    assert!(rt; cut(rt.alloc(), &LOG, Until::At(Lsn(154))) == Err(past));
}

#[test]
fn damage_behind_the_lsn_is_not_looked_at(rt: HostRuntime) {
    let text = damaged();
    let bad = Err(Fault::Shape(ShapeFault::BadType));
    is_cut(&rt, rt.alloc(), &text, 80, 80);
    assert!(rt; cut(rt.alloc(), &text, Until::At(Lsn(81))) == bad);
    assert!(rt; cut(rt.alloc(), &text, Until::End) == bad);
}

#[test]
fn a_torn_text_is_cut_in_front(rt: HostRuntime) {
    let (torn, _) = LOG.split_at(150);
    is_cut(&rt, rt.alloc(), torn, 116, 116);
    assert!(rt; cut(rt.alloc(), torn, Until::At(Lsn(117))) == Err(Fault::Cut));
    assert!(rt; cut(rt.alloc(), torn, Until::End) == Err(Fault::Cut));
    assert!(rt; cut(rt.alloc(), b"ALSLOG01\0\0\0", Until::End) == Err(Fault::BadHeader));
}
