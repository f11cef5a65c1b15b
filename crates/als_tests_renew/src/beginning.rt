use crate::log::{CARRIED, DECISION, DOUBTING, LOG, RENEWED};
use als_lookback::{Fault as LookFault, Until, look_back, look_over};
use als_record::{Key, TransId};
use als_renew::{Fault, begin_log};
use std::alloc::Global;
use std::process::Abort;

/// The log with its last record a prepare of transaction 2, at 116.
fn prepared(alloc: Global) -> Result<Vec<u8>, Fault> {
    let (front, _) = LOG.split_at(116);
    let mut text = Vec::new(alloc);
    text.extend_from_slice(front)?;
    text.extend_from_slice(&[0, 0, 0, 0x1c, 8, 0, 0, 0, 0, 0, 0, 0, 0, 0, 0, 0x74])?;
    text.extend_from_slice(&[0, 0, 0, 0, 0, 0, 0, 0x50, 0, 0, 0, 2])?;
    Ok(text)
}

/// Where the new generation of a text ends, and whether its text is this one.
fn begun(alloc: Global, text: &[u8], wanted: &[u8]) -> Result<(u64, bool), Fault> {
    let mut written = Vec::new(alloc);
    let end = begin_log(alloc, text, &mut written)?.0;
    Ok((end, written.as_slice() == wanted))
}

#[test]
fn what_has_committed_is_begun_with(rt: HostRuntime) {
    assert!(rt; begun(rt.alloc(), &LOG, &RENEWED) == Ok((164, true)));
}

#[test]
fn a_new_generation_begins_with_itself(rt: HostRuntime) {
    assert!(rt; begun(rt.alloc(), &RENEWED, &RENEWED) == Ok((164, true)));
}

#[test]
fn a_log_of_nothing_is_begun_as_its_header(rt: HostRuntime) {
    let (header, _) = LOG.split_at(16);
    assert!(rt; begun(rt.alloc(), header, header) == Ok((16, true)));
}

/// A number that was used and not committed is kept too: a header, and a transaction of a commit and an end.
#[test]
fn a_number_that_was_used_is_kept(rt: HostRuntime) {
    let (open, _) = LOG.split_at(52);
    assert!(rt; begun(rt.alloc(), open, &[]) == Ok((72, false)));
}

/// The log with the last TransID that there is in place of transaction 2's.
fn spent(alloc: Global) -> Result<Vec<u8>, Fault> {
    let mut text = Vec::new(alloc);
    for (place, byte) in LOG.iter().enumerate() {
        let is_of_trans = (104..108).contains(&place) || (140..144).contains(&place);
        let bytes = [if is_of_trans { 0xff } else { *byte }];
        text.extend_from_slice(&bytes)?;
    }
    Ok(text)
}

/// Where the last TransID is used, nothing keeps a number: the new generation ends behind the last page.
#[test]
fn numbers_begin_anew_behind_the_last_one(rt: HostRuntime) {
    let (anew, _) = RENEWED.split_at(108);
    match spent(rt.alloc()) {
        Ok(text) => {
            assert!(rt; begun(rt.alloc(), &text, anew) == Ok((108, true)));
        }
        Err(_) => unreached(&rt),
    }
}

/// Each write has what the key then has as its before image, and the number is kept.
#[test]
fn a_transaction_in_doubt_prepares_once_more(rt: HostRuntime) {
    assert!(rt; begun(rt.alloc(), &DOUBTING, &CARRIED) == Ok((209, true)));
    assert!(rt; begun(rt.alloc(), &CARRIED, &CARRIED) == Ok((209, true)));
}

/// How many commits a text has with this behind it, and the first byte of the values of 0/0 and 0/1.
fn decided(alloc: Global, text: &[u8], more: &[u8]) -> Result<(u64, [u8; 2]), Fault> {
    let mut whole = Vec::new(alloc);
    whole.extend_from_slice(text)?;
    whole.extend_from_slice(more)?;
    let seen = look_back(alloc, whole.as_slice(), Until::End)?;
    let mut bytes = [0; 2];
    for slot in 0..2 {
        if let Some(value) = seen.value(Key { page: 0, slot }) {
            bytes[slot as usize] = value.first().copied().unwrap_or(0);
        }
    }
    Ok((seen.commits(), bytes))
}

/// A decision in the new log commits what was prepared in the old one.
#[test]
fn a_decision_commits_what_was_prepared(rt: HostRuntime) {
    assert!(rt; decided(rt.alloc(), &CARRIED, &[]) == Ok((1, [0xaa, 0])));
    assert!(rt; decided(rt.alloc(), &CARRIED, &DECISION) == Ok((2, [0xcc, 0xbb])));
}

/// A number that is not above the page count is that of a page's transaction.
#[test]
fn a_doubt_of_a_pages_number_is_refused(rt: HostRuntime) {
    let doubt = Fault::InDoubt { trans: TransId(2) };
    match prepared(rt.alloc()) {
        Ok(text) => {
            assert!(rt; begun(rt.alloc(), &text, &[]) == Err(doubt));
        }
        Err(_) => unreached(&rt),
    }
}

#[test]
fn a_torn_text_is_refused(rt: HostRuntime) {
    let (torn, _) = LOG.split_at(150);
    assert!(rt; begun(rt.alloc(), torn, &[]) == Err(Fault::Look(LookFault::Cut)));
}

/// Memory was there.
fn unreached(rt: &impl Abort) {
    assert!(rt; false);
}

/// The end, the greatest TransID and the number of open transactions of a log.
fn standing(alloc: Global, text: &[u8]) -> Result<(u64, u32, usize), LookFault> {
    let (seen, standing) = look_over(alloc, text, Until::End)?;
    drop(seen);
    Ok((standing.end.0, standing.greatest.0, standing.rows.len()))
}

#[test]
fn a_new_generation_leaves_nothing_open(rt: HostRuntime) {
    assert!(rt; standing(rt.alloc(), &LOG) == Ok((153, 2, 2)));
    assert!(rt; standing(rt.alloc(), &RENEWED) == Ok((164, 2, 0)));
}
