use als_record::{
    Body, BodyView, Fault, Key, LogHeader, LoggedPage, Lsn, Record, TransId, decode, encode,
    encoded_len, view_record,
};
use std::alloc::Global;
use std::process::Abort;
use std::test::Fail;

// A log of a database of four pages: its header, and then one transaction that writes the value aa
// at 0/0.
const HEADER: [u8; 16] = *b"ALSLOG01\x00\x00\x00\x04\x00\x00\x00\x00";

const UPDATE: [u8; 36] = [
    0x00, 0x00, 0x00, 0x24, 0x01, 0x00, 0x00, 0x00, 0x00, 0x00, 0x00, 0x00, 0x00, 0x00, 0x00, 0x10,
    0x00, 0x00, 0x00, 0x00, 0x00, 0x00, 0x00, 0x00, 0x00, 0x00, 0x00, 0x01, 0x00, 0x00, 0x00, 0x00,
    0x00, 0xff, 0x01, 0xaa,
];

const COMMIT: [u8; 28] = [
    0x00, 0x00, 0x00, 0x1c, 0x03, 0x00, 0x00, 0x00, 0x00, 0x00, 0x00, 0x00, 0x00, 0x00, 0x00, 0x34,
    0x00, 0x00, 0x00, 0x00, 0x00, 0x00, 0x00, 0x10, 0x00, 0x00, 0x00, 0x01,
];

const END: [u8; 28] = [
    0x00, 0x00, 0x00, 0x1c, 0x05, 0x00, 0x00, 0x00, 0x00, 0x00, 0x00, 0x00, 0x00, 0x00, 0x00, 0x50,
    0x00, 0x00, 0x00, 0x00, 0x00, 0x00, 0x00, 0x34, 0x00, 0x00, 0x00, 0x01,
];

// A prepare at 52 of transaction 1.
const PREPARE: [u8; 28] = [
    0x00, 0x00, 0x00, 0x1c, 0x08, 0x00, 0x00, 0x00, 0x00, 0x00, 0x00, 0x00, 0x00, 0x00, 0x00, 0x34,
    0x00, 0x00, 0x00, 0x00, 0x00, 0x00, 0x00, 0x10, 0x00, 0x00, 0x00, 0x01,
];

// A compensation at 181 of transaction 2, which goes on at 80 and gives 0/0 the value aa.
const COMPENSATION: [u8; 43] = [
    0x00, 0x00, 0x00, 0x2b, 0x02, 0x00, 0x00, 0x00, 0x00, 0x00, 0x00, 0x00, 0x00, 0x00, 0x00, 0xb5,
    0x00, 0x00, 0x00, 0x00, 0x00, 0x00, 0x00, 0x74, 0x00, 0x00, 0x00, 0x02, 0x00, 0x00, 0x00, 0x00,
    0x00, 0x00, 0x00, 0x50, 0x00, 0x00, 0x00, 0x00, 0x00, 0x01, 0xaa,
];

// An end_chkpt at 16 with one row of each table.
const CHECKPOINT: [u8; 65] = [
    0x00, 0x00, 0x00, 0x41, 0x07, 0x00, 0x00, 0x00, 0x00, 0x00, 0x00, 0x00, 0x00, 0x00, 0x00, 0x10,
    0x00, 0x00, 0x00, 0x00, 0x00, 0x00, 0x00, 0x00, 0x00, 0x00, 0x00, 0x00, 0x00, 0x01, 0x00, 0x01,
    0x00, 0x00, 0x00, 0x09, 0x02, 0x00, 0x00, 0x00, 0x00, 0x00, 0x00, 0x01, 0x00, 0x00, 0x00, 0x00,
    0x00, 0x00, 0x00, 0x01, 0x01, 0x00, 0x00, 0x00, 0x03, 0x00, 0x00, 0x00, 0x00, 0x00, 0x00, 0x02,
    0x02,
];

// The bytes are one record at `at`, of which they are the spelling. A refused growth changes
// nothing.
fn spelled(rt: &impl Abort, alloc: Global, bytes: &[u8], at: u64) -> Result<Record, Fail> {
    let first = match decode(alloc, bytes, Lsn(at), 4) {
        Err(Fault::Memory) => decode(alloc, bytes, Lsn(at), 4)?,
        other => other?,
    };
    let (found, len) = first.ok_or("a record is there")?;
    assert!(rt; len == bytes.len());
    is_spelled(rt, alloc, &found, bytes)?;
    let copy = match found.view().to_record(alloc) {
        Err(_) => found.view().to_record(alloc)?,
        Ok(copy) => copy,
    };
    is_spelled(rt, alloc, &copy, bytes)?;
    Ok(found)
}

// These bytes are the record's spelling.
fn is_spelled(rt: &impl Abort, alloc: Global, found: &Record, bytes: &[u8]) -> Result<(), Fail> {
    assert!(rt; encoded_len(found) == bytes.len());
    let mut out = Vec::new(alloc);
    if encode(found, &mut out).is_err() {
        assert!(rt; out.is_empty());
        encode(found, &mut out)?;
    }
    assert!(rt; out.as_slice() == bytes);
    Ok(())
}

// Decode refuses the update with other bytes at two places.
fn expect_fault<R: Abort + AllocGlobal>(rt: &R, changes: [(usize, u8); 2], fault: Fault) {
    let mut bytes = UPDATE;
    for (place, value) in changes {
        if let Some(byte) = bytes.get_mut(place) {
            *byte = value;
        }
    }
    assert!(rt; decode(rt.alloc(), &bytes, Lsn(16), 4).err() == Some(fault));
}

#[test]
fn a_view_shows_the_bytes(rt: HostRuntime) -> Result<(), Fail> {
    let (view, len) = view_record(&UPDATE, Lsn(16), 4)?.ok_or("a record is there")?;
    assert!(rt; len == UPDATE.len());
    assert!(rt; view.trans == TransId(1));
    match view.body {
        BodyView::Update { key, before, after } => {
            assert!(rt; key == Key { page: 0, slot: 0 });
            assert!(rt; before.bytes.is_none());
            assert!(rt; after.bytes == Some(&[0xaa]));
            assert!(rt; !before.is_same(&after) && after.is_same(&after));
        }
        _ => panic!(rt; "an update is there"),
    }
    Ok(())
}

#[test]
fn what_is_no_record_has_no_view(rt: HostRuntime) -> Result<(), Fail> {
    assert!(rt; view_record(&UPDATE[..35], Lsn(16), 4)?.is_none());
    assert!(rt; view_record(&CHECKPOINT, Lsn(16), 4)?.is_some());
    assert!(rt; view_record(&UPDATE, Lsn(17), 4).err() == Some(Fault::WrongLsn));
    Ok(())
}

#[test]
fn header_line(rt: HostRuntime) -> Result<(), Fail> {
    let header = LogHeader::decode(&HEADER)?.ok_or("a header is there")?;
    assert!(rt; header == LogHeader { pages: 4 });
    assert!(rt; header.encode() == HEADER);
    assert!(rt; LogHeader::decode(&HEADER[..15])? == None);
    assert!(rt; LogHeader::decode(&UPDATE) == Err(Fault::BadHeader));
    Ok(())
}

#[test]
fn text_of_one_transaction(rt: HostRuntime) -> Result<(), Fail> {
    let update = spelled(&rt, rt.alloc(), &UPDATE, 16)?;
    let change = update.change().ok_or("an update changes its key")?;
    assert!(rt; change.lsn == Lsn(16));
    assert!(rt; change.key == Key { page: 0, slot: 0 });
    let value = change.after.image().ok_or("it writes a value")?;
    assert!(rt; value.as_slice() == [0xaa].as_slice());
    let commit = spelled(&rt, rt.alloc(), &COMMIT, 52)?;
    assert!(rt; commit.prev == Lsn(16));
    assert!(rt; matches!(commit.body, Body::Commit));
    assert!(rt; commit.change().is_none());
    let end = spelled(&rt, rt.alloc(), &END, 80)?;
    assert!(rt; end.trans == TransId(1));
    assert!(rt; matches!(end.body, Body::End));
    Ok(())
}

#[test]
fn prepare_is_shaped_as_a_commit(rt: HostRuntime) -> Result<(), Fail> {
    let prepare = spelled(&rt, rt.alloc(), &PREPARE, 52)?;
    assert!(rt; prepare.prev == Lsn(16));
    assert!(rt; matches!(prepare.body, Body::Prepare));
    assert!(rt; prepare.change().is_none());
    Ok(())
}

#[test]
fn compensation_and_checkpoint(rt: HostRuntime) -> Result<(), Fail> {
    let undone = spelled(&rt, rt.alloc(), &COMPENSATION, 181)?;
    assert!(rt; undone.change().is_some());
    let Body::Compensation { undo_next, .. } = undone.body else {
        return Err("a compensation".into());
    };
    assert!(rt; undo_next == Lsn(80));
    let ended = spelled(&rt, rt.alloc(), &CHECKPOINT, 16)?;
    let Body::EndCheckpoint { pages, .. } = &ended.body else {
        return Err("an end of a checkpoint".into());
    };
    assert!(rt;
        pages.as_slice()
            == [LoggedPage {
                page: 3,
                rec_lsn: Lsn(0x202)
            }]
            .as_slice()
    );
    Ok(())
}

#[test]
fn faults_in_order(rt: HostRuntime) -> Result<(), Fail> {
    let alloc = rt.alloc();
    // each alone, and beside one that comes later
    expect_fault(&rt, [(3, 34), (4, 1)], Fault::BadLength);
    expect_fault(&rt, [(4, 9), (5, 1)], Fault::BadType);
    expect_fault(&rt, [(7, 1), (15, 17)], Fault::BadReserved);
    expect_fault(&rt, [(15, 17), (32, 15)], Fault::WrongLsn);
    expect_fault(&rt, [(31, 4), (33, 32)], Fault::BadKey);
    expect_fault(&rt, [(32, 15), (33, 32)], Fault::BadKey);
    expect_fault(&rt, [(33, 254), (34, 0)], Fault::BadValue);
    expect_fault(&rt, [(34, 0), (35, 0)], Fault::BadLength);
    // a record of which bytes are missing waits for them
    assert!(rt; decode(alloc, &UPDATE[..27], Lsn(17), 4)?.is_none());
    assert!(rt; decode(alloc, &UPDATE[..35], Lsn(16), 0)?.is_none());
    // a checkpoint whose counts are not those of its length
    let mut counted = CHECKPOINT;
    counted[31] = 2;
    assert!(rt; decode(alloc, &counted, Lsn(16), 4).err() == Some(Fault::BadLength));
    Ok(())
}
