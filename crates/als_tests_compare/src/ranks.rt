use crate::log::{Began, Log, text};
use als_compare::{Rank, ask_rank, read_rank, write_rank};
use als_comparing::serve_log;
use als_epochs::History;
use als_record::Lsn;
use als_ship::Fault as SessionFault;
use als_wire::Fault;
use std::alloc::Global;
use std::process::Abort;

/// A history with seals at 100 and 200.
fn history() -> Option<History> {
    History::of(&[Lsn(100), Lsn(200)])
}

/// The seal of the rank of a log that ends there.
fn seal(end: u64) -> Option<u64> {
    Some(Rank::new(&history()?, end).seal)
}

#[test]
fn the_last_seal_at_or_below_the_end_counts(rt: HostRuntime) {
    for (end, wanted) in [
        (0, 0),
        (99, 0),
        (100, 100),
        (199, 100),
        (200, 200),
        (500, 200),
    ] {
        assert!(rt; seal(end) == Some(wanted));
    }
}

#[test]
fn the_seal_counts_before_the_end(rt: HostRuntime) {
    let old = Rank {
        seal: 100,
        end: 900,
    };
    let new = Rank {
        seal: 200,
        end: 300,
    };
    let longer = Rank {
        seal: 200,
        end: 301,
    };
    assert!(rt; new.is_above(old) && !old.is_above(new));
    assert!(rt; longer.is_above(new) && !new.is_above(longer));
    assert!(rt; !new.is_above(new));
}

/// A rank to the byte, and what is read of it. `None`: allocation failed.
fn frame(rt: &impl Abort, alloc: Global) -> Option<()> {
    let rank = Rank { seal: 2, end: 259 };
    let mut bytes = Vec::new(alloc);
    write_rank(&mut bytes, rank).ok()?;
    assert!(rt; bytes.as_slice() == b"R\0\0\0\0\0\0\0\x02\0\0\0\0\0\0\x01\x03".as_slice());
    let mut reader = bytes.as_slice();
    assert!(rt; read_rank(&mut reader) == Ok(rank));
    assert!(rt; reader.is_empty());
    Some(())
}

#[test]
fn a_rank_is_written_and_read(rt: HostRuntime) {
    let alloc = rt.alloc();
    assert!(rt; frame(&rt, alloc).is_some() || frame(&rt, alloc).is_some());
}

/// What asking over these bytes answers. `None`: allocation failed.
fn asked(alloc: Global, bytes: &[u8]) -> Option<Result<Rank, Fault>> {
    let mut reader = bytes;
    let mut writer = Vec::new(alloc);
    let answer = ask_rank(&mut reader, &mut writer);
    if writer.as_slice() == b"R".as_slice() {
        Some(answer)
    } else {
        None
    }
}

/// What is no rank: another frame, none, and a part of one. `None`: allocation failed.
fn others(rt: &impl Abort, alloc: Global) -> Option<()> {
    assert!(rt; asked(alloc, b"V\0")? == Err(Fault::BadFrame));
    assert!(rt; asked(alloc, b"E\0\0\0\0")? == Err(Fault::BadFrame));
    assert!(rt; asked(alloc, b"")? == Err(Fault::Cut));
    assert!(rt; asked(alloc, b"R\0\0\0\0\0\0\0\x02\0\0")? == Err(Fault::Cut));
    Some(())
}

#[test]
fn what_is_no_rank(rt: HostRuntime) {
    let alloc = rt.alloc();
    assert!(rt; others(&rt, alloc).is_some() || others(&rt, alloc).is_some());
}

/// The rank that a source answers whose log has so many bytes, with a seal at 100. No session begins. `None`:
/// allocation failed.
fn served(rt: &impl Abort, alloc: Global, len: u32) -> Option<Rank> {
    let mut log = Log::new(text(alloc, len)?);
    let mut began = Began::new();
    let mut written = Vec::new(alloc);
    let mut reader = b"R".as_slice();
    match serve_log(alloc, &mut log, &mut began, 4, &mut reader, &mut written) {
        Err(SessionFault::Memory) | Err(SessionFault::Stream) => return None,
        served => assert!(rt; served == Ok(0)),
    }
    assert!(rt; began.from.is_none());
    assert!(rt; written.len() == 17);
    let mut answer = written.as_slice();
    read_rank(&mut answer).ok()
}

/// Ranks that sources answer. `None`: allocation failed.
fn answers(rt: &impl Abort, alloc: Global) -> Option<()> {
    assert!(rt; served(rt, alloc, 99)? == Rank { seal: 0, end: 99 });
    assert!(rt;
        served(rt, alloc, 100)?
            == Rank {
                seal: 100,
                end: 100
            }
    );
    assert!(rt;
        served(rt, alloc, 300)?
            == Rank {
                seal: 100,
                end: 300
            }
    );
    Some(())
}

#[test]
fn a_source_answers_its_own_rank(rt: HostRuntime) {
    let alloc = rt.alloc();
    assert!(rt; answers(&rt, alloc).is_some() || answers(&rt, alloc).is_some());
}
