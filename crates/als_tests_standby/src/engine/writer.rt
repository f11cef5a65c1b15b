// What a writer of transactions of its own asks.
use super::*;
use als_engine::Writes;
use als_record::{Key, encode};

/// A committed transaction that has not ended, and an open one: an update of 0/0 to `aa` at 16 and
/// its commit at 52; then updates of 0/1 to `bb` at 80 and of 0/0 to `cc` at 116.
fn open_text() -> [u8; 137] {
    [
        0, 0, 0, 36, 1, 0, 0, 0, 0, 0, 0, 0, 0, 0, 0, 16, 0, 0, 0, 0, 0, 0, 0, 0, 0, 0, 0, 1, 0, 0,
        0, 0, 0, 255, 1, 170, 0, 0, 0, 28, 3, 0, 0, 0, 0, 0, 0, 0, 0, 0, 0, 52, 0, 0, 0, 0, 0, 0,
        0, 16, 0, 0, 0, 1, 0, 0, 0, 36, 1, 0, 0, 0, 0, 0, 0, 0, 0, 0, 0, 80, 0, 0, 0, 0, 0, 0, 0,
        0, 0, 0, 0, 2, 0, 0, 0, 0, 1, 255, 1, 187, 0, 0, 0, 37, 1, 0, 0, 0, 0, 0, 0, 0, 0, 0, 0,
        116, 0, 0, 0, 0, 0, 0, 0, 80, 0, 0, 0, 2, 0, 0, 0, 0, 0, 1, 1, 170, 204,
    ]
}

/// Four unended transactions. The first rolls back: updates of 0/0 to `aa` and of 0/1 to `bb`, its
/// rollback, and the compensation of the second update. The second is in doubt: an update of 0/2 to
/// `dd` and its prepare. The third has committed an update of 0/3 to `ee`. The fourth has an update
/// of 0/4 to `ff` at 286.
fn four_open() -> [u8; 306] {
    [
        0, 0, 0, 36, 1, 0, 0, 0, 0, 0, 0, 0, 0, 0, 0, 16, 0, 0, 0, 0, 0, 0, 0, 0, 0, 0, 0, 1, 0, 0,
        0, 0, 0, 255, 1, 170, 0, 0, 0, 36, 1, 0, 0, 0, 0, 0, 0, 0, 0, 0, 0, 52, 0, 0, 0, 0, 0, 0,
        0, 16, 0, 0, 0, 1, 0, 0, 0, 0, 1, 255, 1, 187, 0, 0, 0, 28, 4, 0, 0, 0, 0, 0, 0, 0, 0, 0,
        0, 88, 0, 0, 0, 0, 0, 0, 0, 52, 0, 0, 0, 1, 0, 0, 0, 42, 2, 0, 0, 0, 0, 0, 0, 0, 0, 0, 0,
        116, 0, 0, 0, 0, 0, 0, 0, 88, 0, 0, 0, 1, 0, 0, 0, 0, 0, 0, 0, 16, 0, 0, 0, 0, 1, 255, 0,
        0, 0, 36, 1, 0, 0, 0, 0, 0, 0, 0, 0, 0, 0, 158, 0, 0, 0, 0, 0, 0, 0, 0, 0, 0, 0, 2, 0, 0,
        0, 0, 2, 255, 1, 221, 0, 0, 0, 28, 8, 0, 0, 0, 0, 0, 0, 0, 0, 0, 0, 194, 0, 0, 0, 0, 0, 0,
        0, 158, 0, 0, 0, 2, 0, 0, 0, 36, 1, 0, 0, 0, 0, 0, 0, 0, 0, 0, 0, 222, 0, 0, 0, 0, 0, 0, 0,
        0, 0, 0, 0, 3, 0, 0, 0, 0, 3, 255, 1, 238, 0, 0, 0, 28, 3, 0, 0, 0, 0, 0, 0, 0, 0, 0, 1, 2,
        0, 0, 0, 0, 0, 0, 0, 222, 0, 0, 0, 3, 0, 0, 0, 36, 1, 0, 0, 0, 0, 0, 0, 0, 0, 0, 1, 30, 0,
        0, 0, 0, 0, 0, 0, 0, 0, 0, 0, 4, 0, 0, 0, 0, 4, 255, 1, 255,
    ]
}

/// What a key of page 0 has now, and the transaction that holds it. A value of one byte is that
/// byte, and an absent one is 0, as is the holder of a key that nobody holds.
fn told<E: Writes>(engine: &E, slot: u8) -> Result<(u8, u32), Fault> {
    let told = engine.key_now(Key { page: 0, slot })?;
    let value = match told.image.shown().bytes {
        Some(&[value]) => value,
        Some(_) => 1,
        None => 0,
    };
    match told.holder {
        Some(trans) => Ok((value, trans.0)),
        None => Ok((value, 0)),
    }
}

/// Keys of page 0, by their slots, have these values and holders.
fn expect_keys<E: Writes>(rt: &impl Abort, engine: &E, wanted: &[(u8, u8, u32)]) {
    for (slot, value, holder) in wanted {
        assert!(rt; told(engine, *slot) == Ok((*value, *holder)));
    }
}

/// The numbers of the log: the greatest TransID, the unended transactions, the free bytes of its
/// device, and its last commit.
fn expect_numbers<E: Writes>(rt: &impl Abort, engine: &E, wanted: (u32, usize, u64, u64)) {
    let told = engine.writing();
    assert!(rt; told.greatest.0 == wanted.0);
    assert!(rt; told.unended == wanted.1);
    assert!(rt; told.free == wanted.2);
    assert!(rt; told.last_commit.0 == wanted.3);
}

/// Feeds what is owed, a record at a time, until nothing is. They are records of these transactions,
/// and with each the free bytes stay the same. None: allocation failed.
fn tidies<E: Writes>(rt: &impl Abort, alloc: Global, engine: &mut E, wanted: &[u32]) -> Option<()> {
    let free = engine.writing().free;
    for trans in wanted {
        let Ok(Some(next)) = engine.next_of_tail() else {
            panic!(rt; "nothing is owed");
        };
        assert!(rt; next.trans.0 == *trans);
        let mut bytes = Vec::new(alloc);
        encode(&next, &mut bytes).ok()?;
        engine.feed(bytes.as_slice()).ok()?;
        assert!(rt; engine.writing().free == free);
    }
    assert!(rt; matches!(engine.next_of_tail(), Ok(None)));
    Some(())
}

/// A standby in memory of which the log's device has so many blocks. None: allocation failed.
fn writer<R: Wait>(rt: &R, alloc: Global, blocks: u64) -> Option<Engine<MemDisk>> {
    let disks = Disks {
        log: MemDisk::new(alloc, blocks),
        control: MemDisk::new(alloc, 321),
        pages: MemDisk::new(alloc, 4),
    };
    let (engine, _) = Engine::format(alloc, rt, disks, CONFIG).ok()?;
    Some(engine)
}

/// Acknowledges the whole log, and seals it. None: a call was refused.
fn seals(engine: &mut Engine<MemDisk>) -> Option<()> {
    engine.log_write().ok()?;
    engine.log_sync().ok()?;
    engine.mark_write().ok()?;
    engine.ctl_sync().ok()?;
    engine.seal().ok()
}

/// A log with nothing open: nothing is owed, and nobody holds a key. While bytes are refused its keys
/// are too. Once it is sealed only its numbers are answered. None: allocation failed.
fn asks_of_ended<R: Wait + Abort>(rt: &R, alloc: Global) -> Option<()> {
    let mut engine = writer(rt, alloc, 8)?;
    expect_numbers(rt, &engine, (0, 0, 4080, 0));
    engine.feed(&text()).ok()?;
    expect_numbers(rt, &engine, (1, 0, 3988, 52));
    expect_keys(rt, &engine, &[(0, 0xaa, 0), (1, 0, 0)]);
    assert!(rt; told(&engine, 15) == Err(Fault::BadKey));
    tidies(rt, alloc, &mut engine, &[])?;
    match engine.feed(&[0; 28]) {
        Ok(_) => panic!(rt; "bytes that are no record were taken"),
        Err(refusal) if refusal.fault == Fault::Memory => return None,
        Err(refusal) => assert!(rt; refusal.fault == Fault::BadLength),
    }
    assert!(rt; told(&engine, 0) == Err(Fault::BadLength));
    assert!(rt; matches!(engine.next_of_tail(), Ok(None)));
    engine.resync().ok()?;
    seals(&mut engine)?;
    assert!(rt; told(&engine, 0) == Err(Fault::Sealed));
    assert!(rt; matches!(engine.next_of_tail(), Err(Fault::Sealed)));
    expect_numbers(rt, &engine, (1, 0, 3988, 52));
    drop(engine.into_disks(rt));
    Some(())
}

#[test]
fn a_log_with_nothing_open_owes_nothing(rt: HostRuntime) {
    let alloc = rt.alloc();
    assert!(rt; asks_of_ended(&rt, alloc).is_some() || asks_of_ended(&rt, alloc).is_some());
}

/// A transaction that has committed ends, and an open one is undone and ends. None: allocation
/// failed.
fn ends_open<R: Wait + Abort>(rt: &R, alloc: Global) -> Option<()> {
    let mut engine = writer(rt, alloc, 8)?;
    engine.feed(&open_text()).ok()?;
    expect_numbers(rt, &engine, (2, 2, 3802, 52));
    expect_keys(rt, &engine, &[(0, 0xcc, 2), (1, 0xbb, 2), (2, 0, 0)]);
    tidies(rt, alloc, &mut engine, &[1, 2, 2, 2])?;
    expect_numbers(rt, &engine, (2, 0, 3802, 52));
    expect_keys(rt, &engine, &[(0, 0xaa, 0), (1, 0, 0), (2, 0, 0)]);
    assert!(rt; engine.status().end == Lsn(294));
    drop(engine.into_disks(rt));
    Some(())
}

#[test]
fn what_is_owed_ends_an_open_transaction(rt: HostRuntime) {
    let alloc = rt.alloc();
    assert!(rt; ends_open(&rt, alloc).is_some() || ends_open(&rt, alloc).is_some());
}

/// Of four transactions the one in doubt alone stays, and holds its key. None: allocation failed.
fn ends_three<R: Wait + Abort>(rt: &R, alloc: Global) -> Option<()> {
    let mut engine = writer(rt, alloc, 8)?;
    engine.feed(&four_open()).ok()?;
    expect_numbers(rt, &engine, (4, 4, 3508, 258));
    expect_keys(
        rt,
        &engine,
        &[
            (0, 0xaa, 1),
            (1, 0, 0),
            (2, 0xdd, 2),
            (3, 0xee, 0),
            (4, 0xff, 4),
        ],
    );
    tidies(rt, alloc, &mut engine, &[3, 4, 4, 1, 1])?;
    expect_numbers(rt, &engine, (4, 1, 3508, 258));
    expect_keys(
        rt,
        &engine,
        &[(0, 0, 0), (1, 0, 0), (2, 0xdd, 2), (3, 0xee, 0), (4, 0, 0)],
    );
    assert!(rt; engine.status().end == Lsn(490));
    drop(engine.into_disks(rt));
    Some(())
}

#[test]
fn what_is_owed_leaves_one_in_doubt_alone(rt: HostRuntime) {
    let alloc = rt.alloc();
    assert!(rt; ends_three(&rt, alloc).is_some() || ends_three(&rt, alloc).is_some());
}

/// Bytes that are too long by one are refused, and those that take what is free are held: with what
/// is owed the log then ends where its device does. None: allocation failed.
fn fills<E: Writes>(rt: &impl Abort, alloc: Global, engine: &mut E) -> Option<()> {
    let exact = six_short();
    let long = six_long();
    engine.feed(exact.get(..180)?).ok()?;
    expect_numbers(rt, engine, (1, 1, 78, 0));
    match engine.feed(long.get(180..)?) {
        Ok(_) => panic!(rt; "more than what is free was taken"),
        Err(refusal) if refusal.fault == Fault::Memory => return None,
        Err(refusal) => assert!(rt; refusal.fault == Fault::LogFull),
    }
    // Want of room is not kept: what fits is taken.
    expect_numbers(rt, engine, (1, 1, 78, 0));
    expect_keys(rt, engine, &[(0, 160, 1), (1, 161, 1)]);
    engine.feed(exact.get(180..)?).ok()?;
    expect_numbers(rt, engine, (1, 1, 0, 0));
    tidies(rt, alloc, engine, &[1, 1, 1, 1, 1, 1, 1])?;
    expect_numbers(rt, engine, (1, 0, 0, 0));
    Some(())
}

/// A log device of one block is full to its last byte. None: allocation failed.
fn fills_a_block<R: Wait + Abort>(rt: &R, alloc: Global) -> Option<()> {
    let mut engine = writer(rt, alloc, 1)?;
    let filled = fills(rt, alloc, &mut engine);
    let end = engine.status().end;
    drop(engine.into_disks(rt));
    filled?;
    assert!(rt; end == Lsn(512));
    Some(())
}

#[test]
fn what_is_free_is_the_room_to_the_byte(rt: HostRuntime) {
    let alloc = rt.alloc();
    assert!(rt; fills_a_block(&rt, alloc).is_some() || fills_a_block(&rt, alloc).is_some());
}
