use crate::common::{CONFIG, SENT, TEXT, TOLD, devices_in_memory, listen, source};
use als_disk::MemDisk;
use als_engine::{Engine, Events, Fault as EngineFault};
use als_epochs::History;
use als_record::{LogHeader, Lsn};
use als_ship::{Fault, Follower, Frame, LogBytes, Shipper, Source, acknowledged_log, force};
use bytes::Bytes;
use std::alloc::Global;
use std::net::{Net, SocketAddr, TcpListener, TcpStream};
use std::process::Abort;
use std::sync::Wait;
use std::test::Fail;
use std::thread;

const HEADER: LogHeader = LogHeader { pages: 4 };

// A standby of four pages with nothing in it. `None`: allocation failed.
fn standby<R: Wait>(rt: &R, alloc: Global) -> Option<Engine<MemDisk>> {
    let (engine, _) = Engine::format(alloc, rt, devices_in_memory(alloc), CONFIG).ok()?;
    Some(engine)
}

// The bytes of the log from one offset to another, as a frame. `None`: allocation failed.
fn data(alloc: Global, from: usize, to: usize) -> Option<Frame> {
    let bytes = Bytes::copy_from_slice(alloc, TEXT.get(from..to)?).ok()?;
    Some(Frame::Data {
        epoch: 0,
        offset: from as u64,
        bytes,
    })
}

// Frames in some order, some of them again and some that overlap: the position after each, and then
// a gap. `None`: allocation failed.
fn takes_frames<R: Wait + Abort>(rt: &R, alloc: Global) -> Option<()> {
    let mut engine = standby(rt, alloc)?;
    let follower = Follower::new(HEADER);
    let rows = [(16, 40, 40), (16, 40, 40), (40, 70, 70), (16, 108, 108)];
    for (from, to, wanted) in rows {
        let position = follower.frame(&mut engine, data(alloc, from, to)?).ok()?;
        assert!(rt; position == Lsn(wanted));
    }
    let other = Frame::Data {
        epoch: 1,
        offset: 110,
        bytes: Bytes::from_static(b"abcde"),
    };
    assert!(rt; follower.frame(&mut engine, other) == Err(Fault::OtherEpoch { epoch: 1 }));
    let gap = Frame::Data {
        epoch: 0,
        offset: 110,
        bytes: Bytes::from_static(b"abcde"),
    };
    assert!(rt; follower.frame(&mut engine, gap) == Err(Fault::Gap));
    assert!(rt; engine.status().end == Lsn(108));
    Some(())
}

#[test]
fn frames_come_again_and_overlap(rt: HostRuntime) {
    let alloc = rt.alloc();
    // A refused growth is met once at most.
    assert!(rt; takes_frames(&rt, alloc).is_some() || takes_frames(&rt, alloc).is_some());
}

// A session over memory, byte for byte: what a shipper writes to a follower's bytes. `None`: memory
// was refused.
fn ships(rt: &impl Abort, alloc: Global) -> Option<Vec<u8>> {
    let mut source = source(alloc)?;
    let mut sent = Vec::new(alloc);
    let mut shipper = Shipper::new();
    let mut reader = TOLD.as_slice();
    let count = shipper
        .serve(alloc, &mut source, &mut reader, &mut sent)
        .ok()?;
    assert!(rt; count == 92);
    assert!(rt; shipper.has_begun());
    assert!(rt; shipper.acknowledged() == Some(Lsn(108)));
    assert!(rt; sent.len() == 131);
    assert!(rt; sent.as_slice() == SENT.as_slice());
    Some(sent)
}

// What a follower writes in that session. `None`: allocation failed.
fn follows<R: Wait + Abort>(rt: &R, alloc: Global) -> Option<()> {
    let mut engine = standby(rt, alloc)?;
    let mut told = Vec::new(alloc);
    let mut reader = SENT.as_slice();
    let follower = Follower::new(HEADER);
    follower
        .follow(alloc, &mut engine, &mut reader, &mut told)
        .ok()?;
    assert!(rt; told.as_slice() == TOLD.as_slice());
    let status = engine.status();
    assert!(rt; status.end == Lsn(108));
    assert!(rt; status.acknowledged == Lsn(108));
    Some(())
}

#[test]
fn a_session_over_memory(rt: HostRuntime) {
    let alloc = rt.alloc();
    assert!(rt; ships(&rt, alloc).is_some() || ships(&rt, alloc).is_some());
    assert!(rt; follows(&rt, alloc).is_some() || follows(&rt, alloc).is_some());
}

// What a follower that holds the log answers to a stream, which leaves its position and its history
// as they were. `None`: allocation failed.
fn meets<R: Wait + Abort>(rt: &R, alloc: Global, stream: &[u8], wanted: Fault) -> Option<()> {
    let mut engine = standby(rt, alloc)?;
    let follower = Follower::new(HEADER);
    follower.frame(&mut engine, data(alloc, 16, 108)?).ok()?;
    let mut told = Vec::new(alloc);
    let mut reader = stream;
    match follower.follow(alloc, &mut engine, &mut reader, &mut told) {
        Err(Fault::Memory) => return None,
        Err(Fault::Refused(EngineFault::Memory)) => return None,
        Err(Fault::Refused(EngineFault::Device)) => return None,
        Err(Fault::Stream) => return None,
        answer => assert!(rt; answer == Err(wanted)),
    }
    let status = engine.status();
    assert!(rt; status.end == Lsn(108));
    assert!(rt; status.partial == 0);
    assert!(rt; engine.history().epoch() == 0);
    Some(())
}

// The same of each of these streams.
fn meets_all<R: Wait + Abort>(rt: &R, alloc: Global, rows: &[(&[u8], Fault)]) {
    for (stream, fault) in rows {
        assert!(rt;
            meets(rt, alloc, stream, *fault).is_some() || meets(rt, alloc, stream, *fault).is_some()
        );
    }
}

// An Epochs frame of no seals, and frames behind it.
#[test]
fn hostile_frames(rt: HostRuntime) {
    let rows: [(&[u8], Fault); 9] = [
        (
            b"E\0\0\0\0F\0\0\0\0\0\0\0\0\0\0\0\0\0\x01\0\x01",
            Fault::BadFrame,
        ),
        (
            b"E\0\0\0\0F\0\0\0\0\xff\xff\xff\xff\xff\xff\xff\xff\0\0\0\x01",
            Fault::BadFrame,
        ),
        (
            b"E\0\0\0\0F\0\0\0\0\xff\xff\xff\xff\xff\xff\xff\xff\0\0\0\0",
            Fault::Gap,
        ),
        (b"E\0\0\0\0F\0\0\0\0\0\0\0\0\0\0\0\x6d\0\0\0\0", Fault::Gap),
        (
            b"E\0\0\0\0F\0\0\0\0\0\0\0\0\0\0\0\x32\0\0\0\x3aabcdefghijklmnopqrstuvwxyzabcdefghijklmnopqrstuvwxyzabcdef",
            Fault::Cut,
        ),
        (b"E\0\0\0\0\x58", Fault::BadFrame),
        (
            b"E\0\0\0\0F\0\0\0\0\0\0\0\0\0\0\0\x6c\0\0\0\x1cabcdefghijklmnopqrst",
            Fault::Cut,
        ),
        // The epoch is above 32, and then it is another one than the follower's.
        (
            b"E\0\0\0\0F\0\0\0\x21\0\0\0\0\0\0\0\x6d\0\0\0\0",
            Fault::BadFrame,
        ),
        (
            b"E\0\0\0\0F\0\0\0\x02\0\0\0\0\0\0\0\x6d\0\0\0\0",
            Fault::OtherEpoch { epoch: 2 },
        ),
    ];
    meets_all(&rt, rt.alloc(), &rows);
}

// What comes in place of an Epochs frame that may come.
#[test]
fn hostile_histories(rt: HostRuntime) {
    let diverged = EngineFault::Diverged { seal: Lsn(107) };
    let rows: [(&[u8], Fault); 7] = [
        (b"E\0\0\0\x21", Fault::BadFrame),
        (
            b"E\0\0\0\x02\0\0\0\0\0\0\0\x82\0\0\0\0\0\0\0\x81",
            Fault::BadFrame,
        ),
        (b"E\0\0\0\x01\0\0\0\0\0\0\0", Fault::Cut),
        // The log ends above the first seal.
        (b"E\0\0\0\x01\0\0\0\0\0\0\0\x6b", Fault::Refused(diverged)),
        // Log bytes, and the frames of a session without histories.
        (b"F\0\0\0\0\0\0\0\0\0\0\0\x6c\0\0\0\0", Fault::BadFrame),
        (b"D\0\0\0\0\0\0\0\x6c\0\0\0\0", Fault::BadFrame),
        (b"", Fault::Cut),
    ];
    meets_all(&rt, rt.alloc(), &rows);
}

// Another history is adopted, and is on the devices before the first answer: the follower then is of
// its epoch, asks so, and refuses to go back. `None`: allocation failed.
fn adopts<R: Wait + Abort>(rt: &R, alloc: Global) -> Option<()> {
    let mut engine = standby(rt, alloc)?;
    let follower = Follower::new(HEADER);
    follower.frame(&mut engine, data(alloc, 16, 108)?).ok()?;
    let mut told = Vec::new(alloc);
    // Two seals, at 108 and 130, and the end of the source, which is at 108.
    let stream =
        b"E\0\0\0\x02\0\0\0\0\0\0\0\x6c\0\0\0\0\0\0\0\x82F\0\0\0\x02\0\0\0\0\0\0\0\x6c\0\0\0\0";
    let mut reader = stream.as_slice();
    follower
        .follow(alloc, &mut engine, &mut reader, &mut told)
        .ok()?;
    assert!(rt; engine.history().seals() == [108, 130].as_slice());
    assert!(rt; engine.status().acknowledged == Lsn(108));
    let mut again = Vec::new(alloc);
    let mut reader = b"E\0\0\0\x01\0\0\0\0\0\0\0\x6c".as_slice();
    let answer = follower.follow(alloc, &mut engine, &mut reader, &mut again);
    assert!(rt; answer == Err(Fault::Refused(EngineFault::OtherEpoch { epoch: 1 })));
    Some(())
}

#[test]
fn another_history_is_adopted(rt: HostRuntime) {
    let alloc = rt.alloc();
    assert!(rt; adopts(&rt, alloc).is_some() || adopts(&rt, alloc).is_some());
}

// What a follower that was sealed at 108 asks: 37 bytes. `None`: allocation failed.
fn asks<R: Wait + Abort>(rt: &R, alloc: Global) -> Option<()> {
    let mut engine = standby(rt, alloc)?;
    let follower = Follower::new(HEADER);
    follower.frame(&mut engine, data(alloc, 16, 108)?).ok()?;
    let history = History::of(&[Lsn(108)])?;
    follower.frame(&mut engine, Frame::Epochs(history)).ok()?;
    let mut told = Vec::new(alloc);
    let mut reader = b"".as_slice();
    let answer = follower.follow(alloc, &mut engine, &mut reader, &mut told);
    assert!(rt; answer == Err(Fault::Cut) || answer == Err(Fault::Stream));
    let wanted = b"Q\0\0\0\0\0\0\0\x6cALSLOG01\0\0\0\x04\0\0\0\0\0\0\0\x01\0\0\0\0\0\0\0\x6c";
    if answer == Err(Fault::Stream) {
        return None;
    }
    assert!(rt; told.as_slice() == wanted.as_slice());
    Some(())
}

#[test]
fn a_follower_tells_its_history(rt: HostRuntime) {
    let alloc = rt.alloc();
    assert!(rt; asks(&rt, alloc).is_some() || asks(&rt, alloc).is_some());
}

// Why a shipper of a node with this history refuses a follower, and how many bytes were sent by then.
// `None`: allocation failed.
fn refuses(
    rt: &impl Abort,
    alloc: Global,
    seals: &[Lsn],
    asked: &[u8],
    wanted: Fault,
    told: usize,
) -> Option<()> {
    let bytes = Vec::from_slice(alloc, &TEXT).ok()?;
    let mut source = LogBytes::with_history(bytes, History::of(seals)?).ok()?;
    let mut sent = Vec::new(alloc);
    let mut reader = asked;
    let mut shipper = Shipper::new();
    match shipper.serve(alloc, &mut source, &mut reader, &mut sent) {
        Err(Fault::Memory) => return None,
        Err(Fault::Stream) => return None,
        answer => assert!(rt; answer == Err(wanted)),
    }
    assert!(rt; sent.len() == told);
    assert!(rt; shipper.has_begun() == (told > 0));
    assert!(rt; shipper.acknowledged().is_none());
    Some(())
}

#[test]
fn followers_that_are_refused(rt: HostRuntime) {
    let alloc = rt.alloc();
    let mut other = [0; 29];
    other.copy_from_slice(&TOLD[..29]);
    other[20] = 5;
    let mut ahead = [0; 29];
    ahead.copy_from_slice(&TOLD[..29]);
    ahead[8] = 109;
    let sealed = b"Q\0\0\0\0\0\0\0\x6cALSLOG01\0\0\0\x04\0\0\0\0\0\0\0\x01\0\0\0\0\0\0\0\x6c";
    let old = b"R\0\0\0\0\0\0\0\x10ALSLOG01\0\0\0\x04\0\0\0\0";
    let rows: [(&[Lsn], &[u8], Fault, usize); 8] = [
        (&[], &other, Fault::BadHeader, 0),
        (&[], &TOLD[29..], Fault::BadFrame, 0),
        (&[], old, Fault::BadFrame, 0),
        (&[], &TOLD[..28], Fault::Cut, 0),
        (&[], sealed, Fault::OtherEpoch { epoch: 0 }, 5),
        (
            &[Lsn(20), Lsn(30)],
            sealed,
            Fault::OtherEpoch { epoch: 2 },
            21,
        ),
        (
            &[Lsn(108), Lsn(108)],
            &ahead,
            Fault::Diverged { seal: Lsn(108) },
            21,
        ),
        (&[], &ahead, Fault::Gap, 5),
    ];
    for (seals, asked, fault, told) in rows {
        assert!(rt;
            refuses(&rt, alloc, seals, asked, fault, told).is_some()
                || refuses(&rt, alloc, seals, asked, fault, told).is_some()
        );
    }
}

// The log of a node as what is shipped: what it has acknowledged, with its history. `None`: memory was
// refused.
fn sources<R: Wait + Abort>(rt: &R, alloc: Global) -> Option<()> {
    let mut engine = standby(rt, alloc)?;
    let follower = Follower::new(HEADER);
    follower.frame(&mut engine, data(alloc, 16, 108)?).ok()?;
    let before = acknowledged_log(alloc, &mut engine).ok()?;
    assert!(rt; before.end() == 16);
    force(&mut engine).ok()?;
    let mut source = acknowledged_log(alloc, &mut engine).ok()?;
    assert!(rt; source.end() == 108);
    assert!(rt; source.history().epoch() == 0);
    let mut text = [0; 108];
    source.read_at(0, &mut text).ok()?;
    assert!(rt; text == TEXT);
    Some(())
}

#[test]
fn the_log_of_a_node(rt: HostRuntime) {
    let alloc = rt.alloc();
    assert!(rt; sources(&rt, alloc).is_some() || sources(&rt, alloc).is_some());
}

#[test]
fn faults_have_numbers_and_names(rt: HostRuntime) {
    assert!(rt; Fault::BadHeader.number() == 1);
    assert!(rt; Fault::Memory.number() == 32);
    assert!(rt; Fault::Gap.number() == 40);
    assert!(rt; Fault::BadFrame.number() == 41);
    assert!(rt; Fault::Diverged { seal: Lsn(108) }.number() == 42);
    assert!(rt; Fault::Cut.number() == 43);
    assert!(rt; Fault::Stream.number() == 44);
    assert!(rt; Fault::OtherEpoch { epoch: 2 }.number() == 48);
    assert!(rt; Fault::Refused(als_engine::Fault::Backlog).name() == "Backlog");
}

// Serves the next follower that comes.
fn serve_once(alloc: Global, listener: &TcpListener, source: &mut LogBytes) -> Result<u64, Fault> {
    let (stream, _) = listener.accept()?;
    stream.set_nodelay(true)?;
    Shipper::new().serve(alloc, source, &mut &stream, &mut &stream)
}

// Follows one session of the shipper at an address.
fn follow_at<R: Net<Stream = TcpStream>, E: Events>(
    rt: &R,
    alloc: Global,
    addr: SocketAddr,
    events: &mut E,
) -> Result<(), Fault> {
    let stream = TcpStream::connect(rt, addr)?;
    stream.set_nodelay(true)?;
    Follower::new(HEADER).follow(alloc, events, &mut &stream, &mut &stream)
}

#[test]
fn a_session_over_tcp(rt: HostRuntime) -> Result<(), Fail> {
    let alloc = rt.alloc();
    let mut engine = standby(&rt, alloc).expect(&rt, "a standby");
    let mut source = source(alloc).expect(&rt, "a source");
    let (listener, addr) = listen(&rt)?;
    let (rt, listener, source, engine) = (&rt, &listener, &mut source, &mut engine);
    let (sent, followed) = thread::join(
        rt,
        move || serve_once(alloc, listener, source),
        move || follow_at(rt, alloc, addr, engine),
    );
    assert!(rt; sent == Ok(92));
    assert!(rt; followed == Ok(()));
    Ok(())
}
