use crate::common::{CONFIG, SENT, TEXT, TOLD, devices_in_memory, listen, source};
use als_drive::{Progress, drain_telling};
use als_engine::{Engine, Events, Fault as EngineFault};
use als_folder::{Part, Trouble, Wrong};
use als_operate::{Fault, NearlyFull, follow as follow_session};
use als_record::{Key, Lsn};
use als_ship::{LogBytes, Shipper};
use als_shipper::{Shipping, Untold, serve, ship};
use std::alloc::Global;
use std::io::{Read, Write};
use std::net::{Net, SocketAddr, TcpListener, TcpStream};
use std::process::Abort;
use std::rt::Files;
use std::sync::Wait;
use std::test::Fail;
use std::time::Clock;
use std::{fs, io, thread};

// Serves the next follower that comes, as `ship` does.
fn serve_next(
    alloc: Global,
    source: &mut LogBytes,
    listener: &TcpListener,
    output: &mut Vec<u8>,
) -> Result<(), Fault> {
    let (mut writer, _) = listener.accept()?;
    writer.set_nodelay(true)?;
    let mut reader = writer.try_clone()?;
    let mut shipper = Shipper::new();
    serve(
        alloc,
        &mut shipper,
        source,
        &mut reader,
        &mut writer,
        output,
    )
}

// A follower that holds nothing and acknowledges all: how many bytes it is sent.
fn follow<R: Net<Stream = TcpStream>>(
    rt: &R,
    alloc: Global,
    addr: SocketAddr,
) -> io::Result<usize> {
    let mut stream = TcpStream::connect(rt, addr)?;
    stream.write_all(&TOLD)?;
    let mut sent = Vec::new(alloc);
    stream.take(1000).read_to_end(&mut sent)?;
    Ok(sent.len())
}

#[test]
fn a_session_is_told(rt: HostRuntime) -> Result<(), Fail> {
    let alloc = rt.alloc();
    let mut source = source(alloc).expect(&rt, "a source");
    let mut printed = Vec::new(alloc);
    let (listener, addr) = listen(&rt)?;
    let (rt, listener, source, output) = (&rt, &listener, &mut source, &mut printed);
    let (served, followed) = thread::join(
        rt,
        move || serve_next(alloc, source, listener, output),
        move || follow(rt, alloc, addr).unwrap_or(0),
    );
    assert!(rt; served == Ok(()));
    assert!(rt; followed == SENT.len());
    assert!(rt; printed.as_slice() == b"sent=92\n".as_slice());
    Ok(())
}

// A log file that is served at an address, to a follower that may be silent for a minute.
fn shipping<'a>(log: &'a str, listen: &'a str) -> Shipping<'a> {
    Shipping {
        log,
        listen,
        timeout: 60,
    }
}

// Whether shipping a file with these bytes to an address is refused so, with nothing printed. A
// growth is refused once at most.
fn refuses<R: AllocGlobal + Files<File = fs::File> + Net + Clock>(
    rt: &R,
    bytes: &[u8],
    listen: &str,
    wanted: Fault,
) -> bool {
    let path = "log.als";
    if fs::write(rt, path, bytes).is_err() {
        return false;
    }
    let mut printed = Vec::new(rt.alloc());
    let answer = ship(rt, shipping(path, listen), &mut Untold, &mut printed);
    let removed = fs::remove_file(rt, path).is_ok();
    removed && answer == Err(wanted) && printed.is_empty()
}

#[test]
fn what_is_not_served(rt: HostRuntime) {
    let bad = Fault::Session(als_ship::Fault::BadHeader);
    let rows: [(&[u8], &str, Fault); 3] = [
        (&TEXT[..15], "127.0.0.1:0", bad),
        (&TEXT[1..], "127.0.0.1:0", bad),
        (&TEXT, "127.0.0.1", Fault::Stream),
    ];
    for (bytes, listen, fault) in rows {
        assert!(rt; refuses(&rt, bytes, listen, fault) || refuses(&rt, bytes, listen, fault));
    }
    let mut printed = Vec::new(rt.alloc());
    let missing = shipping("no file", "127.0.0.1:0");
    let missing = ship(&rt, missing, &mut Untold, &mut printed);
    assert!(rt; matches!(missing, Err(Fault::Stream | Fault::Memory)));
    assert!(rt; bad.number() == 1);
    assert!(rt; Fault::Stream.number() == 44);
    assert!(rt; Fault::Memory.name() == "Memory");
}

// A session over memory, as `als standby` follows it over its engine: what it tells, and what it
// leaves, with a checkpoint after each frame or with none on the way. `None`: allocation failed.
fn follows_warm<R: Wait + Abort>(rt: &R, alloc: Global, each: u64) -> Option<()> {
    let (mut engine, mut readers) = Engine::format(
        alloc,
        rt,
        devices_in_memory(alloc),
        CONFIG,
    ).ok()?;
    let mut told = Vec::new(alloc);
    let mut reader = SENT.as_slice();
    follow_session(rt, alloc, &mut engine, each, &mut reader, &mut told).ok()?;
    assert!(rt; told.as_slice() == TOLD.as_slice());
    let status = engine.status();
    assert!(rt; status.pending == 0);
    assert!(rt; status.acknowledged == Lsn(108));
    assert!(rt; Events::dirty(&engine, 0).is_none());
    // The commit was published on the way.
    let mut one = readers.pop()?;
    let answer = one.get(Key { page: 0, slot: 0 }).ok()?;
    assert!(rt; answer.commits == 1);
    Some(())
}

#[test]
fn a_session_keeps_the_standby_warm(rt: HostRuntime) {
    let alloc = rt.alloc();
    for each in [0, 1] {
        assert!(rt;
            follows_warm(&rt, alloc, each).is_some() || follows_warm(&rt, alloc, each).is_some()
        );
    }
}

// How many changes waited at first, and at last.
#[derive(Clone, Copy)]
struct Heard {
    first: Option<u64>,
    last: Option<u64>,
}

impl Progress for Heard {
    fn waits(&mut self, changes: u64) {
        if self.first.is_none() {
            self.first = Some(changes);
        }
        self.last = Some(changes);
    }
}

// A redo of one change is reported. `None`: allocation failed.
fn tells_of_redo<R: Wait + Abort>(rt: &R, alloc: Global) -> Option<()> {
    let (mut engine, _) = Engine::format(alloc, rt, devices_in_memory(alloc), CONFIG).ok()?;
    engine.feed(&TEXT[16..]).ok()?;
    let mut heard = Heard {
        first: None,
        last: None,
    };
    drain_telling(&mut engine, &mut heard).ok()?;
    assert!(rt; heard.first == Some(1));
    assert!(rt; heard.last == Some(0));
    Some(())
}

#[test]
fn a_redo_is_told(rt: HostRuntime) {
    let alloc = rt.alloc();
    assert!(rt; tells_of_redo(&rt, alloc).is_some() || tells_of_redo(&rt, alloc).is_some());
}

#[test]
fn a_refusal_tells_of_a_file(rt: HostRuntime) {
    let refused = EngineFault::BadPage { page: 3 };
    let trouble = Trouble {
        part: Part::Pages,
        wrong: Wrong::BadPage { page: 3 },
    };
    assert!(rt; Fault::Refused(refused).trouble() == Some(trouble));
    // It is the primary's log that a session refuses.
    let of_session = Fault::Session(als_ship::Fault::Refused(EngineFault::BadType));
    assert!(rt; of_session.trouble() == None);
    assert!(rt; Fault::Stream.trouble() == None);
}

#[test]
fn a_log_that_is_nearly_full_is_remarked_on_once_an_hour(rt: HostRuntime) {
    let mut remarks = NearlyFull::NEVER;
    assert!(rt; !remarks.is_due(899, 1000, 0));
    assert!(rt; remarks.is_due(900, 1000, 0));
    assert!(rt; !remarks.is_due(1000, 1000, 0));
    assert!(rt; remarks.is_due(1000, 1000, 1));
    assert!(rt; !remarks.is_due(899, 1000, 2));
    assert!(rt; remarks.is_due(900, 1000, 2));
    assert!(rt; !remarks.is_due(u64::MAX / 2, u64::MAX, 3));
}
