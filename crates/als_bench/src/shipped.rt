use crate::devices::{Size, in_folder, standby};
use crate::followed::report;
use crate::split::Split;
use crate::timed::Timed;
use als_disk::FileDisk;
use als_engine::{Engine, Events};
use als_operate::{Fault, follow};
use als_ship::{LogBytes, Shipper};
use std::alloc::Global;
use std::fs::File;
use std::net::{Ipv4Addr, Net, SocketAddr, TcpListener, TcpStream};
use std::rt::{Clock, Files};
use std::sync::Wait;
use std::thread::Threads;
use std::time::Instant;
use std::{io, thread};

/// The sizes of a standby that follows over the network.
const SHIPPED: Size = Size {
    name: "shipped",
    ..Size::LARGEST
};

/// Follows a log over a connection of this machine, on device files in a folder: one thread sends
/// it, the other follows, both by what the program calls.
pub fn ship_all<R>(rt: &R, text: &[u8], folder: &str) -> io::Result<()>
where
    R: Print + Clock + AllocGlobal + Files<File = File>,
    R: Net<Listener = TcpListener, Stream = TcpStream> + Threads + Wait + Sync,
{
    let disks = in_folder(rt, folder, text, SHIPPED)?;
    match standby(rt, rt.alloc(), disks, SHIPPED) {
        Ok(engine) => ship_engine(rt, engine, text),
        Err(fault) => println!(rt; "{fault}"),
    }
}

fn ship_engine<R>(rt: &R, engine: Engine<FileDisk>, text: &[u8]) -> io::Result<()>
where
    R: Print + Clock + AllocGlobal,
    R: Net<Listener = TcpListener, Stream = TcpStream> + Threads + Wait + Sync,
{
    let start = Instant::now(rt)?;
    let mut timed = Timed::new(rt, engine);
    let answer = session(rt, &mut timed, text);
    let (engine, split) = timed.into_parts();
    drop(engine.into_disks(rt));
    let moved = start.elapsed(rt)?.saturating_sub(split.whole());
    let split = Split { moved, ..split };
    match answer {
        Ok(()) => report(rt, "als standby over loopback on files", text, Ok(split)),
        Err(fault) => println!(rt; "{fault}"),
    }
}

/// A session of both ends, as `als ship` and `als standby` run it.
fn session<R, E>(rt: &R, events: &mut E, text: &[u8]) -> Result<(), Fault>
where
    R: AllocGlobal + Net<Listener = TcpListener, Stream = TcpStream> + Threads + Wait + Sync,
    E: Events + Send,
{
    let alloc = rt.alloc();
    let mut source = LogBytes::new(Vec::from_slice(alloc, text)?)?;
    let listener = TcpListener::bind(rt, SocketAddr::from((Ipv4Addr::LOCALHOST, 0)))?;
    let addr = listener.local_addr()?;
    let (listener, source) = (&listener, &mut source);
    let (sent, followed) = thread::join(
        rt,
        move || serve(alloc, listener, source),
        move || follow_at(rt, alloc, addr, events),
    );
    let _bytes = sent?;
    followed
}

/// Serves the next follower that comes.
fn serve(alloc: Global, listener: &TcpListener, source: &mut LogBytes) -> Result<u64, Fault> {
    let (stream, _) = listener.accept()?;
    stream.set_nodelay(true)?;
    let sent = Shipper::new().serve(alloc, source, &mut &stream, &mut &stream)?;
    Ok(sent)
}

/// Follows the log that is served at an address, with a checkpoint each 4 MB.
fn follow_at<R: Net<Stream = TcpStream> + Wait, E: Events>(
    rt: &R,
    alloc: Global,
    addr: SocketAddr,
    events: &mut E,
) -> Result<(), Fault> {
    let stream = TcpStream::connect(rt, addr)?;
    stream.set_nodelay(true)?;
    follow(rt, alloc, events, 4 << 20, &mut &stream, &mut &stream)
}
