use als_callers::{Allowed, Block};
use als_compare::write_id;
use als_epochs::History;
use als_followers::{Followers, NodeSource, Quorum, Tail, Terms, What};
use als_quorum::Wanted;
use als_record::{LogHeader, Lsn};
use als_wire::{read_acknowledged, read_data, read_epochs, write_acknowledged, write_resume};
use std::alloc::Global;
use std::net::{Net, OpenListener, OpenStream, SocketAddr, TcpListener, TcpStream};
use std::os::unix::fs::FileExt;
use std::sync::{Arc, Wait};
use std::thread::Threads;
use std::time::{Clock, Duration};
use std::{io, thread};

/// The page count of the log.
pub const PAGES: u32 = 4;

/// The header of the log.
const HEADER: [u8; 16] = [65, 76, 83, 76, 79, 71, 48, 49, 0, 0, 0, 4, 0, 0, 0, 0];

/// A file of a log without end: behind its header the byte at an offset is its remainder by 251.
#[derive(Drop)]
pub struct Endless;

/// The byte at an offset.
pub fn byte_at(offset: u64) -> u8 {
    if offset < 16 {
        HEADER[offset as usize]
    } else {
        (offset % 251) as u8
    }
}

impl FileExt for Endless {
    fn read_at(&self, buf: &mut [u8], offset: u64) -> io::Result<usize> {
        let count = buf.len();
        let mut at = offset;
        for byte in buf.iter_mut() {
            *byte = byte_at(at);
            at = at.saturating_add(1);
        }
        Ok(count)
    }

    fn write_at(&self, _buf: &[u8], _offset: u64) -> io::Result<usize> {
        Err(io::ErrorKind::Unsupported.into())
    }
}

/// Followers of such a log, which may be read up to 116 at first.
#[derive(Drop)]
pub struct Made<R: Drop> {
    pub followers: Followers<NodeSource<R, Endless>>,
    pub tail: Arc<Tail, Global>,
    pub quorum: Arc<Quorum, Global>,
    pub at: SocketAddr,
}

/// Starts them; only who is of this block may come.
pub fn make<
    R: Net<Listener = TcpListener, Stream = TcpStream>
        + Threads
        + Wait
        + Clock
        + Clone
        + Send
        + Sync
        + Drop
        + 'static,
>(rt: &R, alloc: Global, block: &str) -> io::Result<Made<R>> {
    let listener = TcpListener::bind(rt, "127.0.0.1:0")?;
    let at = listener.local_addr()?;
    let tail = Arc::new(alloc, Tail::new(Lsn(116)))?;
    let mut allowed = Allowed::new(alloc);
    if let Some(block) = Block::parse(block) {
        allowed.add(block)?;
    }
    let quorum = Arc::new(alloc, Quorum::new(alloc, 8, allowed)?)?;
    let tail_too = Arc::try_clone(&tail)?;
    let Ok(source) = NodeSource::new(rt.clone()?, alloc, Endless, tail_too, History::empty(), 30)
    else {
        return Err(io::ErrorKind::OutOfMemory.into());
    };
    let followers = Followers::start(
        rt,
        alloc,
        listener,
        source,
        Arc::try_clone(&tail)?,
        Arc::try_clone(&quorum)?,
        Terms::new(16, Some(Duration::from_secs(30))),
    )?;
    Ok(Made {
        followers,
        tail,
        quorum,
        at,
    })
}

/// A connection to a listener.
pub fn connect<R: Net<Stream = TcpStream>>(rt: &R, at: SocketAddr) -> Option<TcpStream> {
    let stream = TcpStream::connect(rt, at).ok()?;
    stream.set_read_timeout(Some(Duration::from_secs(20))).ok()?;
    Some(stream)
}

/// A follower that goes on from an offset. None: it was not let in.
pub fn follow<R: Net<Stream = TcpStream>>(rt: &R, at: SocketAddr, from: u64) -> Option<TcpStream> {
    resume(connect(rt, at)?, from)
}

/// The same of a follower whose folder has the id of which each byte is this one.
pub fn follow_as<R: Net<Stream = TcpStream>>(
    rt: &R,
    at: SocketAddr,
    from: u64,
    id: u8,
) -> Option<TcpStream> {
    let mut stream = connect(rt, at)?;
    write_id(&mut stream, &[id; 16]).ok()?;
    resume(stream, from)
}

/// Begins a session over a connection.
fn resume(stream: TcpStream, from: u64) -> Option<TcpStream> {
    let mut stream = stream;
    let header = LogHeader { pages: PAGES };
    write_resume(&mut stream, Lsn(from), header, &History::empty()).ok()?;
    read_epochs(&mut stream).ok()?;
    Some(stream)
}

/// The next piece: where it begins, and how many bytes it has. It is answered. None: none comes, or it has
/// another byte.
pub fn next(alloc: Global, stream: &mut TcpStream) -> Option<(u64, usize)> {
    let (_, offset, bytes) = read_data(alloc, stream).ok()?;
    let mut at = offset;
    for byte in bytes.as_slice() {
        if *byte != byte_at(at) {
            return None;
        }
        at = at.saturating_add(1);
    }
    write_acknowledged(stream, Lsn(at)).ok()?;
    Some((offset, bytes.len()))
}

/// Waits for the first notice, for some seconds at most.
pub fn notice<R: Wait + Clock + Drop>(
    rt: &R,
    followers: &Followers<NodeSource<R, Endless>>,
) -> Option<What> {
    for _ in 0..1_000 {
        if let Some(notice) = followers.notice(rt) {
            return Some(notice.what);
        }
        thread::sleep(rt, Duration::from_millis(10));
    }
    None
}

/// The log up to there, whatever the round.
pub fn up_to(end: u64) -> Wanted {
    Wanted {
        lsn: Lsn(end),
        round: 0,
    }
}
