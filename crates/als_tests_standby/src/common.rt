ghost use Rattle.std.specs.Prelude.{◌≡◌};

use als_disk::{BlockDisk, MemDisk};
use als_engine::{Config, Disks, Engine, Fault};
use als_record::Lsn;
use als_ship::LogBytes;
use std::alloc::Global;
use std::io;
use std::net::{Ipv4Addr, Net, SocketAddr, TcpListener, TcpStream};

/// A log of a database of four pages: its header, an update of 0/0 to `aa` at 16, its commit at 52
/// and its end at 80.
pub const TEXT: [u8; 108] = [
    65, 76, 83, 76, 79, 71, 48, 49, 0, 0, 0, 4, 0, 0, 0, 0, 0, 0, 0, 36, 1, 0, 0, 0, 0, 0, 0, 0, 0,
    0, 0, 16, 0, 0, 0, 0, 0, 0, 0, 0, 0, 0, 0, 1, 0, 0, 0, 0, 0, 255, 1, 170, 0, 0, 0, 28, 3, 0, 0,
    0, 0, 0, 0, 0, 0, 0, 0, 52, 0, 0, 0, 0, 0, 0, 0, 16, 0, 0, 0, 1, 0, 0, 0, 28, 5, 0, 0, 0, 0, 0,
    0, 0, 0, 0, 0, 80, 0, 0, 0, 0, 0, 0, 0, 52, 0, 0, 0, 1,
];

/// What a follower of that log tells: a Resume frame from 16 on, of epoch 0, and two Acknowledged
/// frames of 108.
pub const TOLD: [u8; 47] = [
    0x51, 0, 0, 0, 0, 0, 0, 0, 16, 65, 76, 83, 76, 79, 71, 48, 49, 0, 0, 0, 4, 0, 0, 0, 0, 0, 0, 0,
    0, //
    0x41, 0, 0, 0, 0, 0, 0, 0, 108, //
    0x41, 0, 0, 0, 0, 0, 0, 0, 108,
];

/// What a shipper of that log sends to a follower that holds nothing: the Epochs frame of no seals,
/// the Data frame of the bytes from 16 to 108, and the last one, which has none.
pub const SENT: [u8; 131] = [
    69, 0, 0, 0, 0, 70, 0, 0, 0, 0, 0, 0, 0, 0, 0, 0, 0, 16, 0, 0, 0, 92, 0, 0, 0, 36, 1, 0, 0, 0,
    0, 0, 0, 0, 0, 0, 0, 16, 0, 0, 0, 0, 0, 0, 0, 0, 0, 0, 0, 1, 0, 0, 0, 0, 0, 255, 1, 170, 0, 0,
    0, 28, 3, 0, 0, 0, 0, 0, 0, 0, 0, 0, 0, 52, 0, 0, 0, 0, 0, 0, 0, 16, 0, 0, 0, 1, 0, 0, 0, 28,
    5, 0, 0, 0, 0, 0, 0, 0, 0, 0, 0, 80, 0, 0, 0, 0, 0, 0, 0, 52, 0, 0, 0, 1, 70, 0, 0, 0, 0, 0, 0,
    0, 0, 0, 0, 0, 108, 0, 0, 0, 0,
];

/// A standby of four pages.
pub const CONFIG: Config = Config {
    pages: 4,
    frames: 4,
    pending: 1000,
    readers: 1,
};

/// New devices in memory, of which the log's has eight blocks.
pub fn devices_in_memory(alloc: Global) -> Disks<MemDisk>
    ensures log { ⟦<MemDisk as BlockDisk>⟧.block_count result.log ≡ 8 }
    ensures control { ⟦<MemDisk as BlockDisk>⟧.block_count result.control ≡ 321 }
    ensures pages { ⟦<MemDisk as BlockDisk>⟧.block_count result.pages ≡ 4 }
{
    Disks {
        log: MemDisk::new(alloc, 8),
        control: MemDisk::new(alloc, 321),
        pages: MemDisk::new(alloc, 4),
    }
}

/// Lends a page, redoes its lease and gives it back: the page_LSN that it then has, or what the
/// engine refuses.
pub fn redo<D: BlockDisk>(engine: &mut Engine<D>, page: u32) -> Result<Lsn, Fault> {
    let lease = engine.lend(page)?;
    let mut lease = lease;
    // A lease has at most 64 changes.
    for _ in 0..64 {
        if !lease.redo_next() {
            break;
        }
    }
    let lsn = lease.working().lsn();
    match engine.give(lease) {
        Ok(()) => Ok(lsn),
        Err(refused) => Err(refused.fault),
    }
}

/// The log as a source. `None`: allocation failed.
pub fn source(alloc: Global) -> Option<LogBytes> {
    let bytes = Vec::from_slice(alloc, &TEXT).ok()?;
    LogBytes::new(bytes).ok()
}

/// A port of this machine.
pub fn listen<N>(rt: &N) -> io::Result<(TcpListener, SocketAddr)>
where
    N: Net<Listener = TcpListener, Stream = TcpStream>,
{
    let listener = TcpListener::bind(rt, SocketAddr::from((Ipv4Addr::LOCALHOST, 0)))?;
    let addr = listener.local_addr()?;
    Ok((listener, addr))
}
