use crate::limits::NAP;
use std::alloc::{AllocError, Global};
use std::net::{IpAddr, SocketAddr};
use std::sync::atomic::{AtomicBool, AtomicU64, Ordering};
use std::time::Duration;

/// The connections that the threads have, and whether the threads go on. All of them share it.
#[derive(Drop)]
pub struct Connections {
    closed: AtomicBool,
    /// The peer of each connection, 0 where there is none.
    peers: Vec<AtomicU64>,
}

/// The number of a peer, never 0: one for each IPv4 address, mapped into IPv6 or not, and one for each /64
/// network of IPv6.
pub(crate) fn peer_of(addr: &SocketAddr) -> u64 {
    match addr.ip().to_canonical() {
        IpAddr::V4(ip) => u64::from(u32::from_be_bytes(ip.octets())) | 1 << 63,
        IpAddr::V6(ip) => {
            let [a, b, c, d, e, f, g, h, ..] = ip.octets();
            u64::from_be_bytes([a, b, c, d, e, f, g, h]) >> 1 | 1
        }
    }
}

impl Connections {
    /// No connections, of this many threads that wait for their peers.
    pub fn new(alloc: Global, threads: usize) -> Result<Connections, AllocError> {
        let mut peers = Vec::with_capacity(alloc, threads)?;
        for _ in 0..threads {
            peers.push(AtomicU64::new(0))?;
        }
        Ok(Connections {
            closed: AtomicBool::new(false),
            peers,
        })
    }

    /// Ends the threads: one with a connection ends once its peer is silent for a moment.
    pub fn close(&self) {
        self.closed.store(true, Ordering::SeqCst);
    }

    /// Whether the threads are to end.
    pub fn is_closed(&self) -> bool {
        self.closed.load(Ordering::SeqCst)
    }

    /// A thread takes a connection of this peer. None: no place is free, or this peer would have a
    /// connection of every thread.
    pub(crate) fn enter(&self, peer: u64) -> Option<usize> {
        let threads = self.peers.len();
        for place in 0..threads {
            let cell = &self.peers[place];
            if cell
                .compare_exchange(0, peer, Ordering::SeqCst, Ordering::SeqCst)
                .is_ok()
            {
                if threads > 1 && self.count(peer) >= threads as u64 {
                    cell.store(0, Ordering::SeqCst);
                    return None;
                }
                return Some(place);
            }
        }
        None
    }

    /// A thread has closed its connection.
    pub(crate) fn leave(&self, place: usize) {
        if place < self.peers.len() {
            self.peers[place].store(0, Ordering::SeqCst);
        }
    }

    /// Whether every thread has a connection.
    pub(crate) fn is_crowded(&self) -> bool {
        self.count(0) == 0
    }

    /// How long a thread without a connection sleeps before it looks for the next one. All of them
    /// together look as often as eight would.
    pub(crate) fn nap(&self) -> Duration {
        let eighths = self.count(0).saturating_add(7) / 8;
        Duration::from_millis(NAP.saturating_mul(eighths.max(1)))
    }

    /// How many connections this peer has. Of peer 0: how many places are free.
    fn count(&self, peer: u64) -> u64 {
        let mut count: u64 = 0;
        for cell in self.peers.iter() {
            if cell.load(Ordering::SeqCst) == peer {
                count = count.saturating_add(1);
            }
        }
        count
    }
}
