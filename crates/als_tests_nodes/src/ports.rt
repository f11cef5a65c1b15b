use als_drive::Progress;
use als_operate::Fault;
use als_primary::{Announces, Notice};
use als_record::Lsn;
use als_service::Outages;
use std::net::SocketAddr;
use std::sync::atomic::{AtomicU64, Ordering};
use std::thread;
use std::time::{Clock, Duration};

/// Milliseconds after which it is looked again.
const NAP: u64 = 20;

/// It is looked so often at most.
const NAPS: u32 = 500;

/// The ports of a primary. 0: not announced yet.
#[derive(Drop)]
pub struct Ports {
    serve: AtomicU64,
    listen: AtomicU64,
}

impl Ports {
    /// Nothing is announced.
    pub fn new() -> Ports {
        Ports {
            serve: AtomicU64::new(0),
            listen: AtomicU64::new(0),
        }
    }

    /// Where it serves HTTP, once that is announced. None: it was not within ten seconds.
    pub fn serve<C: Clock>(&self, clock: &C) -> Option<u64> {
        wait_for(clock, &self.serve)
    }

    /// Where followers connect, once that is announced. None: it was not within ten seconds.
    pub fn listen<C: Clock>(&self, clock: &C) -> Option<u64> {
        wait_for(clock, &self.listen)
    }
}

/// The port in a cell, once it is there.
fn wait_for<C: Clock>(clock: &C, cell: &AtomicU64) -> Option<u64> {
    for _ in 0..NAPS {
        let port = cell.load(Ordering::SeqCst);
        if port > 0 {
            return Some(port);
        }
        thread::sleep(clock, Duration::from_millis(NAP));
    }
    None
}

/// Notes the ports that a primary announces, and nothing else.
#[derive(Clone, Copy)]
pub struct Announced<'a> {
    pub ports: &'a Ports,
}

impl Progress for Announced<'_> {
    fn waits(&mut self, _changes: u64) {}
}

impl Announces for Announced<'_> {
    fn serves(&mut self, _dir: &str, addr: SocketAddr, _epoch: u32, _end: Lsn) {
        self.ports
            .serve
            .store(u64::from(addr.port()), Ordering::SeqCst);
    }

    fn listens(&mut self, addr: SocketAddr, _sync: u32) {
        self.ports
            .listen
            .store(u64::from(addr.port()), Ordering::SeqCst);
    }

    fn nearly_full(&mut self, _end: Lsn, _capacity: u64) {}

    fn unconfirmed(&mut self, _sync: u32, _seconds: u64) {}

    fn follower(&mut self, _notice: Notice) {}
}

/// Notes nothing of what a standby reports.
#[derive(Clone, Copy)]
pub struct Unheard;

impl Progress for Unheard {
    fn waits(&mut self, _changes: u64) {}
}

impl Outages for Unheard {
    fn outage(&mut self, _fault: Option<Fault>, _millis: u64) {}

    fn refusal(&mut self, _fault: Fault, _millis: u64) {}

    fn hang_ups(&mut self, _count: u32) {}

    fn uncompared(&mut self) {}

    fn nearly_full(&mut self, _end: Lsn, _capacity: u64) {}
}
