use crate::follower_row::FollowerRow;
use crate::report::MOST_FOLLOWERS;
use als_record::Lsn;
use arrayvec::ArrayVec;
use std::net::{IpAddr, Ipv6Addr};
use std::sync::atomic::{AtomicU64, Ordering};

/// How often rows are read again while they change.
const TRIES: u32 = 8;

/// The rows of a primary's followers, in two copies of cells. The writer, one thread at a time, fills the
/// copy that nobody reads and then directs readers to it. So a reader waits for nobody; it reads again if
/// the rows changed meanwhile.
#[derive(Drop)]
pub(crate) struct FollowerCells {
    /// How often the rows were written. Even: readers read the first copy.
    written: AtomicU64,
    first: Copy,
    second: Copy,
}

/// One copy of all rows.
#[derive(Drop)]
struct Copy {
    count: AtomicU64,
    rows: [RowCells; MOST_FOLLOWERS],
}

/// One row. An IPv4 address is stored as an IPv4-mapped one.
#[derive(Drop)]
struct RowCells {
    high: AtomicU64,
    low: AtomicU64,
    acknowledged: AtomicU64,
    connected: AtomicU64,
    answered: AtomicU64,
    counts: AtomicU64,
}

impl FollowerCells {
    /// Nobody follows.
    pub fn new() -> FollowerCells {
        FollowerCells {
            written: AtomicU64::new(0),
            first: Copy::new(),
            second: Copy::new(),
        }
    }

    /// Stores the rows; of more than eight the first eight.
    pub fn store(&self, rows: &[FollowerRow]) {
        let next = self.written.load(Ordering::SeqCst).wrapping_add(1);
        self.copy(next).store(rows);
        self.written.store(next, Ordering::SeqCst);
    }

    /// Loads the rows.
    pub fn load(&self) -> ArrayVec<FollowerRow, MOST_FOLLOWERS> {
        let mut rows = ArrayVec::new();
        for _ in 0..TRIES {
            let before = self.written.load(Ordering::SeqCst);
            rows = self.copy(before).load();
            if self.written.load(Ordering::SeqCst) == before {
                break;
            }
        }
        rows
    }

    /// The copy that is read after this many writes.
    fn copy(&self, written: u64) -> &Copy {
        if written % 2 == 0 {
            &self.first
        } else {
            &self.second
        }
    }
}

impl Copy {
    /// No row.
    fn new() -> Copy {
        Copy {
            count: AtomicU64::new(0),
            rows: [
                RowCells::new(),
                RowCells::new(),
                RowCells::new(),
                RowCells::new(),
                RowCells::new(),
                RowCells::new(),
                RowCells::new(),
                RowCells::new(),
            ],
        }
    }

    fn store(&self, rows: &[FollowerRow]) {
        let count = rows.len().min(MOST_FOLLOWERS);
        for i in 0..count {
            self.rows[i].store(&rows[i]);
        }
        self.count.store(count as u64, Ordering::SeqCst);
    }

    fn load(&self) -> ArrayVec<FollowerRow, MOST_FOLLOWERS> {
        let count = self.count.load(Ordering::SeqCst);
        let mut rows = ArrayVec::new();
        for i in 0..MOST_FOLLOWERS {
            if (i as u64) < count {
                // There is room for each of them.
                let _ = rows.try_push(self.rows[i].load());
            }
        }
        rows
    }
}

impl RowCells {
    /// Nobody.
    fn new() -> RowCells {
        RowCells {
            high: AtomicU64::new(0),
            low: AtomicU64::new(0),
            acknowledged: AtomicU64::new(0),
            connected: AtomicU64::new(0),
            answered: AtomicU64::new(0),
            counts: AtomicU64::new(0),
        }
    }

    fn store(&self, row: &FollowerRow) {
        let bits = bits_of(row.peer);
        self.high.store((bits >> 64) as u64, Ordering::SeqCst);
        self.low
            .store((bits & u128::from(u64::MAX)) as u64, Ordering::SeqCst);
        self.acknowledged
            .store(row.acknowledged.0, Ordering::SeqCst);
        self.connected.store(row.connected, Ordering::SeqCst);
        self.answered.store(row.answered, Ordering::SeqCst);
        self.counts.store(u64::from(row.counts), Ordering::SeqCst);
    }

    fn load(&self) -> FollowerRow {
        let high = u128::from(self.high.load(Ordering::SeqCst));
        let low = u128::from(self.low.load(Ordering::SeqCst));
        FollowerRow {
            peer: IpAddr::V6(Ipv6Addr::from_bits((high << 64) | low)).to_canonical(),
            acknowledged: Lsn(self.acknowledged.load(Ordering::SeqCst)),
            connected: self.connected.load(Ordering::SeqCst),
            answered: self.answered.load(Ordering::SeqCst),
            counts: self.counts.load(Ordering::SeqCst) != 0,
        }
    }
}

/// The bits of an address as an IPv6 address.
fn bits_of(peer: IpAddr) -> u128 {
    match peer {
        IpAddr::V4(ip) => ip.to_ipv6_mapped().to_bits(),
        IpAddr::V6(ip) => ip.to_bits(),
    }
}
