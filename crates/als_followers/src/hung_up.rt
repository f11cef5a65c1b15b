use crate::notice::{Notice, What};
use std::alloc::Global;
use std::net::IpAddr;
use std::time::Duration;

/// Seconds for which an address that was hung up on is not reported again.
const SILENT: u64 = 60;

/// The most addresses that are remembered. Others are reported each time.
const KEPT: usize = 64;

/// An address, and when it was reported, by the clock.
#[derive(Clone, Copy)]
struct Reported {
    peer: IpAddr,
    at: Duration,
}

/// The addresses that were hung up on lately and reported: each tries again every few seconds.
pub(crate) struct HungUp {
    reported: Vec<Reported>,
}

impl Drop for HungUp {
    fn drop(self) {
        let HungUp { reported } = self;
        drop(reported);
    }
}

impl HungUp {
    /// No address.
    pub fn new(alloc: Global) -> HungUp {
        HungUp {
            reported: Vec::new(alloc),
        }
    }

    /// Whether a notice is to be reported: that an address may not follow, or has the id of another follower, is
    /// reported at most once a minute.
    pub fn is_news(&mut self, notice: &Notice, now: Duration) -> bool {
        match notice.what {
            What::Stranger | What::Twin => self.is_first(notice.peer, now),
            _ => true,
        }
    }

    /// Whether this address was not reported within the last minute. From now on it was.
    fn is_first(&mut self, peer: IpAddr, now: Duration) -> bool {
        let silent = Duration::from_secs(SILENT);
        self.reported
            .retain(|known| now.saturating_sub(known.at) < silent);
        if self.reported.iter().any(|known| known.peer == peer) {
            return false;
        }
        if self.reported.len() < KEPT {
            // Without memory for it, it is reported again.
            let _ = self.reported.push(Reported { peer, at: now });
        }
        true
    }
}
