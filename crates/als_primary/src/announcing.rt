use als_followers::Notice;
use als_record::Lsn;
use std::net::SocketAddr;

/// Receives what a primary announces to whoever runs it.
pub trait Announces {
    /// It serves from now on.
    fn serves(&mut self, dir: &str, addr: SocketAddr, epoch: u32, end: Lsn);

    /// Followers may connect there, and `sync` of them have to acknowledge a commit.
    fn listens(&mut self, addr: SocketAddr, sync: u32);

    /// Its log has used nine tenths of its device.
    fn nearly_full(&mut self, end: Lsn, capacity: u64);

    /// It has waited this long for `sync` followers to acknowledge a commit. Announced once a minute.
    fn unconfirmed(&mut self, sync: u32, seconds: u64);

    /// A follower came or went, or was hung up on.
    fn follower(&mut self, notice: Notice);
}

impl<A: Announces> Announces for &mut A {
    fn serves(&mut self, dir: &str, addr: SocketAddr, epoch: u32, end: Lsn) {
        (**self).serves(dir, addr, epoch, end);
    }

    fn listens(&mut self, addr: SocketAddr, sync: u32) {
        (**self).listens(addr, sync);
    }

    fn nearly_full(&mut self, end: Lsn, capacity: u64) {
        (**self).nearly_full(end, capacity);
    }

    fn unconfirmed(&mut self, sync: u32, seconds: u64) {
        (**self).unconfirmed(sync, seconds);
    }

    fn follower(&mut self, notice: Notice) {
        (**self).follower(notice);
    }
}
