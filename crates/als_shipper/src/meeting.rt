use als_record::Lsn;
use als_ship::Fault;

/// Receives the sessions that a shipper meets.
pub trait Meetings {
    /// Somebody came who asked for nothing, for this reason: the next one is waited for.
    fn passed_over(&mut self, fault: Fault);

    /// The session has ended. The follower acknowledged up to here last, if it did.
    fn acknowledged(&mut self, lsn: Option<Lsn>);
}

/// Reports to nobody.
#[derive(Clone, Copy, Debug)]
pub struct Untold;

impl Meetings for Untold {
    fn passed_over(&mut self, _fault: Fault) {}

    fn acknowledged(&mut self, _lsn: Option<Lsn>) {}
}
