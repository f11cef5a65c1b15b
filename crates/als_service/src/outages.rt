use als_operate::Fault;
use als_record::Lsn;

/// Receives why a standby that is kept waits, and that its log is nearly full.
pub trait Outages {
    /// The connection was lost, or there was none, for this reason (None: a thread could not be
    /// started). The primary is asked again after so many milliseconds.
    fn outage(&mut self, fault: Option<Fault>, millis: u64);

    /// No primary has answered yet, for this reason, and nothing of the folder is opened or laid out before one has. It
    /// is asked again after so many milliseconds.
    fn unopened(&mut self, fault: Fault, millis: u64) {
        self.outage(Some(fault), millis);
    }

    /// What the primary sent is refused for this reason. It is asked again after so many milliseconds.
    fn refusal(&mut self, fault: Fault, millis: u64);

    /// So many connections in a row were ended before anything came over them.
    fn hang_ups(&mut self, count: u32);

    /// The primary was asked whether its log is the held one, and did not answer. It is followed all the same, as the
    /// caller asked for. Reported once a minute at most.
    fn uncompared(&mut self);

    /// The log ends there, and nine tenths of the bytes of its device are used, or more.
    fn nearly_full(&mut self, end: Lsn, capacity: u64);

    /// Bytes came from the primary, and nothing of them is acknowledged yet.
    fn bytes_came(&mut self) {}
}

impl<N: Outages> Outages for &mut N {
    fn outage(&mut self, fault: Option<Fault>, millis: u64) {
        (**self).outage(fault, millis);
    }

    fn unopened(&mut self, fault: Fault, millis: u64) {
        (**self).unopened(fault, millis);
    }

    fn refusal(&mut self, fault: Fault, millis: u64) {
        (**self).refusal(fault, millis);
    }

    fn hang_ups(&mut self, count: u32) {
        (**self).hang_ups(count);
    }

    fn uncompared(&mut self) {
        (**self).uncompared();
    }

    fn nearly_full(&mut self, end: Lsn, capacity: u64) {
        (**self).nearly_full(end, capacity);
    }

    fn bytes_came(&mut self) {
        (**self).bytes_came();
    }
}
