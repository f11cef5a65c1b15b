use als_engine::{History, Status};
use als_record::Lsn;

/// What is done beside the events of a standby. It makes none itself, and each hook does nothing where
/// an impl has no other.
pub trait Observer {
    /// Before a piece of the log is fed.
    fn before_feed(&self) {}

    /// After a status was asked for.
    fn after_status(&self, status: &Status) {
        let _ = status;
    }

    /// After a sync of the control block, which acknowledged the log up to there.
    fn after_ctl_sync(&self, acknowledged: Lsn) {
        let _ = acknowledged;
    }

    /// After a history was adopted. It is durable after the next sync of the control block.
    fn after_adopt(&self, history: History) {
        let _ = history;
    }
}
