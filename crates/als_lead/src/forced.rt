use als_engine::Fault;
use als_record::Lsn;

/// The result of a group's force and of its confirmation.
#[derive(Clone, Copy)]
pub(crate) enum Forced {
    /// The force or the confirmation failed.
    Failed(Fault),
    /// The log is durable, and too few others hold it.
    Unconfirmed,
    /// The log is durable up to this LSN, and enough others hold it.
    Confirmed(Lsn),
}
