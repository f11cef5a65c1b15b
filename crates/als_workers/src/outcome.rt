use als_engine::Fault;

/// Why a dispatcher ended.
#[derive(Clone, Copy, Debug, PartialEq, Eq)]
pub enum DispatchEnd {
    /// Nothing more is fed, and nothing waits or is lent.
    Drained,
    /// The engine has stopped.
    Stopped,
    /// The last lease number is spent, so nothing can be lent any more.
    NumbersSpent,
    /// The gate stopped it.
    Gate,
}

/// Why a dispatcher ended, and how many stops it put: one for each worker, but for those that the
/// queue handed back.
#[derive(Clone, Copy, Debug, PartialEq, Eq)]
pub struct Dispatched {
    pub end: DispatchEnd,
    pub stops: usize,
}

/// Why a flusher, a checkpointer or a forcer ended.
#[derive(Clone, Copy, Debug, PartialEq, Eq)]
pub enum Halt {
    /// The gate stopped it.
    Gate,
    /// An event was refused by a fault that does not pass.
    Refused(Fault),
}
