use crate::strayed::Strayed;
use als_operate::Fault;
use als_record::Lsn;
use als_ship::Fault as SessionFault;
use als_shipper::asks_nothing;

/// What a thread has to say of a session.
#[derive(Clone, Copy)]
pub(crate) enum Outcome {
    /// All was sent: so many log bytes were new to the follower, and up to there it acknowledged last.
    Sent(u64, Option<Lsn>),
    /// Who came was answered what log it is, and asked for no more.
    Compared,
    /// Who came asked for nothing.
    PassedOver(SessionFault),
    /// It ended early. Up to there the follower acknowledged last, if it did.
    Ended(SessionFault, Option<Lsn>),
    /// It waits for the folder of the node.
    Asked,
    /// The folder of the node gave no log.
    Closed(Fault),
    /// The file of the log is no longer the one that it was.
    Strayed(Strayed),
}

impl Outcome {
    /// How a session ended whose follower was admitted, or was not, and acknowledged up to there last.
    pub fn of(served: Result<u64, SessionFault>, begun: bool, last: Option<Lsn>) -> Outcome {
        match served {
            Ok(_) if !begun => Outcome::Compared,
            Ok(bytes) => Outcome::Sent(bytes, last),
            Err(fault) if !begun && asks_nothing(fault) => Outcome::PassedOver(fault),
            Err(fault) => Outcome::Ended(fault, last),
        }
    }
}
