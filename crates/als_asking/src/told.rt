ghost use Rattle.std.specs.Prelude.{◌≡◌};
ghost use Rattle.als_asking.specs.Telling.{status_of_refusal, status_of_outcome, status_of_denied};
ghost use Rattle.als_asking.specs.Telling.{status_of, status_unwritten};

use crate::denied::Denied;
use crate::doubt::Doubt;
use crate::outcome::Outcome;
use crate::unread::Unread;
use als_engine::Decision;
use als_record::TransId;
use als_writer::{NotDecided, Refusal};
use http::StatusCode;

/// The answer to a request for changes, or for the transactions in doubt.
#[derive(Drop)]
pub enum Told {
    /// The outcome of its one transaction. Of an array Lost: there was no memory for the outcomes.
    One(Outcome),
    /// The outcomes of its array of transactions, in order.
    Each(Vec<Outcome>),
    /// The outcome of its decision.
    Decision {
        trans: TransId,
        verdict: Decision,
        outcome: Outcome,
    },
    /// The transactions in doubt, by rising TransID.
    InDoubt(Vec<Doubt>),
    /// Its body is neither a transaction nor a decision.
    Unread(Unread),
    /// It may not commit.
    Denied(Denied),
}

impl Told {
    /// The status of its response.
    #[tactic(auto, unfolding(crate::specs::Telling::status_of))]
    pub fn status(&self) -> StatusCode
        ensures { result ≡ status_of self.now }
    {
        match self {
            Told::One(outcome) => status_of_outcome(outcome),
            Told::Each(_) | Told::InDoubt(_) => StatusCode::OK,
            Told::Decision { outcome, .. } => status_of_outcome(outcome),
            Told::Unread(Unread::Memory) => StatusCode::SERVICE_UNAVAILABLE,
            Told::Unread(_) => StatusCode::BAD_REQUEST,
            Told::Denied(why) => status_of_denied(*why),
        }
    }

    /// The status of a response for which there is no memory.
    pub(crate) fn status_unwritten(&self) -> StatusCode
        ensures { result ≡ status_unwritten self.now }
    {
        match self {
            Told::One(_) | Told::Each(_) | Told::Decision { .. } => StatusCode::GATEWAY_TIMEOUT,
            Told::InDoubt(_) | Told::Unread(_) | Told::Denied(_) => StatusCode::SERVICE_UNAVAILABLE,
        }
    }
}

/// The status of one transaction, or of a decision.
pub fn status_of_outcome(outcome: &Outcome) -> StatusCode
    ensures { result ≡ status_of_outcome outcome.now }
{
    match outcome {
        Outcome::Committed(_) | Outcome::Prepared(_) | Outcome::Decided(_) => StatusCode::OK,
        Outcome::Refused(refusal) => status_of_refusal(refusal),
        Outcome::NotDecided(NotDecided::NotInDoubt) => StatusCode::NOT_FOUND,
        Outcome::NotDecided(_) => StatusCode::SERVICE_UNAVAILABLE,
        Outcome::NotBegun => StatusCode::SERVICE_UNAVAILABLE,
        Outcome::Unknown(_) | Outcome::Lost => StatusCode::GATEWAY_TIMEOUT,
    }
}

/// The status of a transaction that was refused.
fn status_of_refusal(refusal: &Refusal) -> StatusCode
    ensures { result ≡ status_of_refusal refusal.now }
{
    match refusal {
        Refusal::Invalid(_) => StatusCode::BAD_REQUEST,
        Refusal::Held { .. } | Refusal::NotAsAsked { .. } => StatusCode::CONFLICT,
        Refusal::LogFull => StatusCode::INSUFFICIENT_STORAGE,
        Refusal::State(_)
        | Refusal::Untidy
        | Refusal::NumbersSpent
        | Refusal::TooMany
        | Refusal::Memory { .. }
        | Refusal::Unplanned(_) => StatusCode::SERVICE_UNAVAILABLE,
    }
}

/// The status of a request that may not commit.
fn status_of_denied(why: Denied) -> StatusCode
    ensures { result ≡ status_of_denied why }
{
    match why {
        Denied::Host => StatusCode::MISDIRECTED_REQUEST,
        Denied::Method | Denied::NoRead => StatusCode::METHOD_NOT_ALLOWED,
        Denied::NoToken => StatusCode::UNAUTHORIZED,
        Denied::Page | Denied::OtherToken => StatusCode::FORBIDDEN,
        Denied::Early | Denied::Unheard => StatusCode::SERVICE_UNAVAILABLE,
    }
}
