ghost use Rattle.std.specs.Prelude.{◌≡◌};
ghost use Rattle.als_http.specs.Replies.{status_of_flag};

use crate::query::Wrong;
use als_console::Text;
use als_report::{Report, Unread};
use als_view::{Answer, Many};
use http::StatusCode;

/// The reply to a query.
#[derive(Drop)]
pub enum Reply {
    /// A key's value.
    Value(Answer),
    /// The values of many keys.
    Many(Many),
    /// Why a key was not read.
    Unread(Unread),
    /// The report of the node, and how many commits are published; None: no list of them is.
    Status(Report, Option<u64>),
    /// The same as metrics.
    Metrics(Report, Option<u64>),
    /// Whether the node is healthy by this report and number of published commits.
    Health(Report, Option<u64>),
    /// Whether clients may send the node commits, by this report.
    Primary(Report),
    /// Whether it is a healthy standby by this report and number of published commits.
    Standby(Report, Option<u64>),
    /// A text of the page.
    Console(Text),
    /// Why the request is refused.
    Refused(Wrong),
}

impl Reply {
    ghost use Rattle.als_http.specs.Replies.{status_of};

    /// The status of its response.
    pub fn status(&self) -> StatusCode
        ensures { result ≡ status_of self.now }
    {
        match self {
            Reply::Value(_) | Reply::Many(_) => StatusCode::OK,
            Reply::Status(..) | Reply::Metrics(..) | Reply::Console(_) => StatusCode::OK,
            Reply::Unread(Unread::NoSuchKey) => StatusCode::NOT_FOUND,
            Reply::Unread(_) => StatusCode::SERVICE_UNAVAILABLE,
            Reply::Health(report, commits) => status_of_flag(report.is_healthy(*commits)),
            Reply::Primary(report) => status_of_flag(report.is_primary()),
            Reply::Standby(report, commits) => status_of_flag(report.is_standby(*commits)),
            Reply::Refused(Wrong::Path) => StatusCode::NOT_FOUND,
            Reply::Refused(Wrong::Method | Wrong::Read) => StatusCode::METHOD_NOT_ALLOWED,
            Reply::Refused(Wrong::Number | Wrong::Body | Wrong::Lsn | Wrong::Wait) => {
                StatusCode::BAD_REQUEST
            }
            Reply::Refused(Wrong::Host) => StatusCode::MISDIRECTED_REQUEST,
        }
    }
}

/// The status by which a load balancer is told that something is so.
fn status_of_flag(flag: bool) -> StatusCode
    ensures { result ≡ status_of_flag flag }
{
    if flag {
        StatusCode::OK
    } else {
        StatusCode::SERVICE_UNAVAILABLE
    }
}
