use als_console::Text;
use als_record::{Key, Lsn};

/// What a request asks for.
#[derive(Clone, Copy, Debug, PartialEq, Eq)]
pub enum Query {
    /// The value of a key, in an answer whose LSN is at least this one.
    Value(Key, Lsn),
    /// The values of all slots of a page, in such an answer.
    Page(u32, Lsn),
    /// The values of the keys that the body names, in such an answer.
    Many(Lsn),
    Status,
    Metrics,
    Health,
    /// Whether clients may send it commits.
    Primary,
    /// Whether it is a healthy standby.
    Standby,
    /// A text of the page.
    Console(Text),
    Refused(Wrong),
}

/// Why a request is refused.
#[derive(Clone, Copy, Debug, PartialEq, Eq)]
pub enum Wrong {
    /// The node has no such path.
    Path,
    /// Its method is neither GET nor HEAD.
    Method,
    /// It reads the keys that its body names, and its method is not POST.
    Read,
    /// A page or a slot is not a number of 32 bits.
    Number,
    /// Its body names no keys, or too many.
    Body,
    /// Its `Als-At-Least` is not a number of 64 bits, or is there twice.
    Lsn,
    /// Its `Als-Wait` is not a number of at most 60, or is there twice.
    Wait,
    /// Its `Host` is not one of the node's.
    Host,
}
