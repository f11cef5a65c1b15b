ghost use Rattle.std.specs.Prelude.{◌≤◌};

/// What a thread does.
#[derive(Clone, Copy, Debug, PartialEq, Eq)]
pub(crate) enum Duty {
    /// It accepts a connection, and serves its requests.
    Peers,
    /// It answers the guests whose requests may wait.
    Line,
    /// It is spare: it answers guests, and waits for none.
    Guests,
}

/// How many of so many threads wait for a peer. The others are the spare one, and the one for requests that
/// may wait, if there are enough.
pub(crate) fn waiting_of(count: usize, may_wait: bool) -> usize
    ensures { result ≤ count }
{
    if count > 2 && may_wait {
        count - 2
    } else if count > 1 {
        count - 1
    } else {
        count
    }
}

/// What the thread with this number, counted from 0, of so many does.
pub(crate) fn duty_of(number: usize, count: usize, may_wait: bool) -> Duty {
    if number < waiting_of(count, may_wait) {
        Duty::Peers
    } else if number.saturating_add(1) < count {
        Duty::Line
    } else {
        Duty::Guests
    }
}
