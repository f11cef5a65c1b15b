/// Why a request may not commit, or is not answered yet.
#[derive(Clone, Copy, Debug, PartialEq, Eq)]
pub enum Denied {
    /// Its `Host` is not one of the node's.
    Host,
    /// It asks for a change, and its method is not POST.
    Method,
    /// It asks what is in doubt, and its method is neither GET nor HEAD.
    NoRead,
    /// It comes from a page in a browser.
    Page,
    /// It has no token.
    NoToken,
    /// It has another token.
    OtherToken,
    /// It reads commits, and the log with which the primary began is not confirmed yet.
    Early,
    /// It reads commits, and too few standbys have answered the primary of late: another node may have been taken over.
    Unheard,
}
