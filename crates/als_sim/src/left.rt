use crate::misplaced::Misplaced;
use als_fault::FaultKind;

/// What a script leaves, of its feeds.
#[derive(Clone, Copy, Debug, PartialEq, Eq)]
pub struct Left {
    /// The first feed that was refused and did not begin where the bytes of the standby end.
    pub misplaced: Option<Misplaced>,
    /// The fault for which the standby refuses all that is fed, until a line `resync`.
    pub kept: Option<FaultKind>,
    /// The LSN at which its log ends.
    pub end: u64,
    /// The bytes that it has of a partial record behind that.
    pub partial: u64,
}
