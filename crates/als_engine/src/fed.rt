use crate::fault::Fault;

/// What a feed took: all bytes of its piece, and so many records that became whole.
#[derive(Clone, Copy, Debug, PartialEq, Eq)]
pub struct Fed {
    pub taken: usize,
    pub records: usize,
}

/// A feed that was refused: it took the piece's bytes up to the end of the last record that it
/// held, and so many records.
#[derive(Clone, Copy, Debug, PartialEq, Eq)]
pub struct FeedFault {
    pub taken: usize,
    pub records: usize,
    pub fault: Fault,
}
