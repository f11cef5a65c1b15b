use als_record::Lsn;

/// Why a key was not read.
#[derive(Clone, Copy, Debug, PartialEq, Eq)]
pub enum Unread {
    /// No list of commits is published yet.
    Warming,
    /// The view has ended.
    Stopped,
    /// The last published commit has this LSN, which is below the one asked for.
    Older(Lsn),
    /// The database has no such page or slot.
    NoSuchKey,
    /// There is no memory for the values.
    Memory,
}
