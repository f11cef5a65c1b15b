use als_record::Lsn;

/// The page_LSNs of a resident page.
#[derive(Clone, Copy, Debug, PartialEq, Eq)]
pub struct Lsns {
    /// Of the page as it is now.
    pub now: Lsn,
    /// Of its image last written.
    pub written: Lsn,
    /// Of its image last synced.
    pub synced: Lsn,
}
