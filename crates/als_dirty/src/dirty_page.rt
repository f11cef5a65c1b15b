ghost use Rattle.std.specs.Prelude.{◌≡◌};

use als_record::Lsn;

/// What the table keeps of a page. A crash may leave the image of the last sync or that of the last
/// write, or one written between them. `None`: the image lacks no record of the log.
#[derive(Clone, Copy, Debug, PartialEq, Eq)]
pub struct DirtyPage {
    /// The first record of the log that the image last synced lacks: the RecLSN of the page's row.
    pub synced: Option<Lsn>,
    /// The first one that the image last written lacks.
    pub written: Option<Lsn>,
}

impl DirtyPage {
    ghost use Rattle.als_dirty.specs.Entries.{after_record, after_sync};

    /// A page of which no image lacks a record.
    pub(crate) const UNTOUCHED: DirtyPage = DirtyPage {
        synced: None,
        written: None,
    };

    /// A record changes the page: it is the first that an image lacks which lacked none.
    #[inline]
    pub(crate) fn note_change(&mut self, lsn: Lsn)
        ensures { self.new ≡ after_record self.old lsn }
    {
        if self.synced.is_none() {
            self.synced = Some(lsn);
        }
        if self.written.is_none() {
            self.written = Some(lsn);
        }
    }

    /// The image last written is synced.
    #[inline]
    pub(crate) fn note_sync(&mut self)
        ensures { self.new ≡ after_sync self.old }
    {
        self.synced = self.written;
    }
}
