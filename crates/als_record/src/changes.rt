ghost use Rattle.std.specs.Prelude.{◌≡◌};
ghost use Rattle.als_record.specs.Pages.{change_of};
ghost use Rattle.als_record.specs.Shown.{shown};

use crate::change::Change;
use crate::kept_image::KeptImage;
use crate::record::Record;
use crate::record_view::{BodyView, RecordView};

impl RecordView<'_> {
    /// What redo does for the record: an update and a compensation write their after image, the
    /// others nothing. It takes no memory.
    #[inline]
    pub fn change(&self) -> Option<Change>
        ensures { result ≡ change_of (shown self.now) }
    {
        match &self.body {
            BodyView::Update { key, after, .. } | BodyView::Compensation { key, after, .. } => {
                Some(Change {
                    lsn: self.lsn,
                    key: *key,
                    after: KeptImage::of(after),
                })
            }
            BodyView::Commit
            | BodyView::Rollback
            | BodyView::End
            | BodyView::BeginCheckpoint
            | BodyView::EndCheckpoint { .. }
            | BodyView::Prepare => None,
        }
    }
}

impl Record {
    /// What redo does for the record: an update and a compensation write their after image, the
    /// others nothing. It takes no memory.
    #[inline]
    pub fn change(&self) -> Option<Change>
        ensures { result ≡ change_of self.now }
    {
        self.view().change()
    }
}
