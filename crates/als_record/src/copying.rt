ghost use Rattle.std.specs.Prelude.{◌≡◌, IfOk, OnErr};
ghost use Rattle.als_record.specs.Reading.{HasRows};
ghost use Rattle.als_record.specs.Shown.{shown, shown_body};

use crate::image_view::ImageView;
use crate::record::{Body, Record};
use crate::record_view::{BodyView, RecordView};
use crate::rows_view::RowsView;
use std::alloc::{AllocError, Global};

impl Record {
    /// A view of the record.
    #[inline]
    pub fn view(&self) -> RecordView<'_>
        ensures { shown result ≡ self.now }
    {
        RecordView {
            lsn: self.lsn,
            prev: self.prev,
            trans: self.trans,
            body: self.body.view(),
        }
    }
}

impl Body {
    /// A view of what a record says.
    #[inline]
    pub fn view(&self) -> BodyView<'_>
        ensures { shown_body result ≡ self.now }
    {
        match self {
            Body::Update { key, before, after } => BodyView::Update {
                key: *key,
                before: ImageView::of(before),
                after: ImageView::of(after),
            },
            Body::Compensation {
                undo_next,
                key,
                after,
            } => BodyView::Compensation {
                undo_next: *undo_next,
                key: *key,
                after: ImageView::of(after),
            },
            Body::Commit => BodyView::Commit,
            Body::Rollback => BodyView::Rollback,
            Body::End => BodyView::End,
            Body::BeginCheckpoint => BodyView::BeginCheckpoint,
            Body::EndCheckpoint {
                transactions,
                pages,
            } => BodyView::EndCheckpoint {
                rows: RowsView::Kept {
                    transactions,
                    pages,
                },
            },
            Body::Prepare => BodyView::Prepare,
        }
    }
}

impl RecordView<'_> {
    /// The record that is shown, with this body.
    #[inline(always)]
    fn with_body(&self, body: Body) -> Record
        ensures { result ≡ record {
          lsn = self.now.lsn;
          prev = self.now.prev;
          trans = self.now.trans;
          body = body;
        } }
    {
        Record {
            lsn: self.lsn,
            prev: self.prev,
            trans: self.trans,
            body,
        }
    }

    /// The record that is shown, copied. Memory is wanted for nothing but the rows of an end_chkpt.
    /// Each arm builds its record itself, which then needs no move.
    #[inline(always)]
    pub fn to_record(&self, alloc: Global) -> Result<Record, AllocError>
        ensures ok { IfOk result (λ copy. copy ≡ shown self.now) }
        ensures err { OnErr result (HasRows (shown_body self.now.body)) }
    {
        match &self.body {
            BodyView::Update { key, before, after } => Ok(self.with_body(Body::Update {
                key: *key,
                before: before.to_image(),
                after: after.to_image(),
            })),
            BodyView::Compensation {
                undo_next,
                key,
                after,
            } => Ok(self.with_body(Body::Compensation {
                undo_next: *undo_next,
                key: *key,
                after: after.to_image(),
            })),
            BodyView::Commit => Ok(self.with_body(Body::Commit)),
            BodyView::Rollback => Ok(self.with_body(Body::Rollback)),
            BodyView::End => Ok(self.with_body(Body::End)),
            BodyView::BeginCheckpoint => Ok(self.with_body(Body::BeginCheckpoint)),
            BodyView::EndCheckpoint { rows } => Ok(self.with_body(rows.to_body(alloc)?)),
            BodyView::Prepare => Ok(self.with_body(Body::Prepare)),
        }
    }
}
