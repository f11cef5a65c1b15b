ghost use Rattle.std.specs.Prelude.{◌≡◌};
ghost use Rattle.als_record.specs.declared.record.Body.{Body as AnyBody};
ghost use Rattle.als_record.specs.Shown.{shown, shown_body, shown_image};

use crate::image_view::ImageView;
use crate::kept_image::KeptImage;
use crate::key::Key;
use crate::lsn::Lsn;
use crate::record_view::{BodyView, RecordView};
use crate::trans_id::TransId;
use std::marker::Model;

/// A copy of the record of an update, in 96 bytes: both its images lie in it, so it owns no memory.
#[derive(Drop)]
pub struct KeptUpdate {
    lsn: Lsn,
    prev: Lsn,
    trans: TransId,
    key: Key,
    before: KeptImage,
    after: KeptImage,
}

impl Model for KeptUpdate {
    ghost use Rattle.als_record.specs.declared.record.Record.{Record};
    ghost use Rattle.als_record.specs.KeptUpdates.{update_of};

    ghost Value = { Record };

    ghost view = { λ u. update_of u.lsn u.prev u.trans u.key u.before u.after };
}

impl KeptUpdate {
    /// A copy of the update that is shown, which has this key and these images. It takes no memory.
    #[inline(always)]
    pub fn of(
        logged: &RecordView<'_>,
        key: Key,
        before: &ImageView<'_>,
        after: &ImageView<'_>,
    ) -> KeptUpdate
        requires { shown_body logged.now.body
            ≡ AnyBody.Update key (shown_image before.now) (shown_image after.now) }
        ensures { result ≡ shown logged.now }
    {
        KeptUpdate {
            lsn: logged.lsn,
            prev: logged.prev,
            trans: logged.trans,
            key,
            before: KeptImage::of(before),
            after: KeptImage::of(after),
        }
    }

    /// Where it stands.
    #[inline]
    pub fn lsn(&self) -> Lsn
        ensures { result ≡ self.now.lsn }
    {
        self.lsn
    }

    /// The record before it of the same transaction, 0 for the first.
    #[inline]
    pub fn prev(&self) -> Lsn
        ensures { result ≡ self.now.prev }
    {
        self.prev
    }

    /// The update where it lies.
    #[inline]
    pub fn view(&self) -> RecordView<'_>
        ensures { shown result ≡ self.now }
    {
        RecordView {
            lsn: self.lsn,
            prev: self.prev,
            trans: self.trans,
            body: BodyView::Update {
                key: self.key,
                before: self.before.shown(),
                after: self.after.shown(),
            },
        }
    }
}
