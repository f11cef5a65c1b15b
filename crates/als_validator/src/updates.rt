ghost use Rattle.std.specs.Prelude.{◌≡◌, ◌↔◌, IsTrue, ◌<◌, ◌≤◌, [], IfOk, OnOk, OnErr};
ghost use Rattle.als_record.specs.declared.record.Body.{Body as AnyBody};
ghost use Rattle.als_record.specs.Shown.{shown, shown_body, shown_image};
ghost use Rattle.als_validator.specs.Lists.{left_after};

use als_record::{BodyView, ImageView, KeptUpdate, Key, RecordView};
use std::alloc::{AllocError, Global};
use std::marker::Model;

/// The surviving updates of one transaction, in order.
pub(crate) struct Updates {
    left: Vec<KeptUpdate>,
}

// Written out: a derived drop is proved wherever updates are dropped, this one only here.
impl Drop for Updates {
    fn drop(self) {
        let Updates { left } = self;
        drop(left);
    }
}

impl Model for Updates {
    ghost use Rattle.std.specs.Prelude.{vec_len, vec_capacity, ◌-◌};
    ghost use Rattle.als_validator.specs.Lists.{Left};

    ghost Value = { Left };

    ghost view = { λ o. record { left = o.left.items; room = vec_capacity o.left - vec_len o.left } };
}

impl Updates {
    /// No update, and room for some.
    pub(crate) fn spare(alloc: Global) -> Result<Updates, AllocError>
        ensures { IfOk result (λ o. 0 < o.room) }
    {
        Ok(Updates {
            left: Vec::with_capacity(alloc, 8)?,
        })
    }

    /// They themselves.
    pub(crate) fn as_slice(&self) -> &[KeptUpdate]
        ensures { result.now ≡ self.now.left }
    {
        self.left.as_slice()
    }

    /// Whether one more update can be kept without memory.
    pub(crate) fn has_room(&self) -> bool
        ensures { IsTrue result ↔ (0 < self.now.room) }
    {
        self.left.len() < self.left.capacity()
    }

    /// Makes room for one more update. An `Err` changes nothing.
    pub(crate) fn reserve(&mut self) -> Result<(), AllocError>
        ensures left { self.new.left ≡ self.old.left }
        ensures ok { OnOk result (0 < self.new.room) }
        ensures err { OnErr result (self.new ≡ self.old) }
    {
        self.left.reserve(1)?;
        Ok(())
    }

    /// Forgets all, for a transaction without a record.
    pub(crate) fn clear(&mut self)
        ensures left { self.new.left ≡ [] }
        ensures room { self.old.room ≤ self.new.room }
    {
        self.left.clear();
    }

    /// Keeps an update of the transaction, which has this key and these images.
    #[inline(always)]
    pub(crate) fn push(
        &mut self,
        logged: &RecordView<'_>,
        key: Key,
        before: &ImageView<'_>,
        after: &ImageView<'_>,
    )
        requires room { 0 < self.old.room }
        requires shows { shown_body logged.now.body
            ≡ AnyBody.Update key (shown_image before.now) (shown_image after.now) }
        ensures { self.new.left ≡ left_after self.old.left (shown logged.now)
            (shown_body logged.now.body) }
    {
        self.left
            .push_reserved(KeptUpdate::of(logged, key, before, after));
    }

    /// Notes one more record of the transaction.
    #[inline(always)]
    pub(crate) fn extend(&mut self, logged: &RecordView<'_>)
        requires { 0 < self.old.room }
        ensures { self.new.left ≡ left_after self.old.left (shown logged.now)
            (shown_body logged.now.body) }
    {
        match &logged.body {
            BodyView::Update { key, before, after } => {
                self.left
                    .push_reserved(KeptUpdate::of(logged, *key, before, after));
            }
            BodyView::Compensation { .. } => {
                let _undone = self.left.pop();
            }
            _ => {}
        }
    }
}
