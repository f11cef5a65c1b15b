ghost use Rattle.std.specs.Prelude.{◌≡◌, ◌==◌, ◌+◌, ◌-◌, ◌^◌, min, None, if◌then◌else◌};
ghost use Rattle.als_record.specs.Shown.{shown_image};

use als_record::{ImageView, KeptImage, TransId};

/// What is kept of a key: what it has, and how many surviving updates of it a transaction has. Once
/// that transaction has committed or ended the count says nothing, and nobody clears it: the next
/// update of the key does.
#[derive(Drop)]
pub(crate) struct KeyState {
    // The numbers stand before the image: with a short value all that a record needs is in 21
    // bytes.
    pub(crate) count: u64,
    pub(crate) holder: TransId,
    pub(crate) image: KeptImage,
}

impl KeyState {
    /// A key that nobody has written.
    pub(crate) fn unwritten() -> KeyState
        ensures image { result.image ≡ None }
        ensures count { result.count ≡ 0 }
    {
        KeyState {
            count: 0,
            holder: TransId(0),
            image: KeptImage::absent(),
        }
    }

    /// A word that is made of the front of what is kept and of its last byte, and says nothing: who
    /// asks for it has both at hand, and with them all that is read and written of the key.
    pub(crate) fn word(&self) -> u64 {
        self.count ^ u64::from(self.image.rest()[30])
    }

    /// A transaction that may write the key updates it.
    #[inline(always)]
    pub(crate) fn update(&mut self, trans: TransId, after: &ImageView<'_>)
        ensures image { self.new.image ≡ shown_image after.now }
        ensures holder { self.new.holder ≡ trans }
        ensures count { self.new.count ≡ (if self.old.holder.0 == trans.0 then min (self.old.count
            + 1) (2 ^ 64 - 1) else 1) }
    {
        self.count = if self.holder.0 == trans.0 {
            self.count.saturating_add(1)
        } else {
            1
        };
        self.holder = trans;
        self.image = KeptImage::of(after);
    }

    /// A transaction undoes an update of the key.
    pub(crate) fn undo(&mut self, trans: TransId, after: &ImageView<'_>)
        ensures image { self.new.image ≡ shown_image after.now }
        ensures holder { self.new.holder ≡ self.old.holder }
        ensures count { self.new.count ≡ (if self.old.holder.0 == trans.0 then self.old.count
            - 1 else self.old.count) }
    {
        if self.holder.0 == trans.0 {
            self.count = self.count.saturating_sub(1);
        }
        self.image = KeptImage::of(after);
    }
}
