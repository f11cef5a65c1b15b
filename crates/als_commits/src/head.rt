ghost use Rattle.std.specs.Prelude.{◌≤◌};

use als_record::{ImageView, Key};

/// The head of a write that is kept in pieces: its key, and how long the value is that the key
/// gets.
#[derive(Clone, Copy)]
pub struct Head {
    page: u32,
    slot: u8,
    // 0 for none, else a value's length and one.
    first: u8,
    ghost short: { first ≤ 32 },
}

impl Head {
    ghost use Rattle.std.specs.Prelude.{◌≡◌, nat_lt};
    ghost use Rattle.als_record.specs.KeptImages.{first_of};
    ghost use Rattle.als_record.specs.Shown.{shown_image};
    ghost use Rattle.als_commits.specs.Packing.{key_in, size_in};

    /// The head of a write of this key, which gets this image.
    pub(crate) fn of(key: Key, after: &ImageView<'_>) -> Head
        ensures { (key_in result ≡ key) × (result.first ≡ first_of (shown_image after.now)) }
    {
        let first = match after.bytes {
            None => 0,
            Some(bytes) => bytes.len() as u8 + 1,
        };
        Head {
            page: key.page,
            slot: key.slot,
            first,
        }
    }

    /// The key.
    pub(crate) fn key(&self) -> Key
        ensures { result ≡ key_in self.now }
    {
        Key {
            page: self.page,
            slot: self.slot,
        }
    }

    /// Has the write a value?
    pub(crate) fn has_value(&self) -> bool
        ensures { result ≡ nat_lt 0 self.now.first }
    {
        self.first > 0
    }

    /// How many bytes its value has, 0 without one.
    pub(crate) fn size(&self) -> usize
        ensures { result ≡ size_in self.now }
    {
        (self.first as usize).saturating_sub(1)
    }
}
