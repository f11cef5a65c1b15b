ghost use Rattle.std.specs.Prelude.{◌≡◌, ◌∷◌, [], ◌++◌, OnOk, OnErr};
ghost use Rattle.als_record.specs.Spelling.{image_bytes};
ghost use Rattle.als_record.specs.Shown.{shown_image};

use crate::head::Head;
use crate::writes_left::WritesLeft;
use als_record::{ImageView, Key};
use std::alloc::{AllocError, Global};
use std::marker::Model;

/// The writes of a commit in two pieces: 8 bytes a write, and the bytes of all values one behind
/// another.
pub(crate) struct PackedWrites {
    heads: Vec<Head>,
    values: Vec<u8>,
}

// Written out: a derived drop is proved wherever writes are dropped, this one only here.
impl Drop for PackedWrites {
    fn drop(self) {
        let PackedWrites { heads, values } = self;
        drop(heads);
        drop(values);
    }
}

impl Model for PackedWrites {
    ghost use Rattle.std.specs.Prelude.{◌≡◌, List, length};
    ghost use Rattle.als_record.specs.Commits.{Write};
    ghost use Rattle.als_commits.specs.Packing.{writes_packed, sizes};

    ghost Value = { List Write };

    ghost view = { λ p. writes_packed p.heads.items p.values.items };

    ghost invariant = { λ p. sizes p.heads.items ≡ length p.values.items };
}

/// The bytes of an image's value, none without one.
fn bytes_of<'a>(after: &ImageView<'a>) -> &'a [u8]
    ensures { result.now ≡ image_bytes (shown_image after.now) }
{
    match after.bytes {
        None => &[],
        Some(bytes) => bytes,
    }
}

/// One more head, and the bytes of its value behind the others.
fn append(
    heads: &mut Vec<Head>,
    values: &mut Vec<u8>,
    head: Head,
    value: &[u8],
) -> Result<(), AllocError>
    ensures ok { OnOk result ((heads.new.items ≡ heads.old.items ++ head ∷ [])
        × (values.new.items ≡ values.old.items ++ value.now)) }
    ensures err { OnErr result ((heads.new.items ≡ heads.old.items)
        × (values.new.items ≡ values.old.items)) }
{
    heads.reserve(1)?;
    values.extend_from_slice(value)?;
    heads.push_reserved(head);
    Ok(())
}

impl PackedWrites {
    ghost use Rattle.std.specs.Prelude.{length, IfOk};
    ghost use Rattle.als_commits.specs.Left.{writes_left};

    /// No writes, and memory for just so many heads and bytes of values.
    pub(crate) fn with_room(
        alloc: Global,
        count: usize,
        bytes: usize,
    ) -> Result<PackedWrites, AllocError>
        ensures { IfOk result (λ p. p ≡ []) }
    {
        Ok(PackedWrites {
            heads: Vec::with_capacity(alloc, count)?,
            values: Vec::with_capacity(alloc, bytes)?,
        })
    }

    /// One more write: a key and what it gets.
    pub(crate) fn add(&mut self, key: Key, after: &ImageView<'_>) -> Result<(), AllocError>
        ensures { OnOk result (self.new
            ≡ self.old ++ record { key = key; after = shown_image after.now } ∷ []) }
    {
        let head = Head::of(key, after);
        append(&mut self.heads, &mut self.values, head, bytes_of(after))?;
        Ok(())
    }

    /// Gives the memory back that the values do not need.
    pub(crate) fn shrink(&mut self)
        ensures { self.new ≡ self.old }
    {
        self.values.shrink_to_fit();
    }

    /// The writes, to be read one after another.
    pub(crate) fn left(&self) -> WritesLeft<'_>
        ensures { writes_left result ≡ self.now }
    {
        WritesLeft {
            heads: self.heads.as_slice(),
            values: self.values.as_slice(),
        }
    }

    /// How many writes these are.
    pub(crate) fn len(&self) -> usize
        ensures { result ≡ length self.now }
    {
        self.heads.len()
    }
}
