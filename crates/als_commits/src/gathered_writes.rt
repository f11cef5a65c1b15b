ghost use Rattle.std.specs.Prelude.{◌≡◌, [], ◌∷◌, ◌++◌, IfOk, OnOk};
ghost use Rattle.als_record.specs.Shown.{shown_image};

use crate::packed_writes::PackedWrites;
use crate::shared_writes::SharedWrites;
use crate::writes::Writes;
use als_record::{ImageView, Key};
use std::alloc::{AllocError, Global};
use std::marker::Model;

/// Writes that are gathered one after another, for a commit.
pub struct GatheredWrites {
    alloc: Global,
    writes: PackedWrites,
}

// Written out: a derived drop is proved wherever writes are gathered, this one only here.
impl Drop for GatheredWrites {
    fn drop(self) {
        let GatheredWrites { alloc: _, writes } = self;
        drop(writes);
    }
}

impl Model for GatheredWrites {
    ghost use Rattle.std.specs.Prelude.{List};
    ghost use Rattle.als_record.specs.Commits.{Write};

    ghost Value = { List Write };

    ghost view = { λ g. g.writes };
}

impl GatheredWrites {
    /// No writes, and memory for so many.
    pub fn with_room(alloc: Global, count: usize) -> Result<GatheredWrites, AllocError>
        ensures { IfOk result (λ g. g ≡ []) }
    {
        GatheredWrites::with_just(alloc, count, count)
    }

    /// No writes, and memory for just so many, whose values have so many bytes together.
    pub(crate) fn with_just(
        alloc: Global,
        count: usize,
        bytes: usize,
    ) -> Result<GatheredWrites, AllocError>
        ensures { IfOk result (λ g. g ≡ []) }
    {
        Ok(GatheredWrites {
            alloc,
            writes: PackedWrites::with_room(alloc, count, bytes)?,
        })
    }

    /// One more write: a key and what it gets.
    pub fn add(&mut self, key: Key, after: &ImageView<'_>) -> Result<(), AllocError>
        ensures { OnOk result (self.new
            ≡ self.old ++ record { key = key; after = shown_image after.now } ∷ []) }
    {
        self.writes.add(key, after)?;
        Ok(())
    }

    /// What was gathered, for a commit.
    pub fn share(self) -> Result<Writes, AllocError>
        ensures { IfOk result (λ w. w ≡ self) }
    {
        let GatheredWrites { alloc, mut writes } = self;
        writes.shrink();
        let shared = SharedWrites::of(alloc, writes)?;
        Ok(Writes::of_shared(shared))
    }
}
