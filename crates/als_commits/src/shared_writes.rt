use crate::packed_writes::PackedWrites;
use crate::writes_left::WritesLeft;
use std::alloc::{AllocError, Global};
use std::marker::Model;
use std::sync::Arc;

/// Writes that several commits share, in any threads.
pub(crate) struct SharedWrites {
    writes: Arc<PackedWrites>,
}

// Written out: a derived drop is proved wherever writes are dropped, this one only here.
impl Drop for SharedWrites {
    fn drop(self) {
        let SharedWrites { writes } = self;
        drop(writes);
    }
}

impl Model for SharedWrites {
    ghost use Rattle.std.specs.Prelude.{List};
    ghost use Rattle.std.specs.Arc.{arc_value};
    ghost use Rattle.als_record.specs.Commits.{Write};

    ghost Value = { List Write };

    ghost view = { λ s. arc_value s.writes };
}

impl SharedWrites {
    ghost use Rattle.std.specs.Prelude.{◌≡◌, length, IfOk};
    ghost use Rattle.als_commits.specs.Left.{writes_left};

    /// These writes, for one commit at first.
    pub(crate) fn of(alloc: Global, writes: PackedWrites) -> Result<SharedWrites, AllocError>
        ensures { IfOk result (λ s. s ≡ writes) }
    {
        Ok(SharedWrites {
            writes: Arc::new(alloc, writes)?,
        })
    }

    /// The same writes, for one commit more. They are not copied.
    pub(crate) fn again(&self) -> Result<SharedWrites, AllocError>
        ensures { IfOk result (λ s. s ≡ self.now) }
    {
        Ok(SharedWrites {
            writes: Arc::try_clone(&self.writes)?,
        })
    }

    /// The writes, to be read one after another.
    pub(crate) fn left(&self) -> WritesLeft<'_>
        ensures { writes_left result ≡ self.now }
    {
        self.writes.left()
    }

    /// How many writes these are.
    pub(crate) fn len(&self) -> usize
        ensures { result ≡ length self.now }
    {
        self.writes.len()
    }
}
