ghost use Rattle.std.specs.Prelude.{◌≡◌, ◌+◌, ◌≤◌, [], ◌++◌, length, IfOk};

use als_record::RECORD_LIMIT;
use std::alloc::{AllocError, Global};
use std::marker::Model;

/// Bytes that were read back. Their room is made once, for the longest record, so that a reading
/// takes no memory.
#[derive(Drop)]
pub(crate) struct Part {
    bytes: Vec<u8>,
}

impl Model for Part {
    ghost use Rattle.std.specs.Prelude.{ℕ, List, ◌≤◌, vec_capacity};

    ghost Value = { List ℕ };

    ghost view = { λ p. p.bytes.items };

    ghost invariant = { λ p. 54560 ≤ vec_capacity p.bytes };
}

impl Part {
    /// No bytes, and the room.
    pub(crate) fn new(alloc: Global) -> Result<Part, AllocError>
        ensures { IfOk result (λ p. p ≡ []) }
    {
        let bytes = Vec::with_capacity(alloc, RECORD_LIMIT)?;
        Ok(Part { bytes })
    }

    /// Forgets them.
    pub(crate) fn clear(&mut self)
        ensures { self.new ≡ [] }
    {
        self.bytes.clear();
    }

    /// Adds bytes behind them. It takes no memory.
    pub(crate) fn push(&mut self, more: &[u8])
        requires { length self.old + length more.now ≤ 54560 }
        ensures { self.new ≡ self.old ++ more.now }
    {
        match self.bytes.extend_from_slice(more) {
            Ok(()) => {}
            Err(_) => unreachable!(),
        }
    }

    /// How many there are.
    pub(crate) fn len(&self) -> usize
        ensures { result ≡ length self.now }
    {
        self.bytes.len()
    }

    /// All of them.
    pub(crate) fn as_slice(&self) -> &[u8]
        ensures { result.now ≡ self.now }
    {
        self.bytes.as_slice()
    }
}
