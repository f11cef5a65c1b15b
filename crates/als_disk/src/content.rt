ghost use Rattle.std.specs.Prelude.{◌≡◌, IfOk};

use std::alloc::{AllocError, Global};
use std::marker::Model;

/// The content of a block, in a box: what keeps it moves eight bytes, and not 512.
pub(crate) struct Content {
    bytes: Box<[u8; 512]>,
}

// Written out: a derived drop is proved wherever a content is dropped, this one only here.
impl Drop for Content {
    fn drop(self) {
        let Content { bytes } = self;
        drop(bytes);
    }
}

impl Model for Content {
    ghost use Rattle.std.specs.Prelude.{ℕ, List};

    ghost Value = { List ℕ };

    ghost view = { λ content. content.bytes.value };
}

impl Content {
    pub(crate) fn new(alloc: Global, block: &[u8; 512]) -> Result<Content, AllocError>
        ensures { IfOk result (λ content. content ≡ block.now) }
    {
        Ok(Content {
            bytes: Box::new(alloc, *block)?,
        })
    }

    /// Its bytes.
    pub(crate) fn block(&self) -> [u8; 512]
        ensures { result ≡ self.now }
    {
        *self.bytes
    }

    /// Gives it other bytes.
    pub(crate) fn set(&mut self, block: &[u8; 512])
        ensures { self.new ≡ block.now }
    {
        *self.bytes = *block;
    }
}
