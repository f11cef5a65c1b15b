ghost use Rattle.std.specs.Prelude.{◌≡◌, ℕ, List, [], ◌∷◌, ◌++◌, unwrap_or, IfOk, OnOk, OnErr};
ghost use Rattle.std.specs.Prelude.{option_map};
ghost use Rattle.als_disk.specs.Crash.{picked};

use crate::content::Content;
use std::alloc::{AllocError, Global};

/// The contents that a block was given since the last sync: one at least.
#[derive(Drop)]
pub(crate) struct Unsynced {
    pub(crate) earlier: Vec<[u8; 512]>,
    pub(crate) last: Content,
}

impl Unsynced {
    ghost use Rattle.als_disk.specs.Unsynced.{contents};

    /// One content.
    pub(crate) fn new(alloc: Global, block: &[u8; 512]) -> Result<Unsynced, AllocError>
        ensures { IfOk result (λ writes. contents writes ≡ block.now ∷ []) }
    {
        Ok(Unsynced {
            earlier: Vec::new(alloc),
            last: Content::new(alloc, block)?,
        })
    }

    pub(crate) fn push(&mut self, block: &[u8; 512]) -> Result<(), AllocError>
        ensures ok { OnOk result (contents self.new ≡ contents self.old ++ block.now ∷ []) }
        ensures last { OnOk result (self.new.last ≡ block.now) }
        ensures err { OnErr result (contents self.new ≡ contents self.old) }
        ensures err_last { OnErr result (self.new.last ≡ self.old.last) }
    {
        self.earlier.push(self.last.block())?;
        self.last.set(block);
        Ok(())
    }

    /// The last one.
    pub(crate) fn into_last(self) -> Content
        ensures { result ≡ self.last }
    {
        let Unsynced { earlier: _, last } = self;
        last
    }

    /// The content that a crash leaves by this pick, or `None` for the one from before them.
    pub(crate) fn into_pick(self, pick: u8) -> Option<Content>
        ensures { (synced : List ℕ) → unwrap_or result synced
            ≡ picked (synced ∷ contents self) pick }
    {
        let Unsynced { earlier, mut last } = self;
        let at = usize::from(pick).checked_sub(1)?;
        if let Some(content) = earlier.get(at) {
            last.set(content);
        }
        Some(last)
    }
}
