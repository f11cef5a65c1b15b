ghost use Rattle.std.specs.Prelude.{◌≡◌, ◌<◌, ◌≤◌, ℕ, [], length, slice_set, OnOk};
ghost use Rattle.als_disk.specs.Store.{synced_content};

use crate::content::Content;
use crate::kept::Kept;
use std::alloc::{AllocError, Global};
use std::marker::Model;

/// The contents of a device's blocks at the last sync, by block: zeros behind the last one that is
/// kept.
pub(crate) struct Synced {
    blocks: Vec<Kept>,
}

// Written out: a derived drop is proved wherever a device is dropped, this one only here.
impl Drop for Synced {
    fn drop(self) {
        let Synced { blocks } = self;
        drop(blocks);
    }
}

impl Model for Synced {
    ghost use Rattle.std.specs.Prelude.{ℕ, List};

    ghost Value = { List (List ℕ) };

    ghost view = { λ s. s.blocks.items };
}

impl Synced {
    /// Zeros. It takes no memory.
    pub(crate) fn zeros(alloc: Global) -> Synced
        ensures { result ≡ [] }
    {
        Synced {
            blocks: Vec::new(alloc),
        }
    }

    /// Makes room for the content of a block, which then takes no memory. No content changes.
    pub(crate) fn make_room(&mut self, i: u64) -> Result<(), AllocError>
        ensures ok { OnOk result (i < length self.new) }
        ensures kept { length self.old ≤ length self.new }
        ensures same { (k : ℕ) → synced_content self.new k ≡ synced_content self.old k }
    {
        while self.blocks.len() as u64 <= i {
            self.blocks.push(Kept::zeros())?;
        }
        Ok(())
    }

    /// Gives a block its content.
    pub(crate) fn set(&mut self, i: u64, content: Content)
        requires room { i < length self.old }
        ensures { self.new ≡ slice_set self.old i content }
    {
        self.blocks[i as usize] = Kept::of(content);
    }

    /// The content of a block.
    #[tactic(auto, unfolding(crate::specs::Store::zeros))]
    pub(crate) fn block(&self, i: u64) -> [u8; 512]
        ensures { result ≡ synced_content self.now i }
    {
        match self.blocks.get(i as usize) {
            Some(kept) => kept.block(),
            None => [0; 512],
        }
    }
}
