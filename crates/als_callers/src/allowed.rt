ghost use Rattle.std.specs.Prelude.{◌≡◌, ◌++◌, ◌∷◌, ◌↔◌, [], IsTrue, OnOk, OnErr};
ghost use Rattle.als_callers.specs.Members.{Admits, OneHas};

use crate::block::Block;
use std::alloc::{AllocError, Global};
use std::net::IpAddr;

/// The addresses that may come, and that count. If no block is named, all of them.
pub struct Allowed {
    blocks: Vec<Block>,
}

impl Drop for Allowed {
    fn drop(self) {
        let Allowed { blocks } = self;
        drop(blocks);
    }
}

impl Allowed {
    /// All addresses, until a block is named.
    pub fn new(alloc: Global) -> Allowed
        ensures { result.blocks.items ≡ [] }
    {
        Allowed {
            blocks: Vec::new(alloc),
        }
    }

    /// Adds a block.
    pub fn add(&mut self, block: Block) -> Result<(), AllocError>
        ensures more { OnOk result (self.new.blocks.items ≡ self.old.blocks.items ++ block ∷ []) }
        ensures same { OnErr result (self.new.blocks.items ≡ self.old.blocks.items) }
    {
        self.blocks.push(block)?;
        Ok(())
    }

    /// Whether an address may come: no block is named, or one contains it.
    pub fn admits(&self, peer: IpAddr) -> bool
        ensures { IsTrue result ↔ Admits self.now.blocks.items peer }
    {
        let blocks = self.blocks.as_slice();
        blocks.is_empty() || has_any(blocks, peer)
    }
}

/// Whether one of the blocks contains an address.
fn has_any(blocks: &[Block], peer: IpAddr) -> bool
    ensures { IsTrue result ↔ OneHas blocks.now peer }
{
    for block in blocks {
        if block.has(peer) {
            return true;
        }
    }
    false
}
