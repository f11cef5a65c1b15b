ghost use Rattle.std.specs.Prelude.{◌≡◌, ◌<◌, ◌==◌, ℕ, [], length, replicate, slice_set, IfOk, OnOk};
ghost use Rattle.als_disk.specs.Pieces.{content_at};
ghost use Rattle.als_disk.specs.Store.{zeros};

use std::alloc::{AllocError, Global};
use std::marker::Model;

/// How many blocks a piece has: those of 64 KiB.
pub(crate) const PIECE_BLOCKS: u64 = 128;

/// 128 blocks of a file in a row. While all are zeros, none is kept.
pub(crate) struct Piece {
    blocks: Vec<[u8; 512]>,
}

// Written out: a derived drop is proved wherever a piece is dropped, this one only here.
impl Drop for Piece {
    fn drop(self) {
        let Piece { blocks } = self;
        drop(blocks);
    }
}

impl Model for Piece {
    ghost use Rattle.std.specs.Prelude.{ℕ, List};
    ghost use Rattle.als_disk.specs.Pieces.{IsPiece};

    ghost Value = { List (List ℕ) };

    ghost view = { λ p. p.blocks.items };

    ghost invariant = { λ p. IsPiece p.blocks.items };
}

impl Piece {
    /// A piece of zeros. It takes no memory.
    pub(crate) fn zeros(alloc: Global) -> Piece
        ensures { result ≡ [] }
    {
        Piece {
            blocks: Vec::new(alloc),
        }
    }

    /// Whether it takes no memory: each of its blocks is zeros.
    pub(crate) fn is_zeros(&self) -> bool
        ensures { result ≡ (length self.now == 0) }
    {
        self.blocks.is_empty()
    }

    /// The content of a block.
    #[tactic(auto, unfolding(crate::specs::Store::zeros))]
    pub(crate) fn block(&self, at: usize) -> [u8; 512]
        ensures { result ≡ content_at self.now at }
    {
        match self.blocks.get(at) {
            Some(block) => *block,
            None => [0; 512],
        }
    }

    /// The bytes of so many blocks from one on, where it has them.
    pub(crate) fn bytes(&self, at: usize, count: usize) -> Option<&[u8]> {
        let end = at.checked_add(count)?;
        let blocks = self.blocks.get(at..end)?;
        Some(blocks.as_flattened())
    }

    /// Makes room for each block, so that `set` takes no memory. No content changes.
    pub(crate) fn make_room(&mut self, alloc: Global) -> Result<(), AllocError>
        ensures ok { OnOk result (length self.new ≡ 128) }
        ensures same { (at : ℕ) → content_at self.new at ≡ content_at self.old at }
    {
        if self.blocks.is_empty() {
            self.blocks = zero_blocks(alloc)?;
        }
        Ok(())
    }

    /// Gives a block its content.
    pub(crate) fn set(&mut self, at: usize, block: &[u8; 512])
        requires room { length self.old ≡ 128 }
        requires within { at < 128 }
        ensures { self.new ≡ slice_set self.old at block.now }
    {
        self.blocks[at] = *block;
    }
}

/// The blocks of a piece, all zeros.
#[tactic(auto, unfolding(crate::specs::Store::zeros))]
fn zero_blocks(alloc: Global) -> Result<Vec<[u8; 512]>, AllocError>
    ensures { IfOk result (λ blocks. blocks.items ≡ replicate 128 zeros) }
{
    let mut blocks = Vec::with_capacity(alloc, PIECE_BLOCKS as usize)?;
    for _ in 0..PIECE_BLOCKS {
        blocks.push([0; 512])?;
    }
    Ok(blocks)
}
