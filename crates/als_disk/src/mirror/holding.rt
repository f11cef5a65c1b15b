ghost use Rattle.std.specs.Prelude.{◌≡◌, ◌≢◌, ◌<◌, ◌≤◌, ◌+◌, ◌*◌, ℕ, [], length, slice_set, IfOk, OnOk, OnErr};
ghost use Rattle.als_disk.specs.Mirror.{mirror_blocks, mirror_slot, mirror_newest};
ghost use Rattle.als_disk.specs.Pieces.{piece_in, HoldNewest};
ghost use Rattle.als_disk.specs.Slot.{only, written, KeepsReadable, SameBlocks, SameBlocksBut};
ghost use Rattle.als_disk.specs.Store.{zeros};
ghost use Rattle.als_disk.specs.declared.trail.Trail.TheVariants.{Start};

use super::Mirror;
use crate::DeviceError;
use crate::keeps::Keeps;
use crate::piece::{PIECE_BLOCKS, Piece};
use crate::trail::{Trail, note_sync, note_write};
use als_past::Past;
use std::alloc::{AllocError, Global};

impl Mirror {
    /// Blocks of zeros, all of them synced. It allocates 24 bytes for each 64 KiB.
    pub(crate) fn zeros(alloc: Global, blocks: u64) -> Result<Mirror, AllocError>
        ensures count { IfOk result (λ mirror. mirror_blocks mirror ≡ blocks) }
        ensures zeros { IfOk result (λ mirror. (k : ℕ) → mirror_slot mirror k ≡ only zeros) }
    {
        Ok(Mirror {
            alloc,
            blocks,
            pieces: empty_pieces(alloc, blocks)?,
            first: 0,
            highest: 0,
            keeps: Keeps::All,
            trail: Past::of(&Trail::Start),
        })
    }

    /// How many blocks there are.
    pub(crate) fn blocks(&self) -> u64
        ensures { result ≡ mirror_blocks self.now }
    {
        self.blocks
    }

    /// Keeps the piece of the highest block that is written from now on, and so many in front of
    /// it. Each sync forgets what lies below.
    pub(crate) fn keep_newest(&mut self, pieces: u64)
        ensures slots { SameBlocks (mirror_slot self.old) (mirror_slot self.new) }
        ensures count { mirror_blocks self.new ≡ mirror_blocks self.old }
    {
        self.keeps = Keeps::Newest(pieces);
        self.highest = 0;
    }

    /// How many pieces take memory.
    pub(crate) fn kept_pieces(&self) -> usize {
        self.pieces.iter().filter(|piece| !piece.is_zeros()).count()
    }

    /// Whether a block lies in a piece that is kept.
    pub(crate) fn keeps(&self, i: u64) -> bool {
        self.first <= i / PIECE_BLOCKS
    }

    /// The last contents of so many blocks of one piece, from one on, where it is kept.
    pub(crate) fn bytes(&self, from: u64, count: u64) -> Option<&[u8]> {
        let piece = self.pieces.get((from / PIECE_BLOCKS) as usize)?;
        piece.bytes((from % PIECE_BLOCKS) as usize, count as usize)
    }

    /// The last content of a block. It fails where the block is forgotten.
    pub(crate) fn read(&self, i: u64) -> Result<[u8; 512], DeviceError>
        requires { i < mirror_blocks self.now }
        ensures { IfOk result (λ block. block ≡ mirror_newest self.now i) }
    {
        let at = i / PIECE_BLOCKS;
        if at < self.first {
            return Err(DeviceError);
        }
        Ok(self.pieces[at as usize].block((i % PIECE_BLOCKS) as usize))
    }

    /// Gives a block another content. An `Err` changes none.
    pub(crate) fn write(&mut self, i: u64, block: &[u8; 512]) -> Result<(), AllocError>
        requires { i < mirror_blocks self.old }
        ensures ok { OnOk result (mirror_slot self.new i
            ≡ written (mirror_slot self.old i) block.now) }
        ensures err { OnErr result (SameBlocks (mirror_slot self.old) (mirror_slot self.new)) }
        ensures others { SameBlocksBut i (mirror_slot self.old) (mirror_slot self.new) }
        ensures count { mirror_blocks self.new ≡ mirror_blocks self.old }
    {
        let at = i / PIECE_BLOCKS;
        if at < self.first {
            note_write(&mut self.trail, i, block);
            return Ok(());
        }
        let piece = &mut self.pieces[at as usize];
        piece.make_room(self.alloc)?;
        piece.set((i % PIECE_BLOCKS) as usize, block);
        self.highest = self.highest.max(at);
        note_write(&mut self.trail, i, block);
        Ok(())
    }

    /// Makes the last content of each block the synced one: the only one that a crash may leave.
    /// Where only the newest pieces are kept, those below them are forgotten.
    pub(crate) fn settle(&mut self)
        ensures settled { (k : ℕ) → mirror_slot self.new k ≡ only (mirror_newest self.old k) }
        ensures kept { (k : ℕ) → KeepsReadable (mirror_slot self.old k) (mirror_slot self.new k) }
        ensures count { mirror_blocks self.new ≡ mirror_blocks self.old }
    {
        let first = self.first_kept();
        note_sync(&mut self.trail);
        release(self.alloc, &mut self.pieces, self.first, first);
        self.first = first;
    }

    /// The first piece that is kept from now on.
    fn first_kept(&self) -> u64
        ensures { self.now.first ≤ result }
    {
        match self.keeps {
            Keeps::All => self.first,
            Keeps::Newest(pieces) => self.first.max(self.highest.saturating_sub(pieces)),
        }
    }
}

/// Gives back the memory of a piece.
fn empty(alloc: Global, pieces: &mut Vec<Piece>, p: u64)
    requires { p < length pieces.old.items }
    ensures here { pieces.new.items ≡ slice_set pieces.old.items p [] }
    ensures count { length pieces.new.items ≡ length pieces.old.items }
{
    pieces[p as usize] = Piece::zeros(alloc);
}

/// Gives back the memory of the pieces from one on and in front of another.
fn release(alloc: Global, pieces: &mut Vec<Piece>, from: u64, to: u64)
    requires { from ≤ to }
    ensures kept { (p : ℕ) → to ≤ p → piece_in pieces.new.items p ≡ piece_in pieces.old.items p }
    ensures count { length pieces.new.items ≡ length pieces.old.items }
    ensures released { (p : ℕ) → from ≤ p → p < to → p < length pieces.old.items
        → piece_in pieces.new.items p ≡ [] }
{
    let end = to.min(pieces.len() as u64);
    let mut p = from;
    while p < end {
        empty(alloc, pieces, p);
        p += 1;
    }
}

/// The pieces of so many blocks of zeros.
fn empty_pieces(alloc: Global, blocks: u64) -> Result<Vec<Piece>, AllocError>
    ensures enough { IfOk result (λ pieces. blocks ≤ length pieces.items * 128) }
    ensures zeros { IfOk result (λ pieces. HoldNewest 0 pieces.items Start) }
{
    let count = blocks.div_ceil(PIECE_BLOCKS);
    let mut pieces = Vec::with_capacity(alloc, count as usize)?;
    for _ in 0..count {
        pieces.push(Piece::zeros(alloc))?;
    }
    Ok(pieces)
}
