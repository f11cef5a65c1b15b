ghost use Rattle.std.specs.Prelude.{◌≡◌, ◌↔◌, ◌+◌, ◌<◌, ◌≤◌, IsTrue, length, IfOk, IfErr};
ghost use Rattle.als_ckpt_codec.specs.Checkpoint.{checkpoint_bytes};
ghost use Rattle.als_ckpt.specs.Regions.{blocks_for, blocks_of, first_block, part_of, with_block};
ghost use Rattle.als_ckpt.specs.Regions.{with_sync, position_of, HasBlockLeft, IsWhole, IsBegun};

use crate::fault::Fault;
use crate::region::Region;
use als_ckpt_codec::{Checkpoint, encode_checkpoint};
use als_past::Past;
use als_record::{BLOCK_LEN, Lsn};
use std::alloc::Global;
use std::marker::Model;

/// A checkpoint that is being written: its bytes, and how many of their blocks are written and
/// synced.
#[derive(Drop)]
pub(crate) struct Begun {
    pub(crate) region: Region,
    pub(crate) position: Lsn,
    pub(crate) bytes: Vec<u8>,
    pub(crate) checkpoint: Past<Checkpoint>,
    pub(crate) written: u64,
    pub(crate) synced: u64,
}

impl Model for Begun {
    ghost use Rattle.als_ckpt.specs.Regions.{Begun as Progress};
    ghost use Rattle.als_ckpt.specs.Kept.{IsSpelled};

    ghost Value = { Progress };

    ghost view = { λ b. record {
      region = b.region;
      checkpoint = b.checkpoint.value;
      written = b.written;
      synced = b.synced;
    } };

    ghost invariant = { λ b. IsSpelled b.checkpoint.value b.position b.bytes.items b.written
        b.synced };
}

/// How many blocks so many bytes take.
#[tactic(auto, unfolding(crate::specs::Regions::blocks_for))]
pub(crate) fn blocks_for(len: usize) -> u64
    requires { len ≤ 81920 }
    ensures { result ≡ blocks_for len }
{
    (len as u64 + 511) / 512
}

/// Block b of a checkpoint, with zeros behind its last byte.
fn part_at(bytes: &[u8], b: u64) -> [u8; BLOCK_LEN]
    requires below { b < blocks_for (length bytes.now) }
    requires few { length bytes.now ≤ 81920 }
    ensures { result ≡ part_of bytes.now b }
{
    let mut block = [0; BLOCK_LEN];
    let (_, rest) = bytes.split_at(512 * b as usize);
    let (front, _) = rest.split_at(rest.len().min(BLOCK_LEN));
    block[..front.len()].copy_from_slice(front);
    block
}

impl Begun {
    /// A checkpoint of which no block is written.
    ///
    /// `Memory`: its bytes found no room.
    pub(crate) fn new(alloc: Global, region: Region, checkpoint: Checkpoint) -> Result<Begun, Fault>
        ensures ok { IfOk result (λ b. b
            ≡ record { region = region; checkpoint = checkpoint; written = 0; synced = 0 }) }
        ensures few { IfOk result (λ b. blocks_of b.checkpoint ≤ 160) }
        ensures memory { IfErr result (λ f. f ≡ Fault.Memory) }
    {
        let kept = Past::of(&checkpoint);
        let position = checkpoint.numbers.position;
        let bytes = encode_checkpoint(alloc, checkpoint)?;
        Ok(Begun {
            region,
            position,
            bytes,
            checkpoint: kept,
            written: 0,
            synced: 0,
        })
    }

    /// Whether a block is not written yet.
    pub(crate) fn has_block_left(&self) -> bool
        ensures left { IsTrue result ↔ HasBlockLeft self.now }
        ensures facts { IsBegun self.now }
    {
        self.written < blocks_for(self.bytes.len())
    }

    /// Whether each block is written and synced.
    pub(crate) fn is_whole(&self) -> bool
        ensures whole { IsTrue result ↔ IsWhole self.now }
        ensures facts { IsBegun self.now }
    {
        blocks_for(self.bytes.len()) <= self.synced
    }

    /// Where the next block goes, and what it holds.
    pub(crate) fn next_block(&self) -> (u64, [u8; BLOCK_LEN])
        requires { HasBlockLeft self.now }
        ensures place { result.0 ≡ first_block self.now.region + self.now.written }
        ensures content { result.1 ≡ part_of
            (checkpoint_bytes self.now.checkpoint) self.now.written }
        ensures facts { IsBegun self.now }
    {
        let place = self.region.first_block() + self.written;
        (place, part_at(self.bytes.as_slice(), self.written))
    }

    /// The checkpoint's position.
    pub(crate) fn position(&self) -> Lsn
        ensures { result ≡ self.now.checkpoint.numbers.position }
    {
        self.position
    }

    /// The next block is written.
    pub(crate) fn note_written(&mut self)
        requires { HasBlockLeft self.old }
        ensures { self.new ≡ with_block self.old }
    {
        self.written += 1;
    }

    /// The device is synced.
    pub(crate) fn note_synced(&mut self)
        ensures { self.new ≡ with_sync self.old }
    {
        self.synced = self.written;
    }

    /// The region, and the checkpoint that is written there.
    pub(crate) fn into_whole(self) -> (Region, Past<Checkpoint>)
        ensures region { result.0 ≡ self.region }
        ensures checkpoint { result.1.value ≡ self.checkpoint }
    {
        let Begun {
            region,
            checkpoint,
            ..
        } = self;
        (region, checkpoint)
    }
}
