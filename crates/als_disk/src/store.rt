// The contents that a device in memory keeps: of the last sync, by block, and since then in a map.
ghost use Rattle.std.specs.Prelude.{◌≡◌, ◌≢◌, ◌<◌, ◌∷◌, ℕ, List, length, drop, min};
ghost use Rattle.std.specs.Prelude.{slice_index, OnOk, OnErr};
ghost use Rattle.std.specs.Ordering.{nat_cmp};
ghost use Rattle.std.specs.BTreeMap.{get, ContainsKey, IsEmpty};
ghost use Rattle.als_disk.specs.Crash.{LeavesPicked, choices_below, picked};
ghost use Rattle.als_disk.specs.Slot.{written, KeepsReadable, SameBlocks, SameBlocksBut};
ghost use Rattle.als_disk.specs.Store.{synced_content, slot_with, slot_of, newest_of, HasRoom};
ghost use Rattle.als_disk.specs.Store.{IsInRange};
ghost use Rattle.als_disk.specs.Unsynced.{contents};

use crate::content::Content;
use crate::synced::Synced;
use crate::unsynced::Unsynced;
use std::alloc::{AllocError, Global};
use std::collections::BTreeMap;

pub(crate) type Writes = BTreeMap<u64, Unsynced>;

/// Makes a content the synced one of a block.
fn replace(synced: &mut Synced, i: u64, content: Content)
    requires { i < length synced.old }
    ensures content { synced_content synced.new i ≡ content }
    ensures others { (k : ℕ) → k ≢ i → synced_content synced.new k ≡ synced_content synced.old k }
    ensures kept { length synced.new ≡ length synced.old }
{
    synced.set(i, content);
}

/// Adds a content to what was written to a block.
fn note(alloc: Global, unsynced: &mut Writes, i: u64, block: &[u8; 512]) -> Result<(), AllocError>
    ensures ok { OnOk result ((content : List ℕ)
        → slot_with content (get nat_cmp unsynced.new i)
        ≡ written (slot_with content (get nat_cmp unsynced.old i)) block.now) }
    ensures err { OnErr result ((content : List ℕ) (k : ℕ)
        → slot_with content (get nat_cmp unsynced.new k)
        ≡ slot_with content (get nat_cmp unsynced.old k)) }
    ensures others { (k : ℕ) → k ≢ i → get nat_cmp unsynced.new k ≡ get nat_cmp unsynced.old k }
    ensures err_keys { OnErr result ((k : ℕ) → ContainsKey nat_cmp unsynced.new k
        → ContainsKey nat_cmp unsynced.old k) }
{
    match unsynced.get_mut(&i) {
        Some(writes) => writes.push(block),
        None => {
            unsynced.insert(i, Unsynced::new(alloc, block)?)?;
            Ok(())
        }
    }
}

/// Writes a block. Where there is no memory for its content, each block stays as it was.
pub(crate) fn put(
    alloc: Global,
    synced: &mut Synced,
    unsynced: &mut Writes,
    i: u64,
    block: &[u8; 512],
) -> Result<(), AllocError>
    requires { HasRoom synced.old unsynced.old }
    ensures ok { OnOk result (slot_of synced.new unsynced.new i
        ≡ written (slot_of synced.old unsynced.old i) block.now) }
    ensures err { OnErr result (SameBlocks (slot_of synced.old unsynced.old)
        (slot_of synced.new unsynced.new)) }
    ensures others { SameBlocksBut i (slot_of synced.old unsynced.old)
        (slot_of synced.new unsynced.new) }
    ensures room { HasRoom synced.new unsynced.new }
    ensures in_range { (blocks : ℕ) → i < blocks → IsInRange unsynced.old blocks
        → IsInRange unsynced.new blocks }
{
    synced.make_room(i)?;
    note(alloc, unsynced, i, block)
}

/// The newest content of a block.
pub(crate) fn newest(synced: &Synced, unsynced: &Writes, i: u64) -> [u8; 512]
    ensures { result ≡ newest_of synced.now unsynced.now i }
{
    match unsynced.get(&i) {
        Some(writes) => writes.last.block(),
        None => synced.block(i),
    }
}

/// Makes the newest content of each block the synced one.
pub(crate) fn settle(synced: &mut Synced, unsynced: &mut Writes)
    requires { HasRoom synced.old unsynced.old }
    ensures readable { (k : ℕ) → KeepsReadable (slot_of synced.old unsynced.old k)
        (slot_of synced.new unsynced.new k) }
    ensures empty { IsEmpty unsynced.new }
{
    while let Some((i, writes)) = unsynced.pop_first() {
        replace(synced, i, writes.into_last());
    }
}

/// The first pick, which is 0 if it is missing, and the others.
fn first_pick(picks: &[u8]) -> (u8, &[u8])
    ensures pick { result.0 ≡ slice_index picks.now 0 }
    ensures others { result.1.now ≡ drop 1 picks.now }
{
    match picks.split_first() {
        Some((first, others)) => (*first, others),
        None => (0, picks),
    }
}

/// Makes one candidate of a block the synced one.
fn settle_one(synced: &mut Synced, i: u64, writes: Unsynced, pick: u8)
    requires { i < length synced.old }
    ensures picked { synced_content synced.new i
        ≡ picked (synced_content synced.old i ∷ contents writes) pick }
    ensures others { (k : ℕ) → k ≢ i → synced_content synced.new k ≡ synced_content synced.old k }
    ensures kept { length synced.new ≡ length synced.old }
{
    if let Some(content) = writes.into_pick(pick) {
        replace(synced, i, content);
    }
}

/// Makes the candidate that each block picks the synced one, and tells how many picks were used.
pub(crate) fn settle_by(synced: &mut Synced, unsynced: &mut Writes, picks: &[u8]) -> usize
    requires { HasRoom synced.old unsynced.old }
    ensures picked { LeavesPicked (slot_of synced.old unsynced.old) picks.now
        (slot_of synced.new unsynced.new) }
    ensures used { (blocks : ℕ) → IsInRange unsynced.old blocks
        → result ≡ min (length picks.now) (choices_below (slot_of synced.old unsynced.old) blocks) }
    ensures empty { IsEmpty unsynced.new }
{
    let mut left = picks;
    while let Some((i, writes)) = unsynced.pop_first() {
        let (pick, others) = first_pick(left);
        settle_one(synced, i, writes, pick);
        left = others;
    }
    picks.len() - left.len()
}
