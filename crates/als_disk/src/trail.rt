ghost use Rattle.std.specs.Prelude.{◌≡◌, nat_eq, ℕ, if◌then◌else◌};
ghost use Rattle.als_disk.specs.Slot.{only, written};
ghost use Rattle.als_disk.specs.Trail.{slot_in, newest_in};

use als_past::Past;
use std::mem::replace;

/// The writes and the syncs of a device, one after another, for clauses alone: it takes no bytes.
#[derive(Drop)]
pub(crate) enum Trail {
    /// Every block has been zeros.
    Start,
    Wrote(Past<Trail>, Past<u64>, Past<[u8; 512]>),
    Synced(Past<Trail>),
}

/// Notes a write.
#[tactic(auto, unfolding(crate::specs::Trail::slot_in, crate::specs::Trail::newest_in))]
pub(crate) fn note_write(trail: &mut Past<Trail>, i: u64, block: &[u8; 512])
    ensures slot { (k : ℕ) → slot_in trail.new.value k
        ≡ (if nat_eq k i then written (slot_in trail.old.value k) block.now else
        slot_in trail.old.value k) }
    ensures newest { (k : ℕ) → newest_in trail.new.value k
        ≡ (if nat_eq k i then block.now else newest_in trail.old.value k) }
{
    let before = replace(trail, Past::of(&Trail::Start));
    *trail = Past::of(&Trail::Wrote(before, Past::of(&i), Past::of(block)));
}

/// Notes a sync.
#[tactic(auto, unfolding(crate::specs::Trail::slot_in, crate::specs::Trail::newest_in))]
pub(crate) fn note_sync(trail: &mut Past<Trail>)
    ensures slot { (k : ℕ) → slot_in trail.new.value k ≡ only (newest_in trail.old.value k) }
    ensures newest { (k : ℕ) → newest_in trail.new.value k ≡ newest_in trail.old.value k }
{
    let before = replace(trail, Past::of(&Trail::Start));
    *trail = Past::of(&Trail::Synced(before));
}
