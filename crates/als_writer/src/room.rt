ghost use Rattle.std.specs.Prelude.{◌≡◌, ℕ, ◌+◌, ◌*◌, ◌<◌, ◌≤◌, List, length, All};
ghost use Rattle.std.specs.List.{AllByRecursion};
ghost use Rattle.als_record.specs.Spelling.{image_len, IsImage};
ghost use Rattle.als_record.specs.declared.record.Record.{Record as AnyRecord};
ghost use Rattle.als_writing.specs.Writing.{room_for};
ghost use Rattle.als_writer.specs.Placing.{AreBefores};
ghost use Rattle.als_writer.specs.Checking.{AreApart};

use crate::set::Set;
use als_record::KeptImage;

/// The most bytes of the log device that a transaction takes on the way, its reserve with them. Each
/// set's key has this image before it.
pub(crate) fn room(sets: &[Set], befores: &[KeptImage]) -> u64
    requires same { length befores.now ≡ length sets.now }
    requires few { length sets.now ≤ 600 }
    ensures room { (log : List AnyRecord) → (t : ℕ) → AreBefores log sets.now befores.now
        → AreApart sets.now → result ≡ room_for log t sets.now }
    ensures most { result ≤ 170 * length sets.now + 28 }
    // Each value has at most 31 bytes.
    ensures images { All (λ w. IsImage w.after) sets.now }
{
    let mut bytes = 28;
    for i in 0..sets.len() {
        bytes += update_room(&sets[i], &befores[i]);
    }
    bytes
}

/// What the update of a set takes: its record, and the compensation that would undo it.
fn update_room(set: &Set, before: &KeptImage) -> u64
    ensures room { result ≡ 77 + 2 * image_len before.now + image_len set.now.after }
    ensures most { result ≤ 170 }
    ensures image { IsImage set.now.after }
{
    let after = value_len(&set.image);
    77 + 2 * value_len(before) + after
}

/// The bytes of an image's value, 0 without one.
fn value_len(image: &KeptImage) -> u64
    ensures len { result ≡ image_len image.now }
    ensures most { result ≤ 31 }
    ensures fits { IsImage image.now }
{
    match image.shown().bytes {
        None => 0,
        Some(bytes) => bytes_len(bytes),
    }
}

/// The number of some bytes.
fn bytes_len(bytes: &[u8]) -> u64
    ensures len { result ≡ length bytes.now }
    ensures fit { AllByRecursion (λ b. b < 256) bytes.now }
{
    bytes.len() as u64
}
