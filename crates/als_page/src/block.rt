ghost use Rattle.std.specs.Prelude.{◌≡◌, ◌*◌, ◌+◌, ◌<◌, ◌≤◌, ◌↔◌, List, length, IsTrue, IfSome};
ghost use Rattle.std.specs.Prelude.{Some, None, replicate};
ghost use Rattle.std.specs.List.{flat_map, AllByRecursion};
ghost use Rattle.als_record.specs.Spelling.{Image as AnyImage, IsImage};
ghost use Rattle.als_page.specs.Block.{slot_bytes, head_bytes};

use crate::slot::{SLOT, read_slot, write_slot};
use als_record::{BLOCK_LEN, KeptImage, Lsn, SLOT_COUNT};

/// How many bytes of a block stand before its slots.
pub const HEAD: usize = 32;

// A block of zeros is the empty page.
static ZEROS: [u8; BLOCK_LEN] = [0; BLOCK_LEN];

/// What follows a page's number in the head: version 1, and zeros.
const VERSION: [u8; 20] = [0, 1, 0, 0, 0, 0, 0, 0, 0, 0, 0, 0, 0, 0, 0, 0, 0, 0, 0, 0];

/// Writes the head of a block.
pub fn write_head(lsn: Lsn, id: u32, into: &mut [u8])
    requires { length into.old ≡ 32 }
    ensures { into.new ≡ head_bytes lsn.0 id }
{
    let (at_lsn, rest) = into.split_at_mut(8);
    let (at_id, rest) = rest.split_at_mut(4);
    at_lsn.copy_from_slice(&lsn.0.to_be_bytes());
    at_id.copy_from_slice(&id.to_be_bytes());
    rest.copy_from_slice(&VERSION);
}

/// Writes the bytes of slots, one after another.
pub fn write_slots(images: &[KeptImage], into: &mut [u8])
    requires count { length images.now ≤ 15 }
    requires room { length into.old ≡ 32 * length images.now }
    ensures written { into.new ≡ flat_map slot_bytes images.now }
    ensures fits { AllByRecursion IsImage images.now }
{
    for (i, image) in images.iter().enumerate() {
        write_slot(image, &mut into[SLOT * i..SLOT * i + SLOT]);
    }
}

/// The images whose slots have these bytes, if there are such.
pub fn read_slots(bytes: &[u8]) -> Option<[KeptImage; SLOT_COUNT]>
    requires { length bytes.now ≡ 480 }
    ensures found { IfSome result (λ images. (bytes.now ≡ flat_map slot_bytes images)
        × (length images ≡ 15)
        × AllByRecursion IsImage images) }
    ensures only { (images : List AnyImage) → length images ≡ 15 → AllByRecursion IsImage images
        → bytes.now ≡ flat_map slot_bytes images → result ≡ Some images }
{
    let mut images = no_images();
    for i in 0..SLOT_COUNT {
        images[i] = read_slot(&bytes[SLOT * i..SLOT * i + SLOT])?;
    }
    Some(images)
}

/// Slots of which none has a value.
pub fn no_images() -> [KeptImage; SLOT_COUNT]
    ensures { result ≡ replicate 15 None }
{
    [KeptImage::absent(); SLOT_COUNT]
}

/// Whether these bytes are the head of a page's block.
pub fn is_head(lsn: Lsn, id: u32, head: &[u8]) -> bool
    ensures { IsTrue result ↔ (head.now ≡ head_bytes lsn.0 id) }
{
    let mut spelled = [0; HEAD];
    write_head(lsn, id, &mut spelled);
    spelled.as_slice() == head
}

/// Whether all bytes of a block are zero.
pub fn is_zero(block: &[u8; BLOCK_LEN]) -> bool
    ensures { IsTrue result ↔ (block.now ≡ replicate 512 0) }
{
    block.as_slice() == ZEROS.as_slice()
}
