ghost use Rattle.std.specs.Prelude.{◌≡◌, ◌↔◌, ◌≤◌, ◌∷◌, length, take, drop, IsTrue};
ghost use Rattle.als_record.specs.KeptImages.{first_of, rest_of};

use als_record::{KeptImage, SLOT_COUNT};

/// Whether two kept images are the same. It compares the 32 bytes in which they are kept, all of
/// them, eight at once.
#[inline(always)]
pub fn same_image(one: &KeptImage, other: &KeptImage) -> bool
    ensures { IsTrue result ↔ (one.now ≡ other.now) }
{
    same_eight(first_eight(one), first_eight(other)) && same_tail(one.rest(), other.rest())
}

// The first eight of the bytes in which an image is kept.
#[inline(always)]
fn first_eight(image: &KeptImage) -> [u8; 8]
    ensures { result ≡ first_of image.now ∷ take 7 (rest_of image.now) }
{
    let first = image.first();
    let (b, _) = image.rest().split_at(7);
    [first, b[0], b[1], b[2], b[3], b[4], b[5], b[6]]
}

// Whether the bytes from the seventh on are the same.
#[inline(always)]
fn same_tail(one: &[u8; 31], other: &[u8; 31]) -> bool
    ensures { IsTrue result ↔ (drop 7 one.now ≡ drop 7 other.now) }
{
    if !same_eight(eight(one, 7), eight(other, 7)) {
        return false;
    }
    if !same_eight(eight(one, 15), eight(other, 15)) {
        return false;
    }
    same_eight(eight(one, 23), eight(other, 23))
}

// Eight bytes from a place on.
#[inline(always)]
fn eight(bytes: &[u8; 31], at: usize) -> [u8; 8]
    requires { at ≤ 23 }
    ensures { result ≡ take 8 (drop at bytes.now) }
{
    let (_, rest) = bytes.split_at(at);
    let (b, _) = rest.split_at(8);
    [b[0], b[1], b[2], b[3], b[4], b[5], b[6], b[7]]
}

// Whether eight bytes are the same, as one word.
#[inline(always)]
fn same_eight(one: [u8; 8], other: [u8; 8]) -> bool
    ensures { IsTrue result ↔ (one ≡ other) }
{
    u64::from_le_bytes(one) == u64::from_le_bytes(other)
}

/// Whether the slots of two pages have the same images.
pub fn same_images(one: &[KeptImage; SLOT_COUNT], other: &[KeptImage; SLOT_COUNT]) -> bool
    requires one { length one.now ≡ 15 }
    requires other { length other.now ≡ 15 }
    ensures { IsTrue result ↔ (one.now ≡ other.now) }
{
    for i in 0..SLOT_COUNT {
        if !same_image(&one[i], &other[i]) {
            return false;
        }
    }
    true
}
