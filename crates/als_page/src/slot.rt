ghost use Rattle.std.specs.Prelude.{◌≡◌, length, IfSome, Some};
ghost use Rattle.als_record.specs.Spelling.{Image as AnyImage, IsImage};
ghost use Rattle.als_page.specs.Block.{slot_bytes};

use als_record::{ImageView, KeptImage};

/// How many bytes of a block stand for a slot.
pub const SLOT: usize = 32;

/// Writes the bytes of a slot: those that the image is kept in.
pub fn write_slot(image: &KeptImage, into: &mut [u8])
    requires { length into.old ≡ 32 }
    ensures written { into.new ≡ slot_bytes image.now }
    ensures fits { IsImage image.now }
{
    let (first, rest) = into.split_at_mut(1);
    first[0] = image.first();
    rest.copy_from_slice(image.rest());
}

// The image that the first byte announces, if it may.
fn announced(bytes: &[u8]) -> Option<KeptImage>
    requires { length bytes.now ≡ 32 }
    ensures { (image : AnyImage) → IsImage image → bytes.now ≡ slot_bytes image
        → result ≡ Some image }
{
    match bytes[0] {
        0 => Some(KeptImage::absent()),
        first @ 1..=32 => Some(KeptImage::of(&ImageView {
            bytes: Some(&bytes[1..first as usize]),
        })),
        _ => None,
    }
}

/// The image whose slot has these bytes, if there is one.
pub fn read_slot(bytes: &[u8]) -> Option<KeptImage>
    requires { length bytes.now ≡ 32 }
    ensures found { IfSome result (λ image. (bytes.now ≡ slot_bytes image) × IsImage image) }
    ensures only { (image : AnyImage) → IsImage image → bytes.now ≡ slot_bytes image
        → result ≡ Some image }
{
    let image = announced(bytes)?;
    let mut spelled = [0; SLOT];
    write_slot(&image, &mut spelled);
    if spelled.as_slice() == bytes {
        Some(image)
    } else {
        None
    }
}
