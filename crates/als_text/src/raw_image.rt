ghost use Rattle.std.specs.Prelude.{◌≡◌, ◌≤◌, length};
ghost use Rattle.als_record.specs.Spelling as spelling;

use arrayvec::ArrayVec;

/// An image of a raw record: absent, or a value of up to 254 bytes, which may be too long for a
/// record that is held.
pub type RawImage = Option<ArrayVec<u8, 254>>;

/// The byte of a record that says how long the image is; 255 says that it is absent.
pub fn length_byte(image: &RawImage) -> u8
    ensures { result ≡ spelling.length_byte image.now }
{
    match image {
        Some(value) => value.as_slice().len() as u8,
        None => 255,
    }
}

/// The bytes of the image in a record: none where it is absent.
pub fn image_bytes(image: &RawImage) -> &[u8]
    ensures bytes { result.now ≡ spelling.image_bytes image.now }
    ensures limit { length result.now ≤ 254 }
{
    match image {
        Some(value) => value.as_slice(),
        None => &[],
    }
}
