ghost use Rattle.std.specs.Prelude.{◌≤◌};
ghost use Rattle.als_record.specs.Spelled.{len_in};

use crate::image::{Image, Value};

/// An image whose bytes lie elsewhere and are not copied.
#[derive(Clone, Copy)]
pub struct ImageView<'a> {
    /// The value, at most 31 bytes; `None` where the key has nothing.
    pub bytes: Option<&'a [u8]>,
    pub ghost short: { len_in bytes ≤ 31 },
}

impl<'a> ImageView<'a> {
    ghost use Rattle.std.specs.Prelude.{◌≡◌, ◌≤◌};
    ghost use Rattle.als_record.specs.Images.{same_image};
    ghost use Rattle.als_record.specs.Shown.{shown_image};
    ghost use Rattle.als_record.specs.Spelling.{image_len};

    /// A view of an image.
    #[inline]
    pub fn of(image: &'a Image) -> ImageView<'a>
        ensures { shown_image result ≡ image.now }
    {
        match image {
            None => ImageView { bytes: None },
            Some(value) => ImageView {
                bytes: Some(value.as_slice()),
            },
        }
    }

    /// The image, copied. It takes no memory.
    #[inline(always)]
    pub fn to_image(&self) -> Image
        ensures { result ≡ shown_image self.now }
    {
        match self.bytes {
            None => None,
            Some(bytes) => match Value::try_from(bytes) {
                Ok(value) => Some(value),
                // It is at most 31 bytes long.
                Err(_) => unreachable!(),
            },
        }
    }

    /// The bytes of its value, 0 without one.
    #[inline]
    pub fn len(&self) -> usize
        ensures len { result ≡ image_len (shown_image self.now) }
        ensures limit { result ≤ 31 }
    {
        match self.bytes {
            None => 0,
            Some(bytes) => bytes.len(),
        }
    }

    /// Whether another view shows the same image.
    #[inline]
    pub fn is_same(&self, other: &ImageView<'_>) -> bool
        ensures { result ≡ same_image (shown_image self.now) (shown_image other.now) }
    {
        match (self.bytes, other.bytes) {
            (None, None) => true,
            (Some(one), Some(another)) => one == another,
            _ => false,
        }
    }
}
