ghost use Rattle.std.specs.Prelude.{◌≡◌, ◌≤◌, ◌-◌, ◌++◌, length, replicate, Some, None};
ghost use Rattle.als_record.specs.Images.{same_image};
ghost use Rattle.als_record.specs.KeptImages.{first_of, rest_of};
ghost use Rattle.als_record.specs.Shown.{shown_image};

use crate::image::Image;
use crate::image_view::ImageView;
use std::marker::Model;

/// An image in 32 bytes: one that says how long its value is, and 31 with the value. It is copied
/// as it stands.
#[derive(Clone, Copy)]
pub struct KeptImage {
    // 0 for none, else a value's length and one.
    first: u8,
    // The value's bytes, and zeros behind them.
    rest: [u8; 31],
}

impl Model for KeptImage {
    ghost use Rattle.std.specs.Prelude.{◌≡◌, ◌≤◌, length};
    ghost use Rattle.als_record.specs.Spelling.{Image};
    ghost use Rattle.std.proofs.Common.{sym};
    ghost use Rattle.als_record.specs.KeptImages.{image_kept, first_of, rest_of};
    ghost use Rattle.als_record.specs.KeptImages.{first_of-image_kept};

    ghost Value = { Image };

    ghost view = { λ k. image_kept k.first k.rest };

    // The last one: the bytes behind the value are zeros, so an image is kept in one way alone.
    ghost invariant = { λ k. (k.first ≤ 32) × (length k.rest ≡ 31)
        × (k.rest ≡ rest_of (image_kept k.first k.rest)) };

    ghost inverse = { λ image. record { first = first_of image; rest = rest_of image } };

    ghost inverse_ok = { λ k h i. record {
      first = first_of-image_kept k.first k.rest h.0 h.1 i;
      rest = sym h.2 i;
    } };
}

impl KeptImage {
    /// No value.
    #[inline]
    pub fn absent() -> KeptImage
        ensures { result ≡ None }
    {
        KeptImage {
            first: 0,
            rest: [0; 31],
        }
    }

    /// The image that a view shows, copied.
    #[inline]
    pub fn of(image: &ImageView<'_>) -> KeptImage
        ensures kept { result ≡ shown_image image.now }
    {
        match image.bytes {
            None => KeptImage::absent(),
            Some(bytes) => KeptImage::of_value(bytes),
        }
    }

    /// The value of these bytes.
    #[inline(always)]
    fn of_value(bytes: &[u8]) -> KeptImage
        requires { length bytes.now ≤ 31 }
        ensures kept { result ≡ Some (record { items = bytes.now }) }
    {
        KeptImage {
            first: bytes.len() as u8 + 1,
            rest: padded(bytes),
        }
    }

    /// The image, copied. It takes no memory.
    #[inline(always)]
    pub fn image(&self) -> Image
        ensures { result ≡ self.now }
    {
        self.shown().to_image()
    }

    /// The image where it lies.
    #[inline(always)]
    pub fn shown(&self) -> ImageView<'_>
        ensures { shown_image result ≡ self.now }
    {
        if self.first == 0 {
            return ImageView { bytes: None };
        }
        ImageView {
            bytes: Some(&self.rest[..self.first as usize - 1]),
        }
    }

    /// Whether a view shows this image.
    #[inline]
    pub fn is(&self, image: &ImageView<'_>) -> bool
        ensures { result ≡ same_image (shown_image image.now) self.now }
    {
        image.is_same(&self.shown())
    }

    /// Its first byte: 0 where there is no value, else the value's length and one.
    #[inline]
    pub fn first(&self) -> u8
        ensures { result ≡ first_of self.now }
    {
        self.first
    }

    /// Its other bytes: those of the value, and zeros behind them.
    #[inline]
    pub fn rest(&self) -> &[u8; 31]
        ensures { result.now ≡ rest_of self.now }
    {
        &self.rest
    }
}

// These bytes, and zeros behind them.
#[inline(always)]
fn padded(bytes: &[u8]) -> [u8; 31]
    requires { length bytes.now ≤ 31 }
    ensures { result ≡ bytes.now ++ replicate (31 - length bytes.now) 0 }
{
    let mut all = [0; 31];
    all[..bytes.len()].copy_from_slice(bytes);
    all
}
