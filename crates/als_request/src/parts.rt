ghost use Rattle.std.specs.Prelude.{◌≡◌};
ghost use Rattle.json.specs.Value.{value_view};
ghost use Rattle.als_request.specs.Asking.{with_digit, number_of, natural_in, key_from, key_in};
ghost use Rattle.als_request.specs.Asking.{value_of, image_in};

use als_record::{ImageView, KeptImage, Key};
use json::Value;

/// The number that these decimal digits spell. None: there is no digit, another byte is among them, or the
/// number does not fit 64 bits.
#[tactic(auto, using(crate::proofs::NumberLaws::number_taken))]
fn number(text: &[u8]) -> Option<u64>
    ensures { result ≡ number_of text.now }
{
    if text.is_empty() {
        return None;
    }
    let mut so_far = Some(0);
    for i in 0..text.len() {
        so_far = with_digit(so_far, text[i]);
    }
    so_far
}

/// A number with one more digit, if it was one and still fits.
fn with_digit(so_far: Option<u64>, digit: u8) -> Option<u64>
    ensures { result ≡ with_digit so_far digit }
{
    let so_far = so_far?;
    if digit < b'0' || digit > b'9' {
        return None;
    }
    so_far.checked_mul(10)?.checked_add(u64::from(digit - b'0'))
}

/// Reads a whole number from a value.
pub(crate) fn natural(value: &Value<'_>) -> Option<u64>
    ensures { result ≡ natural_in (value_view value.now) }
{
    number(value.as_number()?.as_bytes())
}

/// The key with this page and slot, if they are in range.
fn key_from(page: u64, slot: u64) -> Option<Key>
    ensures { result ≡ key_from page slot }
{
    if page > 4_294_967_295 || slot > 255 {
        return None;
    }
    Some(Key {
        page: page as u32,
        slot: slot as u8,
    })
}

/// Reads a key from a value: an array of a page and a slot.
pub(crate) fn key(value: &Value<'_>) -> Option<Key>
    ensures { result ≡ key_in (value_view value.now) }
{
    if value.at(2).is_some() {
        return None;
    }
    let page = natural(value.at(0)?)?;
    let slot = natural(value.at(1)?)?;
    key_from(page, slot)
}

/// Reads an image from hexadecimal digits.
fn value_of(digits: &[u8]) -> Option<KeptImage>
    ensures { result ≡ value_of digits.now }
{
    let mut bytes = [0; 31];
    if digits.len() > 62 {
        return None;
    }
    let size = digits.len() / 2;
    match hex::decode_to_slice(digits, &mut bytes[..size]) {
        Ok(()) => Some(KeptImage::of(&ImageView {
            bytes: Some(&bytes[..size]),
        })),
        Err(_) => None,
    }
}

/// Reads an image from a value: null is no value.
pub(crate) fn image(value: &Value<'_>) -> Option<KeptImage>
    ensures { result ≡ image_in (value_view value.now) }
{
    if value.is_null() {
        return Some(KeptImage::absent());
    }
    value_of(value.as_str()?.as_bytes())
}
