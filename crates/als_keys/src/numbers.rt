ghost use Rattle.std.specs.Prelude.{◌≡◌};
ghost use Rattle.als_keys.specs.Numbers.{with_digit, number_of};

/// The number that these decimal digits spell. None: there is no digit, another byte is among them, or the
/// number does not fit 64 bits.
#[tactic(auto, using(crate::proofs::NumberLaws::number_taken))]
pub fn number(text: &[u8]) -> Option<u64>
    ensures { result ≡ number_of text.now }
{
    if text.is_empty() {
        return None;
    }
    let mut so_far = Some(0);
    for i in 0..text.len() {
        so_far = with_digit(so_far, text[i]);
    }
    so_far
}

/// A number with one more digit, if it was one and still fits.
fn with_digit(so_far: Option<u64>, c: u8) -> Option<u64>
    ensures { result ≡ with_digit so_far c }
{
    let so_far = so_far?;
    if c < b'0' || c > b'9' {
        return None;
    }
    so_far.checked_mul(10)?.checked_add(u64::from(c - b'0'))
}
