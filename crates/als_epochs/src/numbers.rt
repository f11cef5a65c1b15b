ghost use Rattle.std.specs.Prelude.{◌≡◌, length};
ghost use Rattle.std.specs.Int.{w64, to_be_bytes};

/// The number that eight bytes spell.
fn long_of(bytes: [u8; 8]) -> u64
    ensures { to_be_bytes w64 result ≡ bytes }
{
    u64::from_be_bytes(bytes)
}

/// The number that eight bytes of a longer text spell.
pub(crate) fn long_in(bytes: &[u8]) -> u64
    requires { length bytes.now ≡ 8 }
    ensures { to_be_bytes w64 result ≡ bytes.now }
{
    let mut eight = [0u8; 8];
    eight.copy_from_slice(bytes);
    long_of(eight)
}
