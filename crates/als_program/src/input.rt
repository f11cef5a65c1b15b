ghost use Rattle.std.specs.Prelude.{◌≡◌, ◌≤◌, vec_len, IfOk, IfSome};

use crate::input_fault::InputFault;
use std::alloc::Global;
use std::io::Read;

/// The most bytes of standard input that the program takes.
const INPUT_LIMIT: u64 = 16_777_216;

/// All bytes of the reader, which is standard input.
///
/// TooLong: it has more than 16,777,216. Unreadable: it fails. Memory: there was none for the
/// bytes.
pub fn read_input<R: Read + Drop>(alloc: Global, reader: R) -> Result<Vec<u8>, InputFault>
    ensures whole { IfOk result (λ v. IfSome (R.remaining reader) (λ bytes. v.items ≡ bytes)) }
    ensures limit { IfOk result (λ v. vec_len v ≤ 16777216) }
{
    let mut bytes = Vec::new(alloc);
    reader.take(INPUT_LIMIT + 1).read_to_end(&mut bytes)?;
    if bytes.len() as u64 > INPUT_LIMIT {
        return Err(InputFault::TooLong);
    }
    Ok(bytes)
}
