ghost use Rattle.std.specs.Prelude.{◌≡◌, ◌≤◌, ◌<◌, ◌^◌, vec_len, IfOk, IfErr, IfSome};
ghost use Rattle.als_operate.specs.FaultNames.{IsOfReader};

use als_operate::Fault;
use std::alloc::Global;
use std::io::Read;

/// All bytes of the reader, unless they are more than the limit.
///
/// Stream: the reader failed, or it has more. Memory: there was none for the bytes.
pub fn read_whole<R: Read + Drop>(alloc: Global, reader: R, limit: u64) -> Result<Vec<u8>, Fault>
    requires { limit < 2 ^ 63 }
    ensures whole { IfOk result (λ v. IfSome (R.remaining reader) (λ bytes. v.items ≡ bytes)) }
    ensures limit { IfOk result (λ v. vec_len v ≤ limit) }
    ensures fails { IfErr result IsOfReader }
{
    let mut bytes = Vec::new(alloc);
    reader.take(limit + 1).read_to_end(&mut bytes)?;
    if bytes.len() as u64 > limit {
        return Err(Fault::Stream);
    }
    Ok(bytes)
}
