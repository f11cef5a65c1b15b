ghost use Rattle.std.specs.Prelude.{◌≤◌};

use als_compare::RANK_TAG;
use als_shipper::{FRONT, LONGEST, RESUME, TAKEOVERS};
use std::io;
use std::io::Read;

/// A follower's question, which is read before the log is opened that it asks for.
#[derive(Drop)]
pub(crate) struct Question {
    bytes: [u8; LONGEST],
    count: usize,
}

impl Question {
    /// Reads one. Of what is none a front is read. The question for a rank is one byte.
    pub fn read<I: Read>(reader: &mut I) -> io::Result<Question> {
        let mut bytes = [0; LONGEST];
        reader.read_exact(&mut bytes[..1])?;
        if bytes[0] == RANK_TAG {
            return Ok(Question { bytes, count: 1 });
        }
        reader.read_exact(&mut bytes[1..FRONT])?;
        let count = FRONT + 8 * seals_in(&bytes);
        reader.read_exact(&mut bytes[FRONT..count])?;
        Ok(Question { bytes, count })
    }

    /// The bytes that were read.
    pub fn as_slice(&self) -> &[u8] {
        &self.bytes[..self.count.min(LONGEST)]
    }
}

/// So many seals follow a front. None follows the front of what is no Resume frame.
fn seals_in(bytes: &[u8; LONGEST]) -> usize
    ensures { result ≤ 32 }
{
    let count = u32::from_be_bytes([bytes[25], bytes[26], bytes[27], bytes[28]]);
    if bytes[0] == RESUME && count <= TAKEOVERS {
        count as usize
    } else {
        0
    }
}
