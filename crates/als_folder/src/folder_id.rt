use std::io;
use std::random::RandomSource;

/// The bytes of an id.
pub(crate) const ID_BYTES: u64 = 16;

/// Which folder one is, whatever address its standby comes from: drawn at random, once.
#[derive(Clone, Copy, Debug, PartialEq, Eq)]
pub struct FolderId {
    pub bytes: [u8; 16],
}

impl FolderId {
    /// A new one. An error: the system gave no random bytes.
    pub fn draw<R: RandomSource>(rt: &R) -> io::Result<FolderId> {
        let mut bytes = [0; 16];
        rt.fill_bytes(&mut bytes)?;
        Ok(FolderId { bytes })
    }
}
