use std::alloc::Global;
use std::fs::OpenFile;
use std::io;
use std::os::unix::fs::FileExt;

/// How many bytes are read at once: 1 MiB.
const PIECE: u64 = 1 << 20;

/// Whether each byte of a file is zero from this one on.
pub(crate) fn is_zero_from<F: OpenFile + FileExt>(
    alloc: Global,
    file: &F,
    from: u64,
) -> io::Result<bool> {
    let len = file.metadata()?.len();
    let mut piece = vec![in alloc; 0_u8; PIECE as usize]?;
    let mut at = from;
    while at < len {
        let count = (len - at).min(PIECE);
        let bytes = &mut piece[..count as usize];
        file.read_exact_at(bytes, at)?;
        if !is_zero(bytes) {
            return Ok(false);
        }
        at += count;
    }
    Ok(true)
}

/// Whether each byte is zero.
fn is_zero(bytes: &[u8]) -> bool {
    for byte in bytes {
        if *byte != 0 {
            return false;
        }
    }
    true
}
