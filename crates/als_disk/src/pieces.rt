// Files, piece by piece.
ghost use Rattle.std.specs.Prelude.{◌≡◌, ◌<◌, ◌*◌, ◌^◌, vec_len, IfOk};

use std::alloc::{AllocError, Global};
use std::io;
use std::os::unix::fs::FileExt;

/// How many blocks are read or written at once: those of 1 MiB.
pub(crate) const PIECE: u64 = 2048;

/// A piece of zeros.
pub(crate) fn zero_piece(alloc: Global) -> Result<Vec<[u8; 512]>, AllocError>
    ensures { IfOk result (λ piece. vec_len piece ≡ 2048) }
{
    vec![in alloc; [0; 512]; PIECE as usize]
}

/// Writes so many blocks of zeros, from the first on.
pub(crate) fn write_zeros<F: FileExt>(alloc: Global, file: &F, blocks: u64) -> io::Result<()>
    requires { blocks * 512 < 2 ^ 64 }
{
    let piece = zero_piece(alloc)?;
    let mut first = 0;
    while first < blocks {
        let count = (blocks - first).min(PIECE);
        let bytes = piece[..count as usize].as_flattened();
        file.write_all_at(bytes, first * 512)?;
        first += count;
    }
    Ok(())
}
