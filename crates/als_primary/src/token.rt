ghost use Rattle.std.specs.Prelude.{◌≡◌, ◌≤◌, length, IfOk};

use crate::bad_token::BadToken;
use std::alloc::Global;
use std::fs::File;
use std::io::Read;
use std::os::unix::fs::PermissionsExt;
use std::rt::Files;

/// The fewest bytes of a token.
const SHORTEST: usize = 16;

/// The most bytes of a token.
const LONGEST: usize = 4_096;

/// The bits of a file's mode for everybody but its owner.
const OTHERS: u32 = 0o077;

/// Reads the token in a file: its content without a last line end. Only its owner may read or write the file.
pub(crate) fn read_token<R: AllocGlobal + Files<File = File>>(
    rt: &R,
    path: &str,
) -> Result<Vec<u8>, BadToken>
    ensures { IfOk result (λ token. (16 ≤ length token.items) × (length token.items ≤ 4096)) }
{
    let Ok(mut file) = File::open(rt, path) else {
        return Err(BadToken::Unreadable);
    };
    check_mode(&file)?;
    let mut token = Vec::new(rt.alloc());
    read_all(&mut file, &mut token)?;
    drop_line_end(&mut token);
    if token.len() < SHORTEST {
        return Err(BadToken::Short);
    }
    if token.len() > LONGEST {
        return Err(BadToken::Long);
    }
    if token.iter().any(|byte| *byte <= b' ' || *byte >= 0x7f) {
        return Err(BadToken::Unsendable);
    }
    Ok(token)
}

/// Refuses a file that others than its owner may access.
fn check_mode(file: &File) -> Result<(), BadToken> {
    let Ok(found) = file.metadata() else {
        return Err(BadToken::Unreadable);
    };
    if !found.is_file() {
        return Err(BadToken::Unreadable);
    }
    if found.permissions().mode() & OTHERS != 0 {
        return Err(BadToken::Shared);
    }
    Ok(())
}

/// Reads a file to its end, or a little further than a token may be long.
fn read_all<I: Read>(file: &mut I, into: &mut Vec<u8>) -> Result<(), BadToken> {
    let mut piece = [0; 1_024];
    for _ in 0..=LONGEST {
        let Ok(count) = file.read(&mut piece) else {
            return Err(BadToken::Unreadable);
        };
        if count == 0 {
            return Ok(());
        }
        if into.extend_from_slice(&piece[..count]).is_err() {
            return Err(BadToken::Memory);
        }
        if into.len() > LONGEST + 2 {
            return Ok(());
        }
    }
    Ok(())
}

/// Removes a line end from the end.
fn drop_line_end(token: &mut Vec<u8>) {
    if token.last() == Some(&b'\n') {
        token.pop();
    }
    if token.last() == Some(&b'\r') {
        token.pop();
    }
}
