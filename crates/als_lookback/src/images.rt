ghost use Rattle.std.specs.Prelude.{◌≡◌, [], fold, IfOk};
ghost use Rattle.als_view.specs.Images.{AreImagesAfter, place_of, written, written_by};

use als_commits::{Commit, Write, Writes};
use als_record::{KeptImage, Key, SLOT_COUNT};
use std::alloc::{AllocError, Global};

/// Where the image of a key is.
pub(crate) fn place(key: Key) -> usize
    ensures { result ≡ place_of key }
{
    key.page as usize * SLOT_COUNT + key.slot as usize
}

/// The images of the keys of a database with this many pages, of which nobody has written one.
pub(crate) fn unwritten(alloc: Global, pages: u32) -> Result<Vec<KeptImage>, AllocError>
    ensures { IfOk result (λ images. AreImagesAfter images.items pages []) }
{
    let count = pages as usize * SLOT_COUNT;
    let mut images = Vec::with_capacity(alloc, count)?;
    for _ in 0..count {
        images.push(KeptImage::absent())?;
    }
    Ok(images)
}

/// Gives a key its image. A key outside the database has none.
pub(crate) fn write_one(images: &mut Vec<KeptImage>, write: &Write)
    ensures { images.new.items ≡ written images.old.items write.now }
{
    let at = place(write.key);
    if (write.key.slot as usize) < SLOT_COUNT && at < images.len() {
        images[at] = write.after;
    }
}

/// Gives the keys that a commit writes their images, in order.
fn write_all(images: &mut Vec<KeptImage>, writes: &Writes)
    ensures { images.new.items ≡ fold written images.old.items writes.now }
{
    let mut left = writes.left();
    for _ in 0..writes.len() {
        if let Some(write) = left.next() {
            write_one(images, &write);
        }
    }
}

/// Gives the keys that a commit writes their images, in order.
pub(crate) fn write_commit(images: &mut Vec<KeptImage>, commit: &Commit)
    ensures { images.new.items ≡ written_by images.old.items commit.now }
{
    write_all(images, &commit.writes);
}
