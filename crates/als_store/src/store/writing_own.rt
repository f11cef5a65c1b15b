ghost use Rattle.std.specs.Prelude.{◌≡◌, ◌≤◌, ◌+◌, ◌*◌, ◌&&◌, nat_lt, nat_le, true};
ghost use Rattle.als_store.specs.Takeover.{is_following};
ghost use Rattle.als_store.specs.WritingOwn.{TellsOfWriting, AnswersKey};

use super::Store;
use crate::writing_now::WritingNow;
use als_disk::BlockDisk;
use als_record::Key;
use als_validator::KeyNow;

/// The bytes of a device of so many blocks that neither the log nor its reserve takes.
fn free_behind(blocks: u64, end: u64, reserve: u64) -> u64
    requires few { blocks ≤ 4194304 }
    requires fit { end + reserve ≤ 512 * blocks }
    ensures { end + reserve + result ≡ 512 * blocks }
{
    512 * blocks - end - reserve
}

/// A database with this many pages has the key.
fn has_key(pages: u32, key: Key) -> bool
    ensures { result ≡ (nat_lt key.page pages && nat_le key.slot 14) }
{
    key.page < pages && key.slot <= 14
}

impl<D: BlockDisk> Store<D> {
    /// What a writer has to know of the log before it writes. Nothing is read.
    pub fn writing(&self) -> WritingNow
        ensures { TellsOfWriting self.now.stored result }
    {
        let end = self.log.end();
        let reserve = self.validator.reserve_bytes();
        let free = free_behind(self.log.blocks(), end.0, reserve);
        WritingNow {
            greatest: self.validator.greatest(),
            unended: self.validator.rows().len(),
            free,
            last_commit: self.count.last_commit,
        }
    }

    /// What a key has now, with what open transactions wrote there, and the open transaction that
    /// holds it. `None`: the database has no such key. Nothing is read.
    pub fn key_now(&self, key: Key) -> Option<KeyNow>
        requires following { is_following self.now.stored ≡ true }
        ensures { AnswersKey self.now.stored key result }
    {
        if !has_key(self.pages, key) {
            return None;
        }
        self.validator.key_now(key)
    }
}
