ghost use Rattle.std.specs.Prelude.{◌≡◌, ◌&&◌, IfOk, IfErr};
ghost use Rattle.als_view.specs.Entries.{Begins};
ghost use Rattle.als_view.specs.Many.{is_key};
ghost use Rattle.als_view.specs.Views.{known_to, pages_of, IsSameReader};
ghost use Rattle.als_report.specs.Reading.{AreRead, IsUnread, has_all};

use crate::unread::Unread;
use als_record::{Key, Lsn};
use als_view::{Fault, Many, Reader};
use std::alloc::Global;

/// Reads the published values of keys, all after the same commits, in an answer whose LSN is at least
/// `at_least`. It enters the view once, and never waits.
#[tactic(auto, using(crate::proofs::AnswerLaws::all_last, crate::proofs::AnswerLaws::begins_self))]
pub fn read_many(
    alloc: Global,
    reader: &mut Reader,
    keys: &[Key],
    at_least: Lsn,
) -> Result<Many, Unread>
    ensures same { IsSameReader reader.old reader.new }
    ensures later { Begins (known_to reader.old) (known_to reader.new) }
    ensures answer { IfOk result
        (AreRead (pages_of reader.old) keys.now (known_to reader.new) at_least) }
    ensures refusal { IfErr result (IsUnread (has_all (pages_of reader.old) keys.now)
        (known_to reader.old) (known_to reader.new) at_least) }
{
    let Ok(room) = Vec::with_capacity(alloc, keys.len()) else {
        return Err(Unread::Memory);
    };
    match reader.get_many(keys, room) {
        Ok(many) => {
            let lsn = many.lsn;
            if lsn.0 < at_least.0 {
                return Err(Unread::Older(lsn));
            }
            if !has_all(reader, keys) {
                return Err(Unread::NoSuchKey);
            }
            Ok(many)
        }
        Err(Fault::Warming) => Err(Unread::Warming),
        Err(Fault::Stopped) => Err(Unread::Stopped),
    }
}

/// Whether the database has all of these keys.
#[tactic(auto, using(crate::proofs::AnswerLaws::all_taken))]
fn has_all(reader: &Reader, keys: &[Key]) -> bool
    ensures { result ≡ has_all (pages_of reader.now) keys.now }
{
    let mut has = true;
    for i in 0..keys.len() {
        has = has_too(has, reader, keys[i]);
    }
    has
}

/// Whether the database has this key too.
fn has_too(has: bool, reader: &Reader, key: Key) -> bool
    ensures { result ≡ (has && is_key (pages_of reader.now) key) }
{
    has && reader.has(key)
}
