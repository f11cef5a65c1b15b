ghost use Rattle.std.specs.Prelude.{◌≡◌, IfOk, IfErr, IfSome, Some};
ghost use Rattle.als_view.specs.Entries.{Begins};
ghost use Rattle.als_view.specs.Many.{is_key};
ghost use Rattle.als_view.specs.Views.{known_to, pages_of, IsSameReader};
ghost use Rattle.als_report.specs.Reading.{IsRead, IsUnread, count_in};

use crate::unread::Unread;
use als_record::{Key, Lsn};
use als_view::{Answer, Fault, Reader};

/// Reads the published value of a key, in an answer whose LSN is at least `at_least`. It never waits.
#[tactic(auto, using(crate::proofs::AnswerLaws::answer_last))]
pub fn read(reader: &mut Reader, key: Key, at_least: Lsn) -> Result<Answer, Unread>
    ensures same { IsSameReader reader.old reader.new }
    ensures later { Begins (known_to reader.old) (known_to reader.new) }
    // A client that names the LSN of an earlier answer never gets an older one.
    ensures answer { IfOk result (IsRead (pages_of reader.old) key (known_to reader.new) at_least) }
    ensures refusal { IfErr result (IsUnread (is_key (pages_of reader.old) key)
        (known_to reader.old) (known_to reader.new) at_least) }
{
    match reader.get(key) {
        Ok(answer) => {
            let lsn = answer.lsn;
            if lsn.0 < at_least.0 {
                return Err(Unread::Older(lsn));
            }
            if !reader.has(key) {
                return Err(Unread::NoSuchKey);
            }
            Ok(answer)
        }
        Err(Fault::Warming) => Err(Unread::Warming),
        Err(Fault::Stopped) => Err(Unread::Stopped),
    }
}

/// How many commits are published. None: no list of commits is published.
#[tactic(auto, using(crate::proofs::AnswerLaws::answer_count))]
pub fn published(reader: &mut Reader) -> Option<u64>
    ensures same { IsSameReader reader.old reader.new }
    ensures later { Begins (known_to reader.old) (known_to reader.new) }
    ensures count { IfSome result (λ n. count_in (known_to reader.new) ≡ Some n) }
{
    match reader.get(Key { page: 0, slot: 0 }) {
        Ok(answer) => Some(answer.commits),
        Err(_) => None,
    }
}
