ghost use Rattle.std.specs.Prelude.{◌≡◌, ◌≤◌, [], length, vec_capacity, IfOk, IfErr, OnErr};
ghost use Rattle.als_view.specs.Entries.{Begins};
ghost use Rattle.als_view.specs.Answers.{IsRefusal};
ghost use Rattle.als_view.specs.Many.{IsAnswerOfAll};
ghost use Rattle.als_view.specs.Views.{pages_of, known_to, IsSameReader};

use crate::fault::Fault;
use crate::many::Many;
use crate::reader::Reader;
use als_record::{KeptImage, Key};

/// The images of keys, all of one front, by one entry into a copy: at a publish that comes meanwhile
/// nothing is read again. `room` has room for them.
pub(crate) fn read_many(
    reader: Reader,
    keys: &[Key],
    room: Vec<KeptImage>,
) -> (Reader, Result<Many, Fault>)
    requires empty { room.items ≡ [] }
    requires room { length keys.now ≤ vec_capacity room }
    ensures same { IsSameReader reader result.0 }
    ensures later { Begins (known_to reader) (known_to result.0) }
    ensures answer { IfOk result.1
        (λ a. IsAnswerOfAll (pages_of reader) keys.now (known_to result.0) a) }
    ensures refusal { IfErr result.1 (λ e. IsRefusal (known_to reader) e) }
    ensures err { OnErr result.1 (known_to result.0 ≡ known_to reader) }
{
    let mut images = room;
    match reader.enter() {
        Err((reader, fault)) => (reader, Err(fault)),
        Ok(inside) => {
            let commits = inside.commits();
            inside.push_images(keys, &mut images);
            let lsn = inside.lsn();
            let many = Many {
                images,
                commits,
                lsn,
            };
            (inside.leave(), Ok(many))
        }
    }
}
