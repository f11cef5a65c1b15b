ghost use Rattle.std.specs.Prelude.{◌≡◌, IfOk, IfErr};
ghost use Rattle.als_view.specs.Entries.{Begins};
ghost use Rattle.als_view.specs.Answers.{IsAnswer, IsRefusal};
ghost use Rattle.als_view.specs.Views.{book_by, published_by, book_of, pages_of, known_to};
ghost use Rattle.als_view.specs.Views.{IsSameReader};

use crate::answer::Answer;
use crate::fault::Fault;
use crate::publisher::Publisher;
use crate::reader::Reader;
use als_record::Key;

/// What a key has after the commits that are published now, by a reader of this view.
///
/// Warming: there is no list of commits yet. Stopped: the view has ended.
pub fn read_now(publisher: &Publisher, reader: &mut Reader, key: Key) -> Result<Answer, Fault>
    requires { book_of reader.old ≡ book_by publisher.now }
    ensures same { IsSameReader reader.old reader.new }
    ensures later { Begins (known_to reader.old) (known_to reader.new) }
    ensures answer { IfOk result (λ a. IsAnswer (pages_of reader.old) key
        (published_by publisher.now) a) }
    ensures refusal { IfErr result (λ e. IsRefusal (published_by publisher.now) e) }
{
    let told = publisher.tell();
    let (listed, count) = (told.listed, told.count);
    reader.learn(told);
    let answer = reader.get(key)?;
    if listed != 1 || answer.commits != count {
        return Err(Fault::Stopped);
    }
    Ok(answer)
}
