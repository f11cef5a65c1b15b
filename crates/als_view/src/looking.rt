// A look into a copy: what a reader sees there, and what it knows afterwards.
ghost use Rattle.std.specs.Prelude.{◌≡◌, ℕ, Some, IfOk, IfErr, OnOk, OnErr};
ghost use Rattle.left_right.specs.Sides.{view};
ghost use Rattle.als_view.specs.Entries.{Begins};
ghost use Rattle.als_view.specs.Fronts.{front_of};
ghost use Rattle.als_view.specs.Rules.{IsSound, book_in, pages_in};
ghost use Rattle.als_view.specs.Answers.{IsAnswer, IsRefusal};

use crate::answer::Answer;
use crate::fault::Fault;
use crate::front::Front;
use crate::rule::{CopyReader, Sees};
use crate::view_copy::ViewCopy;
use als_record::Key;

impl Front {
    /// Takes in what a copy shows. At a fault nothing has changed.
    ///
    /// Warming: the copy has no list, and no list was seen. Stopped: the copy shows less than was
    /// seen.
    pub(crate) fn see(&mut self, copy: &ViewCopy) -> Result<(), Fault>
        requires book { copy.now.seen.book ≡ self.old.seen.book }
        requires sound { IsSound copy.now }
        ensures book { self.new.seen.book ≡ self.old.seen.book }
        ensures later { Begins (front_of self.old) (front_of self.new) }
        ensures shown { OnOk result (front_of self.new ≡ Some copy.now.list.items) }
        ensures refusal { IfErr result (λ e. IsRefusal (front_of self.old) e) }
        ensures err { OnErr result (front_of self.new ≡ front_of self.old) }
    {
        if !copy.is_listed() {
            return Err(if self.listed == 1 {
                Fault::Stopped
            } else {
                Fault::Warming
            });
        }
        if copy.count() < self.count {
            return Err(Fault::Stopped);
        }
        let mut both = self.seen.again();
        both.learn(copy.seen());
        *self = Front {
            listed: 1,
            count: copy.count(),
            seen: copy.seen().again(),
        };
        Ok(())
    }

    /// Takes in what a copy shows, and answers by it. At a fault nothing has changed.
    fn look(&mut self, copy: &ViewCopy, key: Key) -> Result<Answer, Fault>
        requires book { copy.now.seen.book ≡ self.old.seen.book }
        requires sound { IsSound copy.now }
        ensures book { self.new.seen.book ≡ self.old.seen.book }
        ensures later { Begins (front_of self.old) (front_of self.new) }
        ensures answer { IfOk result (λ a. IsAnswer copy.now.pages key (front_of self.new) a) }
        ensures refusal { IfErr result (λ e. IsRefusal (front_of self.old) e) }
        ensures err { OnErr result (front_of self.new ≡ front_of self.old) }
    {
        self.see(copy)?;
        Ok(Answer {
            value: copy.value(key),
            commits: copy.count(),
            lsn: copy.last(),
        })
    }
}

/// Enters a copy and looks there: what is seen then, and the answer.
pub(crate) fn read(
    inner: CopyReader,
    mut front: Front,
    key: Key,
) -> (CopyReader, (Front, Result<Answer, Fault>))
    requires linked { book_in (view inner.place) ≡ Some front.seen.book }
    ensures linked { book_in (view result.0.place) ≡ Some front.seen.book }
    ensures pages { pages_in (view result.0.place) ≡ pages_in (view inner.place) }
    ensures same { result.1.0.seen.book ≡ front.seen.book }
    ensures later { Begins (front_of front) (front_of result.1.0) }
    ensures answer { IfOk result.1.1 (λ a. (pages : ℕ) → pages_in (view inner.place) ≡ Some pages
        → IsAnswer pages key (front_of result.1.0) a) }
    ensures refusal { IfErr result.1.1 (λ e. IsRefusal (front_of front) e) }
    ensures err { OnErr result.1.1 (front_of result.1.0 ≡ front_of front) }
{
    match inner.enter_as::<Sees>() {
        Err(inner) => (inner, (front, Err(Fault::Stopped))),
        Ok(reading) => {
            let answer = front.look(reading.get(), key);
            (reading.leave(), (front, answer))
        }
    }
}
