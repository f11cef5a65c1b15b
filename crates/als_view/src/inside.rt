//! A reader inside a copy. Whatever it looks up there is of one front of the published commits: what
//! it found may lead it to the next key.
//!
//! ```text
//! Reader --enter--> Inside --image(key), image(key), ..--> Inside --leave--> Reader
//! ```
//!
//! The publisher waits for who is inside before it changes the copy once more, so stay for a bounded
//! number of keys, and wait for nothing there.

ghost use Rattle.std.specs.Prelude.{◌≡◌, ◌++◌, ◌+◌, ◌≤◌, Some, IfOk, IfErr, length, map, vec_len};
ghost use Rattle.std.specs.Prelude.{vec_capacity};
ghost use Rattle.left_right.specs.Sides.{view};
ghost use Rattle.als_commits.specs.Counting.{last_of};
ghost use Rattle.als_view.specs.Entries.{AreCommits, Begins};
ghost use Rattle.als_view.specs.Fronts.{front_of};
ghost use Rattle.als_view.specs.Rules.{book_in, pages_in};
ghost use Rattle.als_view.specs.Answers.{IsRefusal};
ghost use Rattle.als_view.specs.Many.{image_at};

use crate::fault::Fault;
use crate::front::Front;
use crate::reader::Reader;
use crate::rule::{CopyReader, CopyReading, Sees};
use als_record::{KeptImage, Key, Lsn};

/// A reader inside a copy. It is not `Drop`: end it by `leave`.
pub struct Inside {
    reading: CopyReading,
    front: Front,
    pages: u32,
    ghost linked: { book_in (view reading.place) ≡ Some front.seen.book },
    ghost sized: { pages_in (view reading.place) ≡ Some pages },
    ghost whole: { reading.part.value.pages ≡ pages },
    ghost shows: { front_of front ≡ Some reading.part.value.list.items },
    ghost sound: { AreCommits reading.part.value.list.items },
}

impl Inside {
    ghost use Rattle.als_view.specs.Views.{book_of, pages_of, known_to};
    ghost use Rattle.als_view.specs.Inside.{book_at, pages_at, front_at};

    /// Enters a copy by a reader of the copies, which knows this front.
    pub(crate) fn enter(
        inner: CopyReader,
        front: Front,
        pages: u32,
    ) -> Result<Inside, (Reader, Fault)>
        requires linked { book_in (view inner.place) ≡ Some front.seen.book }
        requires sized { pages_in (view inner.place) ≡ Some pages }
        ensures same { IfOk result (λ i. (book_at i ≡ front.seen.book) × (pages_at i ≡ pages)) }
        ensures later { IfOk result (λ i. Begins (front_of front) (Some (front_at i))) }
        ensures back { IfErr result (λ e. (book_of e.0 ≡ front.seen.book) × (pages_of e.0 ≡ pages)
            × (known_to e.0 ≡ front_of front)) }
        ensures refusal { IfErr result (λ e. IsRefusal (front_of front) e.1) }
    {
        let mut front = front;
        match inner.enter_as::<Sees>() {
            Err(inner) => Err((Reader::of(inner, front, pages), Fault::Stopped)),
            Ok(reading) => match front.see(reading.get()) {
                Ok(()) => Ok(Inside {
                    reading,
                    front,
                    pages,
                }),
                Err(fault) => Err((Reader::of(reading.leave(), front, pages), fault)),
            },
        }
    }

    /// How many pages the database has.
    pub fn pages(&self) -> u32
        ensures { result ≡ pages_at self.now }
    {
        self.pages
    }

    /// How many commits the front has.
    pub fn commits(&self) -> u64
        ensures { result ≡ length (front_at self.now) }
    {
        self.reading.get().count()
    }

    /// The LSN of its last commit, 0 without one.
    pub fn lsn(&self) -> Lsn
        ensures { result.0 ≡ last_of (front_at self.now) }
    {
        self.reading.get().last()
    }

    /// The image of a key after the commits of the front. A key outside the database has none.
    pub fn image(&self, key: Key) -> KeptImage
        ensures { result ≡ image_at (pages_at self.now) (front_at self.now) key }
    {
        self.reading.get().kept(key)
    }

    /// Adds the images of these keys, in their order, for which there is room.
    pub fn push_images(&self, keys: &[Key], images: &mut Vec<KeptImage>)
        requires { vec_len images.old + length keys.now ≤ vec_capacity images.old }
        ensures images { images.new.items ≡ images.old.items
            ++ map (image_at (pages_at self.now) (front_at self.now)) keys.now }
        ensures len { vec_len images.new ≡ vec_len images.old + length keys.now }
        ensures capacity { vec_capacity images.new ≡ vec_capacity images.old }
    {
        for i in 0..keys.len() {
            images.push_reserved(self.image(keys[i]));
        }
    }

    /// Leaves the copy: the reader knows the front from then on.
    pub fn leave(self) -> Reader
        ensures same { (book_of result ≡ book_at self) × (pages_of result ≡ pages_at self) }
        ensures known { known_to result ≡ Some (front_at self) }
        ensures commits { AreCommits (front_at self) }
    {
        let Inside {
            reading,
            front,
            pages,
        } = self;
        Reader::of(reading.leave(), front, pages)
    }
}
