ghost use Rattle.std.specs.Prelude.{◌≡◌, ◌⊎◌, ◌≤◌, true, false, [], length, vec_capacity, Some, IfOk};
ghost use Rattle.std.specs.Prelude.{IfErr, OnErr};
ghost use Rattle.left_right.specs.Sides.{view};
ghost use Rattle.als_view.specs.Entries.{Begins};
ghost use Rattle.als_view.specs.Fronts.{front_of};
ghost use Rattle.als_view.specs.Rules.{book_in, pages_in};
ghost use Rattle.als_view.specs.Answers.{IsAnswer, IsRefusal};
ghost use Rattle.als_view.specs.Many.{is_key, IsAnswerOfAll};

use crate::answer::Answer;
use crate::fault::Fault;
use crate::front::Front;
use crate::inside::Inside;
use crate::looking::read;
use crate::many::Many;
use crate::reading_many::read_many;
use crate::rule::CopyReader;
use als_record::{KeptImage, Key, SLOT_COUNT};
use core::mem::replace_with;

/// A reader of a view, for one thread at a time. What it saw and was told is its front: no later
/// answer of it is of fewer commits.
pub struct Reader {
    inner: CopyReader,
    front: Front,
    pages: u32,
    ghost linked: { book_in (view inner.place) ≡ Some front.seen.book },
    ghost sized: { pages_in (view inner.place) ≡ Some pages },
}

// Written out: a derived drop is proved wherever a reader is dropped, this one only here.
impl Drop for Reader {
    fn drop(self) {
        let Reader {
            inner,
            front,
            pages: _,
        } = self;
        drop(inner);
        drop(front);
    }
}

impl Reader {
    ghost use Rattle.als_view.specs.Views.{book_of, pages_of, known_to, IsSameReader};
    ghost use Rattle.als_view.specs.Inside.{book_at, pages_at, front_at};

    /// A reader over a reader of the copies, which knows this front.
    pub(crate) fn of(inner: CopyReader, front: Front, pages: u32) -> Reader
        requires { (book_in (view inner.place) ≡ Some front.seen.book)
            × (pages_in (view inner.place) ≡ Some pages) }
        ensures { (book_of result ≡ front.seen.book) × (pages_of result ≡ pages)
            × (known_to result ≡ front_of front) }
    {
        Reader {
            inner,
            front,
            pages,
        }
    }

    /// Takes in what a publisher of its view told. From now on this reader sees no less. It waits
    /// for nobody.
    pub fn learn(&mut self, told: Front)
        requires { told.seen.book ≡ book_of self.old }
        ensures same { IsSameReader self.old self.new }
        ensures mine { Begins (known_to self.old) (known_to self.new) }
        ensures told { Begins (front_of told) (known_to self.new) }
        ensures one { (known_to self.new ≡ known_to self.old)
            ⊎ (known_to self.new ≡ front_of told) }
    {
        self.front.learn(told);
    }

    /// Whether what a publisher of its view told has all that this reader saw and was told: then it
    /// begins with that. Else this reader knows of more commits, and begins with what was told. It
    /// waits for nobody.
    pub fn is_within(&self, told: &Front) -> bool
        requires { told.now.seen.book ≡ book_of self.now }
        ensures within { result ≡ true → Begins (known_to self.now) (front_of told.now) }
        ensures beyond { result ≡ false → Begins (front_of told.now) (known_to self.now)
            × (Begins (known_to self.now) (front_of told.now) → ⊥) }
    {
        self.front.is_within(told)
    }

    /// The value of a key after the commits that are then seen. They begin with all that this
    /// reader saw before or was told. It waits for nobody, takes no lock and no memory.
    ///
    /// Warming: there is no list of commits yet, and none was seen or told. Stopped: the view has
    /// ended.
    pub fn get(&mut self, key: Key) -> Result<Answer, Fault>
        ensures same { IsSameReader self.old self.new }
        ensures later { Begins (known_to self.old) (known_to self.new) }
        ensures answer { IfOk result (λ a. IsAnswer (pages_of self.old) key (known_to self.new) a) }
        ensures refusal { IfErr result (λ e. IsRefusal (known_to self.old) e) }
        ensures err { OnErr result (known_to self.new ≡ known_to self.old) }
    {
        let seen = self.front.again();
        let Reader {
            inner,
            front,
            pages: _,
        } = self;
        let (next, answer) = replace_with(inner, (seen, key), |inner, x| {
            let (seen, key) = x;
            read(inner, seen, key)
        });
        *front = next;
        answer
    }

    /// The images of keys after the commits that are then seen: all of one front, which begins with all
    /// that this reader saw before or was told. It enters a copy once, whatever is published meanwhile, and
    /// its work is one look-up a key. It waits for nobody, takes no lock and no memory: `room` has room for
    /// the images.
    ///
    /// Warming: there is no list of commits yet, and none was seen or told. Stopped: the view has
    /// ended.
    pub fn get_many(&mut self, keys: &[Key], room: Vec<KeptImage>) -> Result<Many, Fault>
        requires empty { room.items ≡ [] }
        requires room { length keys.now ≤ vec_capacity room }
        ensures same { IsSameReader self.old self.new }
        ensures later { Begins (known_to self.old) (known_to self.new) }
        ensures answer { IfOk result
            (λ a. IsAnswerOfAll (pages_of self.old) keys.now (known_to self.new) a) }
        ensures refusal { IfErr result (λ e. IsRefusal (known_to self.old) e) }
        ensures err { OnErr result (known_to self.new ≡ known_to self.old) }
    {
        replace_with(self, (keys, room), |reader, x| {
            let (keys, room) = x;
            read_many(reader, keys, room)
        })
    }

    /// Enters a copy: all that is looked up there is of one front, which begins with all that this reader
    /// saw before or was told. It waits for nobody, takes no lock and no memory.
    ///
    /// Warming: there is no list of commits yet, and none was seen or told. Stopped: the view has
    /// ended. The reader comes back, and knows what it knew.
    pub fn enter(self) -> Result<Inside, (Reader, Fault)>
        ensures same { IfOk result
            (λ i. (book_at i ≡ book_of self) × (pages_at i ≡ pages_of self)) }
        ensures later { IfOk result (λ i. Begins (known_to self) (Some (front_at i))) }
        ensures back { IfErr result
            (λ e. IsSameReader self e.0 × (known_to e.0 ≡ known_to self)) }
        ensures refusal { IfErr result (λ e. IsRefusal (known_to self) e.1) }
    {
        let Reader {
            inner,
            front,
            pages,
        } = self;
        Inside::enter(inner, front, pages)
    }

    /// Whether the database has the key.
    pub fn has(&self, key: Key) -> bool
        ensures { result ≡ is_key (pages_of self.now) key }
    {
        key.page < self.pages && (key.slot as usize) < SLOT_COUNT
    }

    /// How many pages the database has.
    pub fn pages(&self) -> u32
        ensures { result ≡ pages_of self.now }
    {
        self.pages
    }
}
