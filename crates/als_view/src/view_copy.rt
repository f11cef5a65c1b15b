ghost use Rattle.std.specs.Prelude.{◌≡◌, ◌<◌, ◌++◌, ◌∷◌, ◌&&◌, nat_lt, false, [], length, vec_len};
ghost use Rattle.std.specs.Prelude.{vec_capacity, None, IfOk, if◌then◌else◌};
ghost use Rattle.als_record.specs.Commits.{seen_after};
ghost use Rattle.als_commits.specs.Counting.{last_of};
ghost use Rattle.als_view.specs.Images.{AreImagesAfter};
ghost use Rattle.als_view.specs.Many.{image_at};

use crate::change::Change;
use crate::history::Token;
use crate::images::{place, unwritten, write_commit};
use crate::past_commit::PastCommit;
use crate::state::State;
use als_commits::Commit;
use als_record::{Image, KeptImage, Key, Lsn, SLOT_COUNT};
use left_right::Absorb;
use std::alloc::{AllocError, Global};

/// One of the two copies: the images of all keys, and the list of commits that they come from.
pub struct ViewCopy {
    alloc: Global,
    pages: u32,
    images: Vec<KeptImage>,
    listed: bool,
    list: Vec<PastCommit>,
    // The LSN of the last commit.
    last: Lsn,
    seen: Token,
    ghost kept: { AreImagesAfter images.items pages list.items },
    ghost last_is: { last.0 ≡ last_of list.items },
    ghost closed: { listed ≡ false → list.items ≡ [] },
}

// Written out: a derived drop is proved wherever a copy is dropped, this one only here.
impl Drop for ViewCopy {
    fn drop(self) {
        let ViewCopy {
            alloc: _,
            pages: _,
            images,
            listed: _,
            list,
            last: _,
            seen: _,
        } = self;
        drop(images);
        drop(list);
    }
}

impl ViewCopy {
    /// A copy with no commit, of a database with so many pages.
    #[tactic(auto, unfolding(als_commits::specs::Counting::last_of))]
    pub fn new(
        alloc: Global,
        pages: u32,
        listed: bool,
        seen: &Token,
    ) -> Result<ViewCopy, AllocError>
        ensures { IfOk result (λ s. (s.pages ≡ pages) × (s.listed ≡ listed) × (s.list.items ≡ [])
            × (s.seen ≡ seen.now)) }
    {
        Ok(ViewCopy {
            alloc,
            pages,
            images: unwritten(alloc, pages)?,
            listed,
            list: Vec::new(alloc),
            last: Lsn(0),
            seen: seen.again(),
        })
    }

    /// How many pages the database has.
    pub(crate) fn pages(&self) -> u32
        ensures { result ≡ self.now.pages }
    {
        self.pages
    }

    /// Is there a list?
    pub(crate) fn is_listed(&self) -> bool
        ensures { result ≡ self.now.listed }
    {
        self.listed
    }

    /// How many commits it has.
    pub(crate) fn count(&self) -> u64
        ensures { result ≡ length self.now.list.items }
    {
        self.list.len() as u64
    }

    /// The front of the history that its list is.
    pub(crate) fn seen(&self) -> &Token
        ensures { result.now ≡ self.now.seen }
    {
        &self.seen
    }

    /// What a key has after all commits. A key outside the database has nothing.
    pub(crate) fn value(&self, key: Key) -> Image
        ensures { result ≡ (if nat_lt key.page self.now.pages
            && nat_lt key.slot 15 then seen_after self.now.list.items key else None) }
    {
        if key.page >= self.pages || key.slot as usize >= SLOT_COUNT {
            return None;
        }
        self.images[place(key)].image()
    }

    /// The same, as it is stored.
    pub(crate) fn kept(&self, key: Key) -> KeptImage
        ensures { result ≡ image_at self.now.pages self.now.list.items key }
    {
        if key.page >= self.pages || key.slot as usize >= SLOT_COUNT {
            return KeptImage::absent();
        }
        self.images[place(key)]
    }

    /// The LSN of the last commit.
    pub(crate) fn last(&self) -> Lsn
        ensures { result.0 ≡ last_of self.now.list.items }
    {
        self.last
    }

    /// One more commit, for which there is room.
    fn add(&mut self, commit: &Commit)
        requires { vec_len self.old.list < vec_capacity self.old.list }
        ensures { (self.new.list.items ≡ self.old.list.items ++ commit.now ∷ [])
            × (self.new.seen ≡ self.old.seen) × (self.new.pages ≡ self.old.pages) }
    {
        write_commit(&mut self.images, commit);
        self.last = commit.lsn;
        self.list.push_reserved(PastCommit::of(commit));
        self.listed = true;
    }
}

impl Absorb<Change> for ViewCopy {
    ghost use Rattle.als_view.specs.Changes.{changed};

    type State = State;

    ghost state = { λ s. record {
      pages = s.pages;
      listed = s.listed;
      list = s.list.items;
      seen = s.seen;
    } };

    ghost applied = { changed };

    fn absorb_first(&mut self, operation: &Change, _other: &ViewCopy) -> Result<(), AllocError> {
        match operation {
            Change::Add(commit) => {
                self.list.reserve(1)?;
                self.add(commit);
            }
            Change::Mark(seen) => {
                self.listed = true;
                self.seen = seen.again();
            }
        }
        Ok(())
    }

    fn absorb_second(&mut self, operation: Change, _other: &ViewCopy) -> Result<(), Change> {
        match operation {
            Change::Add(commit) => {
                if self.list.reserve(1).is_err() {
                    return Err(Change::Add(commit));
                }
                self.add(&commit);
            }
            Change::Mark(seen) => {
                self.listed = true;
                self.seen = seen;
            }
        }
        Ok(())
    }
}
