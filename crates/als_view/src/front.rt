// What a reader saw and was told.
ghost use Rattle.std.specs.Prelude.{◌≡◌, ◌==◌, ◌⊎◌, ◌+◌, ◌<◌, ◌^◌, ◌++◌, ◌∷◌, true, false, []};
ghost use Rattle.std.specs.Prelude.{length, MatchBool};
ghost use Rattle.als_view.specs.Books.{head_of};

use crate::history::{Adding, Law, Nothing, Token};
use als_commits::Commit;
use logbook::{Offer, Word};

/// No list of commits, or a front of it. Contracts see which commits; in memory it has two words.
#[derive(Drop)]
pub struct Front {
    // 1, or 0 where there is no list. It is a word, since padding behind a bool would be copied at
    // each read.
    pub(crate) listed: u64,
    pub(crate) count: u64,
    pub(crate) seen: Token,
    ghost counted: { count ≡ length seen.log },
    ghost closed: { (listed == 1) ≡ false → seen.log ≡ [] },
}

impl Front {
    ghost use Rattle.als_view.specs.Entries.{Begins};
    ghost use Rattle.als_view.specs.Fronts.{front_of};

    /// The same front once more.
    pub fn again(&self) -> Front
        ensures { result ≡ self.now }
    {
        Front {
            listed: self.listed,
            count: self.count,
            seen: self.seen.again(),
        }
    }

    /// Takes in another front of the same view: the longer of the two stays.
    pub(crate) fn learn(&mut self, other: Front)
        requires { other.seen.book ≡ self.old.seen.book }
        ensures same { self.new.seen.book ≡ self.old.seen.book }
        ensures mine { Begins (front_of self.old) (front_of self.new) }
        ensures others { Begins (front_of other) (front_of self.new) }
        ensures one { (front_of self.new ≡ front_of self.old)
            ⊎ (front_of self.new ≡ front_of other) }
    {
        let mut both = self.seen.again();
        both.learn(&other.seen);
        if self.count < other.count || self.listed != 1 {
            *self = other;
        }
    }

    /// Whether another front of the same view begins with this one. Else it is shorter, and this one
    /// begins with it.
    pub(crate) fn is_within(&self, other: &Front) -> bool
        requires { other.now.seen.book ≡ self.now.seen.book }
        ensures within { result ≡ true → Begins (front_of self.now) (front_of other.now) }
        ensures beyond { result ≡ false → Begins (front_of other.now) (front_of self.now)
            × (Begins (front_of self.now) (front_of other.now) → ⊥) }
    {
        let mut both = self.seen.again();
        both.learn(&other.seen);
        if self.listed != 1 {
            return true;
        }
        if other.listed != 1 {
            return false;
        }
        self.count <= other.count
    }

    /// Adds a commit to the history, and answers whether it did. It did not where the history is
    /// longer than this front.
    pub(crate) fn extend(&mut self, head: &Word<Commit, u64, Law>, commit: &Commit) -> bool
        requires head { head.now ≡ head_of self.old.seen.book }
        requires room { self.old.count + 1 < 2 ^ 64 }
        ensures book { self.new.seen.book ≡ self.old.seen.book }
        ensures added { MatchBool result (self.new.seen.log ≡ self.old.seen.log ++ commit.now ∷ [])
            (self.new ≡ self.old) }
    {
        let mut seen = self.seen.again();
        let mut offer: Offer<Commit, u64, Law, Nothing> = seen.plain::<Nothing, Commit, Adding>(
            commit,
        );
        let mut pen = seen.no_pen();
        let count = self.count;
        let found = head.compare_exchange::<Adding, Nothing>(
            count,
            count + 1,
            &mut seen,
            &mut offer,
            &mut pen,
        );
        if found != count {
            return false;
        }
        self.listed = 1;
        self.count = count + 1;
        self.seen = seen;
        true
    }
}
