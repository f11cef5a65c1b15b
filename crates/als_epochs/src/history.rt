ghost use Rattle.std.specs.Prelude.{◌≡◌, ◌≤◌, ◌<◌, ◌++◌, ◌∷◌, [], ℕ, List, length, map, slice_index};
ghost use Rattle.std.specs.Prelude.{IfSome, Some, IsTrue, MatchBool, ◌==◌, ◌↔◌};
ghost use Rattle.als_record.specs.declared.lsn.Lsn.{Lsn as AnyLsn};
ghost use Rattle.als_epochs.specs.Histories.{IsHistory, RisesFrom, Takes, is_front, last_seal};

use als_record::{FIRST_LSN, Lsn};
use std::marker::Model;

/// How many seals a history has at most.
pub const EPOCH_LIMIT: u32 = 32;

/// A node's history: the LSNs at which the takeovers before it were sealed, oldest first. There are
/// at most 32, and none is below the one before it. Clauses see it as the list of these numbers.
///
/// Its length is the node's epoch.
#[derive(Clone, Copy, Debug, PartialEq, Eq)]
pub struct History {
    epoch: u32,
    seals: [u64; 32],
}

impl Model for History {
    ghost use Rattle.std.specs.Prelude.{ℕ, List, length, take};
    ghost use Rattle.als_epochs.specs.Kept.{IsKept, array_of};

    ghost Value = { List ℕ };

    ghost use Rattle.als_epochs.specs.Inverse.{inverse-kept};

    ghost view = { λ h. take h.epoch h.seals };

    ghost invariant = { λ h. IsKept h.epoch h.seals };

    ghost inverse = { λ seals. record {
      epoch = length seals;
      seals = array_of seals;
    } };

    ghost inverse_ok = { inverse-kept };
}

impl History {
    /// That of a node before which there was no takeover.
    pub fn empty() -> History
        ensures { result ≡ [] }
    {
        History {
            epoch: 0,
            seals: [0; 32],
        }
    }

    /// The history with these seals. `None`: there are more than 32, or one is below the one before
    /// it.
    pub fn of(seals: &[Lsn]) -> Option<History>
        ensures found { IfSome result (λ h. h ≡ map (λ (s : AnyLsn). s.0) seals.now) }
        ensures only { IsHistory (map (λ (s : AnyLsn). s.0) seals.now)
            → result ≡ Some (map (λ (s : AnyLsn). s.0) seals.now) }
    {
        let mut history = History::empty();
        for seal in seals {
            if !history.takes(*seal) {
                return None;
            }
            history.push(*seal);
        }
        Some(history)
    }

    /// How many seals it has.
    pub fn epoch(&self) -> u32
        ensures len { result ≡ length self.now }
        ensures facts { IsHistory self.now }
    {
        self.epoch
    }

    /// Whether it has room for no more seals.
    pub fn is_full(&self) -> bool
        ensures { result ≡ (length self.now == 32) }
    {
        self.epoch == EPOCH_LIMIT
    }

    /// The last seal, 0 where there is none.
    pub fn last(&self) -> Lsn
        ensures { result.0 ≡ last_seal self.now }
    {
        if self.epoch == 0 {
            Lsn(0)
        } else {
            Lsn(self.seals[self.epoch as usize - 1])
        }
    }

    /// The seal at a place, counted from 0.
    pub fn at(&self, place: u32) -> Lsn
        requires { place < length self.now }
        ensures { result.0 ≡ slice_index self.now place }
    {
        Lsn(self.seals[place as usize])
    }

    /// Whether each seal is an LSN: none is below 16.
    pub fn has_lsns(&self) -> bool
        ensures { IsTrue result ↔ RisesFrom 16 self.now }
    {
        if self.epoch() == 0 {
            return true;
        }
        let first = self.at(0);
        FIRST_LSN.0 <= first.0
    }

    /// Whether a seal may follow: there is room, and it is not below the last one.
    pub fn takes(&self, seal: Lsn) -> bool
        ensures { MatchBool result (Takes self.now seal.0) (Takes self.now seal.0 → ⊥) }
    {
        self.epoch() < EPOCH_LIMIT && self.last().0 <= seal.0
    }

    /// Puts a seal behind the others.
    pub fn push(&mut self, seal: Lsn)
        requires { Takes self.old seal.0 }
        ensures value { self.new ≡ self.old ++ seal.0 ∷ [] }
        ensures facts { IsHistory self.new }
    {
        self.seals[self.epoch as usize] = seal.0;
        self.epoch += 1;
    }

    /// Whether it has the same seals as another one.
    pub fn is(&self, other: &History) -> bool
        ensures { IsTrue result ↔ self.now ≡ other.now }
    {
        if self.epoch() != other.epoch() {
            return false;
        }
        self.starts_with(other)
    }

    /// Its seals, oldest first.
    pub fn seals(&self) -> &[u64]
        ensures { result.now ≡ self.now }
    {
        &self.seals[..self.epoch as usize]
    }

    /// Whether another history is a front of it.
    pub fn starts_with(&self, front: &History) -> bool
        ensures { result ≡ is_front front.now self.now }
    {
        self.seals().starts_with(front.seals())
    }
}
