ghost use Rattle.std.specs.Prelude.{◌≡◌, ◌≤◌, ℕ, true, length, take, slice_index_or, MatchOption, All};
ghost use Rattle.std.specs.List.{list_any};
ghost use Rattle.als_record.specs.Spelling.{IsKey};
ghost use Rattle.als_record.specs.Images.{same_key};
ghost use Rattle.als_record.specs.Reading.{is_key};
ghost use Rattle.als_writer.specs.Checking.{AreApart, IsTwice, IsSound, IsFlaw, AreAskedIn, key_asked};

use crate::ask::Ask;
use crate::flaw::Flaw;
use crate::set::Set;
use crate::transaction::{LIMIT, Transaction};
use als_record::{Key, SLOT_COUNT};

/// Whether a database with this many pages has the key.
fn is_in(key: Key, pages: u32) -> bool
    ensures { result ≡ is_key pages key }
{
    key.page < pages && (key.slot as usize) < SLOT_COUNT
}

/// The key that an ask asks for.
pub(crate) fn asked(ask: &Ask) -> Key
    ensures { result ≡ key_asked ask.now }
{
    match *ask {
        Ask::Is { key, .. } => key,
        Ask::Unchanged { key, .. } => key,
    }
}

/// Whether one of the sets sets the key.
fn is_set(sets: &[Set], key: Key) -> bool
    ensures { result ≡ list_any (λ w. same_key w.key key) sets.now }
{
    for set in sets {
        if set.key.page == key.page && set.key.slot == key.slot {
            return true;
        }
    }
    false
}

/// The first key that is set twice.
fn set_twice(sets: &[Set]) -> Option<Key>
    ensures { MatchOption result (AreApart sets.now) (λ key. IsTwice sets.now key) }
{
    for i in 0..sets.len() {
        let set = &sets[i];
        let key = set.key;
        if is_set(&sets[..i], key) {
            return Some(key);
        }
    }
    None
}

/// The first key that is set and that the database has not.
fn set_outside(sets: &[Set], pages: u32) -> Option<Key>
    ensures { MatchOption result (All (λ w. IsKey pages w.key) sets.now)
        (λ key. IsKey pages key → ⊥) }
{
    for set in sets {
        let key = set.key;
        if !is_in(key, pages) {
            return Some(key);
        }
    }
    None
}

/// The first key that is asked for and that the database has not.
fn asked_outside(asks: &[Ask], pages: u32) -> Option<Key>
    ensures { MatchOption result (AreAskedIn pages asks.now) (λ key. IsKey pages key → ⊥) }
{
    for ask in asks {
        let key = asked(ask);
        if !is_in(key, pages) {
            return Some(key);
        }
    }
    None
}

/// What is wrong with a transaction, in a database with this many pages, whatever its log has.
pub fn find_flaw(transaction: &Transaction, pages: u32) -> Option<Flaw>
    ensures { MatchOption result (IsSound pages transaction.now) (IsFlaw pages transaction.now) }
{
    let sets = transaction.sets.as_slice();
    let asks = transaction.asks.as_slice();
    if sets.is_empty() {
        return Some(Flaw::NoSet);
    }
    if sets.len() > LIMIT || asks.len() > LIMIT {
        return Some(Flaw::TooLong);
    }
    if let Some(key) = set_outside(sets, pages) {
        return Some(Flaw::NoSuchKey { key });
    }
    if let Some(key) = asked_outside(asks, pages) {
        return Some(Flaw::NoSuchKey { key });
    }
    if let Some(key) = set_twice(sets) {
        return Some(Flaw::KeyTwice { key });
    }
    None
}
