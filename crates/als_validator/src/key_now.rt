ghost use Rattle.std.specs.Prelude.{◌≡◌, ◌==◌, ◌&&◌, ℕ, not, true, false, List, None, Some};
ghost use Rattle.std.specs.Prelude.{MatchOption, IsTrue, if◌then◌else◌};
ghost use Rattle.als_record.specs.declared.record.Record.{Record};
ghost use Rattle.als_record.specs.Spelling.{IsKey};
ghost use Rattle.als_record.specs.Transactions.{is_open};
ghost use Rattle.als_record.specs.Validity.{is_valid};
ghost use Rattle.als_analysis.specs.Noted.{IsTableOf};
ghost use Rattle.als_validator.specs.Keys.{AreKeysOf};
ghost use Rattle.als_validator.specs.KeysNow.{TellsOfKey};

use crate::causes::{is_still_open, kept_of};
use crate::key_state::KeyState;
use als_analysis::TransTable;
use als_record::{KeptImage, Key, TransId};

/// What a key has now, and the open transaction that holds it against a new one.
#[derive(Clone, Copy)]
pub struct KeyNow {
    pub image: KeptImage,
    pub holder: Option<TransId>,
}

/// The open transaction that holds a key.
fn holder_now(kept: &KeyState, table: &TransTable) -> Option<TransId>
    ensures { (log : List Record) → IsTableOf table.now log
        → result ≡ (if not (kept.now.count == 0) && is_open log kept.now.holder.0
        then Some kept.now.holder else None) }
{
    if kept.count == 0 {
        return None;
    }
    if is_still_open(table, kept.holder) {
        return Some(kept.holder);
    }
    None
}

/// What a key of the database has now, and who holds it.
pub(crate) fn key_now(keys: &[KeyState], table: &TransTable, key: Key) -> Option<KeyNow>
    ensures { (pages : ℕ) (log : List Record) → AreKeysOf keys.now pages log
        → IsTableOf table.now log → IsTrue (is_valid log) → IsKey pages key
        → MatchOption result (true ≡ false) (λ told. TellsOfKey log key told) }
{
    match kept_of(keys, key) {
        Some(kept) => {
            let holder = holder_now(kept, table);
            let image = kept.image;
            Some(KeyNow { image, holder })
        }
        None => None,
    }
}
