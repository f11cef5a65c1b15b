ghost use Rattle.std.specs.Prelude.{◌≡◌, ℕ, ◌+◌, ◌*◌, ◌<◌, List, [], ◌∷◌, ◌++◌, IfOk, IfErr};
ghost use Rattle.std.specs.Prelude.{slice_index_or, length};
ghost use Rattle.als_record.specs.declared.record.Body.{Body as AnyBody};
ghost use Rattle.als_record.specs.declared.record.Record.{Record};
ghost use Rattle.als_record.specs.declared.key.Key.{Key};
ghost use Rattle.als_record.specs.Shown.{shown, shown_body, shown_image};
ghost use Rattle.als_record.specs.Spelling.{Image};
ghost use Rattle.als_record.specs.Validity.{IsValidLog};
ghost use Rattle.als_validator.specs.declared.fault.Fault.TheVariants.{Memory};
ghost use Rattle.als_validator.specs.declared.key_state.KeyState.{KeyState};
ghost use Rattle.als_validator.specs.Keys.{AreKeysOf, place_of};

use crate::fault::Fault;
use crate::key_state::KeyState;
use als_record::{BodyView, ImageView, Key, RecordView, SLOT_COUNT};
use std::alloc::Global;

/// Where a key is kept.
pub(crate) fn place(key: Key) -> usize
    ensures { result ≡ place_of key }
{
    key.page as usize * SLOT_COUNT + key.slot as usize
}

/// What is kept of the keys of a database with this many pages, of which nobody has written one.
pub(crate) fn unwritten_keys(alloc: Global, pages: u32) -> Result<Vec<KeyState>, Fault>
    ensures ok { IfOk result (λ keys. AreKeysOf keys.items pages []) }
    ensures err { IfErr result (λ e. e ≡ Memory) }
{
    let count = pages as usize * SLOT_COUNT;
    let mut keys = Vec::with_capacity(alloc, count)?;
    for _ in 0..count {
        keys.push(KeyState::unwritten())?;
    }
    Ok(keys)
}

/// Notes what an update writes, which has this key and this after image.
#[inline(always)]
pub(crate) fn note_update(
    keys: &mut [KeyState],
    logged: &RecordView<'_>,
    key: Key,
    after: &ImageView<'_>,
)
    ensures { (pages : ℕ) (log : List Record) (before : Image) → AreKeysOf keys.old pages log
        → shown_body logged.now.body ≡ AnyBody.Update key before (shown_image after.now)
        → IsValidLog pages (log ++ (shown logged.now) ∷ [])
        → AreKeysOf keys.new pages (log ++ (shown logged.now) ∷ []) }
{
    let at = place(key);
    if at < keys.len() {
        let kept = &mut keys[at];
        kept.update(logged.trans, after);
    }
}

/// Notes what a record writes.
pub(crate) fn note_change(keys: &mut [KeyState], logged: &RecordView<'_>)
    ensures { (pages : ℕ) (log : List Record) → AreKeysOf keys.old pages log
        → IsValidLog pages (log ++ (shown logged.now) ∷ [])
        → AreKeysOf keys.new pages (log ++ (shown logged.now) ∷ []) }
{
    match &logged.body {
        BodyView::Update { key, after, .. } => note_update(keys, logged, *key, after),
        BodyView::Compensation { key, after, .. } => {
            let at = place(*key);
            if at < keys.len() {
                let kept = &mut keys[at];
                kept.undo(logged.trans, after);
            }
        }
        _ => {}
    }
}
