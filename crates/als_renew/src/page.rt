ghost use Rattle.std.specs.Prelude.{◌≡◌, ℕ, ◌+◌, ◌*◌, ◌<◌, ◌≤◌, ◌^◌, List, [], ◌++◌, length, map};
ghost use Rattle.std.specs.Prelude.{None, IfOk, IfErr, OnOk};
ghost use Rattle.std.specs.List.{AllByRecursion};
ghost use Rattle.als_record.specs.declared.record.Record.{Record as AnyRecord};
ghost use Rattle.als_record.specs.Spelling.{IsImage, image_len};
ghost use Rattle.als_record.specs.LogText.{spellings};
ghost use Rattle.als_record.specs.Images.{image_now};
ghost use Rattle.als_record.specs.Validity.{is_valid};
ghost use Rattle.als_writing.specs.Writing.{Writes, moved, is_new};
ghost use Rattle.als_lookback.specs.Seen.{IsSeenOf};
ghost use Rattle.als_writing.specs.Placing.{IsPlaceOf, SoFar};
ghost use Rattle.als_renew.specs.Pages.{write_at, key_at, page_writes, value_in, IsUnwritten, SpellsPage};
ghost use Rattle.als_renew.specs.Refusals.{IsOfOutput};

use crate::fault::Fault;
use als_lookback::Seen;
use als_record::{Body, Image, Key, Lsn, SLOT_COUNT, TransId};
use als_writing::Place;
use std::alloc::Global;

/// The most bytes of the records of a page: 15 updates, a commit and an end.
const LONGEST: usize = 1_046;

/// The records of one page as bytes of the new log: none where it has no value.
#[derive(Drop)]
pub(crate) struct Spelled {
    pub piece: Vec<u8>,
    /// Where the last record ends.
    pub end: Lsn,
}

/// Spells the transaction that gives each key of a page what it has in the old log, behind a log
/// that ends there.
pub(crate) fn spell_page(alloc: Global, seen: &Seen, page: u32, end: Lsn) -> Result<Spelled, Fault>
    requires page { page < seen.now.pages }
    requires room { end.0 + 1046 < 2 ^ 64 }
    ensures piece { (held log : List AnyRecord) → IsSeenOf seen.now seen.now.pages held
        → IsUnwritten page end.0 log → IfOk result (λ s.
        SpellsPage page (value_in held) log s.piece.items s.end.0) }
    ensures images { OnOk result ((held : List AnyRecord) → IsSeenOf seen.now seen.now.pages held
        → AllByRecursion (λ w. IsImage w.after) (page_writes (value_in held) page 15)) }
    ensures most { IfOk result (λ s. s.end.0 ≤ end.0 + 1046) }
    ensures fails { IfErr result IsOfOutput }
{
    // For the prover alone: so many pages are counted.
    let _ = seen.pages();
    let mut place = Place::first(end, TransId(page + 1));
    let mut piece = Vec::with_capacity(alloc, LONGEST)?;
    let count = spell_values(seen, page, &mut place, &mut piece)?;
    if count == 0 {
        return Ok(Spelled { piece, end });
    }
    place.spell(Body::Commit, &mut piece)?;
    place.spell(Body::End, &mut piece)?;
    Ok(Spelled {
        piece,
        end: place.end,
    })
}

/// Spells an update for each key of a page that has a value, and answers how many these are.
fn spell_values(
    seen: &Seen,
    page: u32,
    place: &mut Place,
    piece: &mut Vec<u8>,
) -> Result<u64, Fault>
    requires page { page < seen.now.pages }
    requires room { place.old.end.0 + 990 < 2 ^ 64 }
    requires empty { piece.old.items ≡ [] }
    ensures spelled { (held log : List AnyRecord) → IsSeenOf seen.now seen.now.pages held
        → IsPlaceOf place.old log
        → ((slot : ℕ) → slot < 15 → image_now log (key_at page slot) ≡ None)
        → OnOk result (SoFar log place.old.trans.0
        (map Writes (page_writes (value_in held) page 15)) piece.new.items place.new) }
    ensures count { (held : List AnyRecord) → IsSeenOf seen.now seen.now.pages held
        → IfOk result (λ n. n ≡ length (page_writes (value_in held) page 15)) }
    ensures images { OnOk result ((held : List AnyRecord) → IsSeenOf seen.now seen.now.pages held
        → AllByRecursion (λ w. IsImage w.after) (page_writes (value_in held) page 15)) }
    ensures trans { place.new.trans ≡ place.old.trans }
    ensures most { place.new.end.0 ≤ place.old.end.0 + 990 }
    ensures fails { IfErr result IsOfOutput }
{
    let mut count = 0;
    for slot in 0..SLOT_COUNT as u8 {
        let after = seen.value(Key { page, slot });
        count += spell_value(Key { page, slot }, after, place, piece)?;
    }
    Ok(count)
}

/// Spells an update of a key that has nothing yet, where it gets a value, and answers how many updates
/// that are.
fn spell_value(key: Key, after: Image, place: &mut Place, piece: &mut Vec<u8>) -> Result<u64, Fault>
    requires room { place.old.end.0 + 66 < 2 ^ 64 }
    ensures spelled { (log : List AnyRecord) → IsPlaceOf place.old log → image_now log key ≡ None
        → OnOk result (piece.new.items ≡ piece.old.items
        ++ spellings (moved log place.old.trans.0 (map Writes (write_at key after)))) }
    ensures goes_on { (log : List AnyRecord) → IsPlaceOf place.old log → image_now log key ≡ None
        → OnOk result (IsPlaceOf place.new
        (log ++ moved log place.old.trans.0 (map Writes (write_at key after)))) }
    ensures count { IfOk result (λ n. n ≡ length (write_at key after)) }
    ensures one { IfOk result (λ n. n ≤ 1) }
    ensures image { IsImage after }
    ensures trans { place.new.trans ≡ place.old.trans }
    ensures most { place.new.end.0 ≤ place.old.end.0 + 66 }
    ensures fails { IfErr result IsOfOutput }
{
    let _ = value_len(&after);
    if after.is_none() {
        return Ok(0);
    }
    let before = None;
    place.spell(Body::Update { key, before, after }, piece)?;
    Ok(1)
}

/// The bytes of an image's value, 0 without one.
pub(crate) fn value_len(image: &Image) -> usize
    ensures len { result ≡ image_len image.now }
    ensures most { result ≤ 31 }
    ensures fits { IsImage image.now }
{
    match image {
        None => 0,
        Some(bytes) => bytes_len(bytes.as_slice()),
    }
}

/// The number of some bytes.
fn bytes_len(bytes: &[u8]) -> usize
    ensures len { result ≡ length bytes.now }
    ensures fit { AllByRecursion (λ b. b < 256) bytes.now }
{
    bytes.len()
}
