// The frames, by the numbers of their pages.
ghost use Rattle.std.specs.Prelude.{◌≡◌, ◌≢◌, ◌<◌, ◌≤◌, ◌+◌, ◌++◌, ◌∷◌, ℕ, min, [], length, slice_get};
ghost use Rattle.std.specs.Prelude.{nat_eq, Some, None, IfSome, IfNone, IfOk, IfErr, IsSomeAnd};
ghost use Rattle.std.specs.Prelude.{IsTrue, IsSome, ◌↔◌, true};
ghost use Rattle.std.specs.Map.{lookup};
ghost use Rattle.std.specs.Option.{option_map, option_copied};
ghost use Rattle.indexmap.specs.IndexMap.{index_map_len, spare, get};
ghost use Rattle.als_frames.specs.Frames.{Framed};
ghost use Rattle.als_frames.specs.Outcomes.{synced_frame};
ghost use Rattle.als_page.specs.Page.{id_of, state_of};
ghost use Rattle.als_frames.specs.Leases.{lent_frame, returned_frame, recalled_frame};
ghost use Rattle.als_frames.specs.Table.{IsFreeAt, NoneIsFree, IsPlace, Puts, Replaces};
ghost use Rattle.als_frames.specs.Table.{written_frame, IsFresh};
ghost use Rattle.als_frames.specs.Zones.{AreZoned, AreZonedBut, IsFrameAt, SetsAt, Swaps};

use crate::fault::Fault;
use crate::frame::Frame;
use crate::hints::Hints;
use crate::lent::Lent;
use crate::zones::Zones;
use als_page::Page;
use indexmap::IndexMap;

/// The frames, by the numbers of their pages.
pub(crate) type Table = IndexMap<u32, Frame>;

// Whether the frame at a place is free.
fn is_free_at(frames: &Table, i: usize) -> bool
    ensures { IsTrue result ↔ IsFreeAt frames.now.entries i }
{
    match frames.get_index(i) {
        Some((_, frame)) => frame.is_free(),
        None => false,
    }
}

/// Where one more frame can go: `None` beside the others, or else in the place of a free one, that
/// at `hand` if it is free. It looks at no frame.
///
/// `PoolFull`: as many frames as there may be are used, and none is free.
pub(crate) fn place(
    frames: &Table,
    zones: Zones,
    most: usize,
    hand: usize,
) -> Result<Option<usize>, Fault>
    requires { AreZoned zones frames.now.entries }
    ensures ok { IfOk result (λ place. IsPlace frames.now.entries most place) }
    ensures err { IfErr result (λ e. (e ≡ Fault.PoolFull) × (most ≤ index_map_len frames.now)
        × NoneIsFree frames.now.entries) }
{
    let len = frames.len();
    if len < most {
        return Ok(None);
    }
    if len <= zones.dirty {
        return Err(Fault::PoolFull);
    }
    if zones.dirty <= hand && hand < len {
        return Ok(Some(hand));
    }
    Ok(Some(zones.dirty))
}

// Adds the frame of a page that has none. It takes no memory.
fn add(frames: &mut Table, hints: &mut Hints, page: u32, frame: Frame)
    requires absent { get nat_eq frames.old page ≡ None }
    requires room { 0 < spare frames.old }
    ensures puts { Puts frames.old.entries frames.new.entries page frame }
    ensures len { index_map_len frames.new ≡ index_map_len frames.old + 1 }
    ensures room { spare frames.old ≤ spare frames.new + 1 }
    ensures last { frames.new.entries ≡ frames.old.entries ++ (page, frame) ∷ [] }
{
    hints.note(page, frames.len());
    match frames.insert(page, frame) {
        Ok(_) => {}
        Err(_) => unreachable!(),
    }
}

// Adds the frame of a page that has none in the place of a free one. It takes no memory.
fn replace(
    frames: &mut Table,
    hints: &mut Hints,
    zones: Zones,
    victim: usize,
    page: u32,
    frame: Frame,
)
    requires zoned { AreZoned zones frames.old.entries }
    requires absent { get nat_eq frames.old page ≡ None }
    requires room { 0 < spare frames.old }
    requires free { IsFreeAt frames.old.entries victim }
    requires fresh { IsFresh frame }
    ensures replaces { Replaces frames.old.entries frames.new.entries page frame }
    ensures len { index_map_len frames.new ≡ index_map_len frames.old }
    ensures room { spare frames.old ≤ spare frames.new + 1 }
    ensures zoned { AreZoned zones frames.new.entries }
{
    frames.swap_remove_index(victim);
    add(frames, hints, page, frame);
    note_place(frames, hints, victim);
}

/// Adds the frame of a page that has none where it can go. It takes no memory.
pub(crate) fn put(
    frames: &mut Table,
    hints: &mut Hints,
    zones: Zones,
    most: usize,
    place: Option<usize>,
    page: u32,
    frame: Frame,
)
    requires zoned { AreZoned zones frames.old.entries }
    requires absent { get nat_eq frames.old page ≡ None }
    requires room { 0 < spare frames.old }
    requires place { IsPlace frames.old.entries most place }
    requires few { index_map_len frames.old ≤ most }
    requires fresh { IsFresh frame }
    ensures replaces { Replaces frames.old.entries frames.new.entries page frame }
    ensures free { index_map_len frames.old < most
        → Puts frames.old.entries frames.new.entries page frame }
    ensures len { index_map_len frames.new ≡ min (index_map_len frames.old + 1) most }
    ensures room { spare frames.old ≤ spare frames.new + 1 }
    ensures zoned { AreZoned zones frames.new.entries }
{
    match place {
        None => add(frames, hints, page, frame),
        Some(i) => replace(frames, hints, zones, i, page, frame),
    }
}

/// The frame of a page. It is searched by hash only where it does not stand at its hint.
pub(crate) fn find<'a>(frames: &'a Table, hints: &Hints, page: u32) -> Option<&'a Frame>
    ensures { option_copied result ≡ get nat_eq frames.now page }
{
    if let Some((found, frame)) = frames.get_index(hints.of(page))
        && *found == page
    {
        return Some(frame);
    }
    frames.get(&page)
}

// The place of a page's frame, where it stands at its hint.
#[inline(always)]
fn hinted_place(frames: &Table, hints: &Hints, page: u32) -> Option<usize>
    ensures { IfSome result (λ i. (f : Framed) × IsFrameAt frames.now.entries i page f) }
{
    let i = hints.of(page);
    let (found, _) = frames.get_index(i)?;
    if *found == page { Some(i) } else { None }
}

// The place of a page's frame. It is searched by hash only where it does not stand at its hint.
fn place_of(frames: &Table, hints: &Hints, page: u32) -> Option<usize>
    ensures some { IfSome result (λ i. (f : Framed) × IsFrameAt frames.now.entries i page f) }
    ensures none { IfNone result (get nat_eq frames.now page ≡ None) }
{
    if let Some(i) = hinted_place(frames, hints, page) {
        return Some(i);
    }
    let (i, _, _) = frames.get_full(&page)?;
    Some(i)
}

// Notes which page's frame stands at a place.
fn note_place(frames: &Table, hints: &mut Hints, i: usize) {
    if let Some((page, _)) = frames.get_index(i) {
        hints.note(*page, i);
    }
}

// Puts the frames at two places in each other's.
fn swap(frames: &mut Table, hints: &mut Hints, a: usize, b: usize)
    requires first { a < index_map_len frames.old }
    requires second { b < index_map_len frames.old }
    ensures swaps { Swaps frames.old.entries frames.new.entries a b }
    ensures room { spare frames.old ≤ spare frames.new }
{
    frames.swap_indices(a, b);
    note_place(frames, hints, a);
    note_place(frames, hints, b);
}

// Notes that the page at a place is lent.
fn lend_at(frames: &mut Table, i: usize, lent: Lent)
    ensures sets { (page : ℕ) (f : Framed) → slice_get frames.old.entries i ≡ Some (page, f)
        → SetsAt frames.old.entries frames.new.entries i page (lent_frame lent f) }
    ensures room { spare frames.new ≡ spare frames.old }
{
    match frames.get_index_mut(i) {
        Some(frame) => frame.lend(lent),
        None => {}
    }
}

// Takes back the page at a place.
fn take_back_at(frames: &mut Table, i: usize, found: &Page)
    requires number { IsSomeAnd (slice_get frames.old.entries i) (λ e. id_of found.now ≡ e.1.id) }
    ensures sets { (page : ℕ) (f : Framed) → slice_get frames.old.entries i ≡ Some (page, f)
        → SetsAt frames.old.entries frames.new.entries i page
        (returned_frame (state_of found.now) f) }
    ensures room { spare frames.new ≡ spare frames.old }
{
    match frames.get_index_mut(i) {
        Some(frame) => frame.take_back(found),
        None => unreachable!(),
    }
}

// Notes that the page at a place is no longer lent.
fn recall_at(frames: &mut Table, i: usize)
    ensures sets { (page : ℕ) (f : Framed) → slice_get frames.old.entries i ≡ Some (page, f)
        → SetsAt frames.old.entries frames.new.entries i page (recalled_frame f) }
    ensures room { spare frames.new ≡ spare frames.old }
{
    match frames.get_index_mut(i) {
        Some(frame) => frame.recall(),
        None => {}
    }
}

// Notes that the page at a place was written as it is now.
fn note_written_at(frames: &mut Table, i: usize)
    ensures sets { (page : ℕ) (f : Framed) → slice_get frames.old.entries i ≡ Some (page, f)
        → SetsAt frames.old.entries frames.new.entries i page (written_frame f) }
    ensures room { spare frames.new ≡ spare frames.old }
{
    match frames.get_index_mut(i) {
        Some(frame) => frame.note_written(),
        None => {}
    }
}

// Notes that the image last written of the page at a place was synced.
fn note_synced_at(frames: &mut Table, i: usize)
    ensures sets { (page : ℕ) (f : Framed) → slice_get frames.old.entries i ≡ Some (page, f)
        → SetsAt frames.old.entries frames.new.entries i page (synced_frame f) }
    ensures room { spare frames.new ≡ spare frames.old }
{
    match frames.get_index_mut(i) {
        Some(frame) => frame.note_synced(),
        None => {}
    }
}

/// Notes that a page that has a frame is lent. It moves at most one other frame.
pub(crate) fn lend(frames: &mut Table, hints: &mut Hints, zones: &mut Zones, page: u32, lent: Lent)
    requires zoned { AreZoned zones.old frames.old.entries }
    requires resident { IsSome (get nat_eq frames.old page) }
    ensures puts { (f : Framed) → get nat_eq frames.old page ≡ Some f
        → Puts frames.old.entries frames.new.entries page (lent_frame lent f) }
    ensures len { index_map_len frames.new ≡ index_map_len frames.old }
    ensures room { spare frames.old ≤ spare frames.new }
    ensures zoned { AreZoned zones.new frames.new.entries }
{
    // The length is what says that `first + 1` fits.
    let _len = frames.len();
    let Some(i) = place_of(frames, hints, page) else {
        unreachable!();
    };
    lend_at(frames, i, lent);
    let first = zones.dirty;
    if first <= i {
        swap(frames, hints, i, first);
        zones.dirty = first + 1;
    }
}

// Puts the frame at a place with the free ones, if it is free now.
fn settle(frames: &mut Table, hints: &mut Hints, zones: &mut Zones, i: usize)
    requires zoned { AreZonedBut i zones.old frames.old.entries }
    ensures frames { (page : ℕ) → get nat_eq frames.new page ≡ get nat_eq frames.old page }
    ensures len { index_map_len frames.new ≡ index_map_len frames.old }
    ensures room { spare frames.old ≤ spare frames.new }
    ensures zoned { AreZoned zones.new frames.new.entries }
{
    if is_free_at(frames, i) {
        let last = zones.dirty - 1;
        swap(frames, hints, i, last);
        zones.dirty = last;
        zones.written = zones.written.min(last);
    }
}

/// Takes back a page that is lent, as a lease has made it. It moves at most one other frame.
pub(crate) fn take_back(
    frames: &mut Table,
    hints: &mut Hints,
    zones: &mut Zones,
    page: u32,
    found: &Page,
)
    requires zoned { AreZoned zones.old frames.old.entries }
    requires number { id_of found.now ≡ page }
    requires resident { IsSomeAnd (get nat_eq frames.old page) (λ f. (f.id ≡ page)
        × (f.lent ≢ None) × (f.content.lsn ≤ (state_of found.now).lsn)) }
    ensures puts { (f : Framed) → get nat_eq frames.old page ≡ Some f
        → Puts frames.old.entries frames.new.entries page (returned_frame (state_of found.now) f) }
    ensures len { index_map_len frames.new ≡ index_map_len frames.old }
    ensures room { spare frames.old ≤ spare frames.new }
    ensures zoned { AreZoned zones.new frames.new.entries }
{
    let Some(i) = place_of(frames, hints, page) else {
        unreachable!();
    };
    take_back_at(frames, i, found);
    settle(frames, hints, zones, i);
}

/// Notes that a page that is lent is no longer lent. It moves at most one other frame.
pub(crate) fn recall(frames: &mut Table, hints: &mut Hints, zones: &mut Zones, page: u32)
    requires zoned { AreZoned zones.old frames.old.entries }
    requires resident { IsSomeAnd (get nat_eq frames.old page) (λ f. f.lent ≢ None) }
    ensures puts { (f : Framed) → get nat_eq frames.old page ≡ Some f
        → Puts frames.old.entries frames.new.entries page (recalled_frame f) }
    ensures len { index_map_len frames.new ≡ index_map_len frames.old }
    ensures room { spare frames.old ≤ spare frames.new }
    ensures zoned { AreZoned zones.new frames.new.entries }
{
    let Some(i) = place_of(frames, hints, page) else {
        unreachable!();
    };
    recall_at(frames, i);
    settle(frames, hints, zones, i);
}

/// Notes that a page was written as it is now. It moves at most one other frame.
pub(crate) fn note_written(frames: &mut Table, hints: &mut Hints, zones: &mut Zones, page: u32)
    requires zoned { AreZoned zones.old frames.old.entries }
    ensures puts { (f : Framed) → get nat_eq frames.old page ≡ Some f
        → Puts frames.old.entries frames.new.entries page (written_frame f) }
    ensures len { index_map_len frames.new ≡ index_map_len frames.old }
    ensures room { spare frames.old ≤ spare frames.new }
    ensures zoned { AreZoned zones.new frames.new.entries }
{
    let Some(i) = place_of(frames, hints, page) else {
        return;
    };
    note_written_at(frames, i);
    let first = zones.written;
    if first <= i && i < zones.dirty {
        swap(frames, hints, i, first);
        zones.written = first + 1;
    }
}

// Notes that the last of the frames written since the last sync was synced.
fn settle_last(frames: &mut Table, hints: &mut Hints, zones: &mut Zones)
    requires zoned { AreZoned zones.old frames.old.entries }
    requires some { 0 < zones.old.written }
    ensures less { zones.new.written + 1 ≡ zones.old.written }
    ensures frames { (page : ℕ) → option_map synced_frame (get nat_eq frames.new page)
        ≡ option_map synced_frame (get nat_eq frames.old page) }
    ensures len { index_map_len frames.new ≡ index_map_len frames.old }
    ensures room { spare frames.old ≤ spare frames.new }
    ensures zoned { AreZoned zones.new frames.new.entries }
{
    let i = zones.written - 1;
    note_synced_at(frames, i);
    zones.written = i;
    if is_free_at(frames, i) {
        let last = zones.dirty - 1;
        swap(frames, hints, i, last);
        zones.dirty = last;
    }
}

/// Notes that the image of each page that was written last was synced. It looks at no frame but
/// those written since the last sync.
pub(crate) fn note_synced(frames: &mut Table, hints: &mut Hints, zones: &mut Zones)
    requires zoned { AreZoned zones.old frames.old.entries }
    ensures frames { (page : ℕ) → get nat_eq frames.new page
        ≡ option_map synced_frame (get nat_eq frames.old page) }
    ensures len { index_map_len frames.new ≡ index_map_len frames.old }
    ensures room { spare frames.old ≤ spare frames.new }
    ensures zoned { AreZoned zones.new frames.new.entries }
{
    while zones.written != 0 {
        settle_last(frames, hints, zones);
    }
}
