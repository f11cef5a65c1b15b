// A text read back: its front from the device, and the rest from memory.
ghost use Rattle.std.specs.Prelude.{◌≡◌, ◌⊎◌, ℕ, ◌<◌, ◌≤◌, ◌+◌, ◌-◌, ◌*◌, ◌/◌, List, length, take};
ghost use Rattle.std.specs.Prelude.{drop, slice_index, Some, None, IfOk, IfErr, IsOk, IfSome, OnOk};
ghost use Rattle.als_record.specs.declared.record.Record.{Record as AnyRecord};
ghost use Rattle.als_record.specs.Spelling.{spelling, IsRecord};
ghost use Rattle.als_record.specs.LogText.{end_of, log_text};
ghost use Rattle.als_record.specs.Reading.{HasRows, word_at};
ghost use Rattle.als_disk.specs.Failures.{CountsFailure};
ghost use Rattle.als_disk.specs.Slot.{Slot, SameBlocks};
ghost use Rattle.als_log.specs.History.{records_in};
ghost use Rattle.als_log.specs.Local.{IsFrontEnd};
ghost use Rattle.als_log.specs.Near.{IsNear, IsAtHand, block_of};
ghost use Rattle.als_log.specs.Reading.{record_at, HasRecord, IsSource, IsReadable, FailsToRead};
ghost use Rattle.als_log.specs.Reading.{FailsToLook, without_record};
ghost use Rattle.als_log.specs.declared.fault.Fault.TheVariants.{Memory as OutOfMemory};

use crate::fault::Fault;
use crate::history::History;
use crate::near::Near;
use crate::part::Part;
use crate::source::Source;
use crate::tail::word;
use als_disk::{BlockDisk, DeviceError};
use als_record::{Lsn, RECORD_LIMIT, Record, decode};
use std::alloc::Global;

/// Brings the byte at an offset to hand: its block is read and kept, unless memory has the byte.
fn bring<D: BlockDisk>(
    disk: &mut D,
    near: &mut Near,
    source: Source<'_>,
    at: u64,
) -> Result<(), DeviceError>
    requires whole { 512 * (source.base / 512) ≡ source.base }
    requires within { at < source.base + length source.bytes.now }
    requires fits { source.base + length source.bytes.now ≤ 512 * D.block_count disk.old }
    ensures ok { OnOk result ((text : List ℕ)
        → IsSource (D.slot disk.old) source.entry.bytes.now text source.entry.base
        → IsNear near.old text source.entry.base → IsAtHand near.new text source.entry.base at) }
    ensures near { (text : List ℕ)
        → IsSource (D.slot disk.old) source.entry.bytes.now text source.entry.base
        → IsNear near.old text source.entry.base → IsNear near.new text source.entry.base }
    ensures same { SameBlocks (D.slot disk.old) (D.slot disk.new) }
    ensures count { D.block_count disk.new ≡ D.block_count disk.old }
    ensures attempts { D.attempts disk.new ≡ D.attempts disk.old }
    ensures failures { CountsFailure result (D.failures disk.old) (D.failures disk.new) }
{
    if source.base <= at {
        return Ok(());
    }
    near.fetch(disk, at / 512)?;
    Ok(())
}

/// The bytes of a kept block from a place on.
fn rest_of(near: &Near, i: u64, low: usize) -> &[u8]
    requires { low < 512 }
    ensures bytes { result.now ≡ drop low (block_of near.now i) }
    ensures len { length result.now + low ≡ 512 }
{
    let (_, rest) = near.block(i).split_at(low);
    rest
}

/// The bytes of the text that are at hand from an offset on: those of its block, or all that memory
/// has.
fn seen<'a>(near: &'a Near, source: Source<'a>, at: u64) -> &'a [u8]
    requires whole { 512 * (source.base / 512) ≡ source.base }
    requires within { at < source.base + length source.bytes.now }
    ensures some { 0 < length result.now }
    ensures within { at + length result.now ≤ source.entry.base + length source.entry.bytes.now }
    ensures text { (slots : ℕ → Slot) (text : List ℕ)
        → IsSource slots source.entry.bytes.now text source.entry.base → IsAtHand near.now text source.entry.base at
        → (k : ℕ) → k < length result.now → slice_index result.now k ≡ slice_index text (at + k) }
{
    if source.base <= at {
        let (_, rest) = source.bytes.split_at((at - source.base) as usize);
        rest
    } else {
        rest_of(near, at / 512, (at % 512) as usize)
    }
}

/// Appends the first bytes of a slice, until there are `most`.
fn push_part(out: &mut Part, bytes: &[u8], most: usize)
    requires some { 0 < length bytes.now }
    requires more { length out.old < most }
    requires most { most ≤ 54560 }
    ensures more { (length out.old < length out.new) × (length out.new ≤ most) }
    ensures within { length out.new - length out.old ≤ length bytes.now }
    ensures kept { (k : ℕ) → k < length out.old → slice_index out.new k ≡ slice_index out.old k }
    ensures part { (k : ℕ) → k < length out.new - length out.old
        → slice_index out.new (length out.old + k) ≡ slice_index bytes.now k }
{
    let size = bytes.len().min(most - out.len());
    let (part, _) = bytes.split_at(size);
    out.push(part);
}

/// Appends bytes of the text from an offset on, as many as are at hand there, until there are `most`.
fn push_more<D: BlockDisk>(
    disk: &mut D,
    near: &mut Near,
    source: Source<'_>,
    from: u64,
    out: &mut Part,
    most: usize,
) -> Result<(), DeviceError>
    requires whole { 512 * (source.base / 512) ≡ source.base }
    requires within { from < source.base + length source.bytes.now }
    requires fits { source.base + length source.bytes.now ≤ 512 * D.block_count disk.old }
    requires more { length out.old < most }
    requires most { most ≤ 54560 }
    ensures more { OnOk result ((length out.old < length out.new) × (length out.new ≤ most)) }
    ensures kept { OnOk result ((k : ℕ) → k < length out.old
        → slice_index out.new k ≡ slice_index out.old k) }
    ensures part { OnOk result ((text : List ℕ)
        → IsSource (D.slot disk.old) source.entry.bytes.now text source.entry.base
        → IsNear near.old text source.entry.base → (k : ℕ) → k < length out.new - length out.old
        → slice_index out.new (length out.old + k) ≡ slice_index text (from + k)) }
    ensures near { (text : List ℕ)
        → IsSource (D.slot disk.old) source.entry.bytes.now text source.entry.base
        → IsNear near.old text source.entry.base → IsNear near.new text source.entry.base }
    ensures same { SameBlocks (D.slot disk.old) (D.slot disk.new) }
    ensures count { D.block_count disk.new ≡ D.block_count disk.old }
    ensures attempts { D.attempts disk.new ≡ D.attempts disk.old }
    ensures failures { CountsFailure result (D.failures disk.old) (D.failures disk.new) }
{
    bring(disk, near, source, from)?;
    push_part(out, seen(near, source, from), most);
    Ok(())
}

/// Reads bytes of the text, no more than the longest record has.
fn read_text<D: BlockDisk>(
    disk: &mut D,
    near: &mut Near,
    source: Source<'_>,
    at: u64,
    count: usize,
    out: &mut Part,
) -> Result<(), DeviceError>
    requires few { D.block_count disk.old ≤ 4194304 }
    requires whole { 512 * (source.base / 512) ≡ source.base }
    requires within { at + count ≤ source.base + length source.bytes.now }
    requires fits { source.base + length source.bytes.now ≤ 512 * D.block_count disk.old }
    requires room { count ≤ 54560 }
    ensures ok { OnOk result ((text : List ℕ)
        → IsSource (D.slot disk.old) source.entry.bytes.now text source.entry.base
        → IsNear near.old text source.entry.base → out.new ≡ take count (drop at text)) }
    ensures len { OnOk result (length out.new ≡ count) }
    ensures near { (text : List ℕ)
        → IsSource (D.slot disk.old) source.entry.bytes.now text source.entry.base
        → IsNear near.old text source.entry.base → IsNear near.new text source.entry.base }
    ensures same { SameBlocks (D.slot disk.old) (D.slot disk.new) }
    ensures count { D.block_count disk.new ≡ D.block_count disk.old }
    ensures attempts { D.attempts disk.new ≡ D.attempts disk.old }
    ensures failures { CountsFailure result (D.failures disk.old) (D.failures disk.new) }
{
    out.clear();
    while out.len() < count {
        let from = at + out.len() as u64;
        push_more(disk, near, source, from, out, count)?;
    }
    Ok(())
}

/// Goes from one record to the next by their length fields, from the end of some records to the
/// first end that is not below `to`.
fn walk<D: BlockDisk>(
    source: Source<'_>,
    disk: &mut D,
    from: u64,
    to: u64,
    near: &mut Near,
    part: &mut Part,
) -> Result<u64, DeviceError>
    requires readable { IsReadable source.pages (records_in source.history.now) (D.slot disk.old)
        (D.block_count disk.old) source.bytes.now source.base near.old }
    requires from { IsFrontEnd (records_in source.history.now) from }
    requires order { from ≤ to }
    requires within { to < end_of (records_in source.history.now) }
    ensures front { IfOk result (λ at. IsFrontEnd (records_in source.entry.history.now) at) }
    ensures past { IfOk result (λ at. (at ≡ to)
        ⊎ (record_at (records_in source.entry.history.now) to ≡ None)) }
    ensures near { IsNear near.new
        (log_text source.entry.pages (records_in source.entry.history.now)) source.entry.base }
    ensures same { SameBlocks (D.slot disk.old) (D.slot disk.new) }
    ensures count { D.block_count disk.new ≡ D.block_count disk.old }
    ensures attempts { D.attempts disk.new ≡ D.attempts disk.old }
    ensures failures { CountsFailure result (D.failures disk.old) (D.failures disk.new) }
{
    let mut at = from;
    while at < to {
        read_text(disk, near, source, at, 4, part)?;
        at += u64::from(word(part.as_slice(), 0));
    }
    Ok(at)
}

/// Reads the record that stands at an offset.
pub(crate) fn read_record<D: BlockDisk>(
    source: Source<'_>,
    alloc: Global,
    disk: &mut D,
    at: u64,
    near: &mut Near,
    part: &mut Part,
) -> Result<Record, Fault>
    requires readable { IsReadable source.pages (records_in source.history.now) (D.slot disk.old)
        (D.block_count disk.old) source.bytes.now source.base near.old }
    requires front { IsFrontEnd (records_in source.history.now) at }
    requires within { at < end_of (records_in source.history.now) }
    ensures ok { IfOk result (λ r. record_at (records_in source.entry.history.now) at ≡ Some r) }
    ensures near { IsNear near.new
        (log_text source.entry.pages (records_in source.entry.history.now)) source.entry.base }
    ensures same { SameBlocks (D.slot disk.old) (D.slot disk.new) }
    ensures count { D.block_count disk.new ≡ D.block_count disk.old }
    ensures attempts { D.attempts disk.new ≡ D.attempts disk.old }
    ensures done { OnOk result (D.failures disk.new ≡ D.failures disk.old) }
    ensures err { IfErr result (λ e. FailsToRead (records_in source.entry.history.now) at e
        (D.failures disk.old) (D.failures disk.new)) }
{
    read_text(disk, near, source, at, 4, part)?;
    let size = word(part.as_slice(), 0) as usize;
    read_text(disk, near, source, at, size, part)?;
    match decode(alloc, part.as_slice(), Lsn(at), source.pages) {
        Ok(Some((found, _))) => Ok(found),
        Ok(None) => unreachable!(),
        // Only want of memory is left, for the rows of an end_chkpt.
        Err(_) => Err(Fault::Memory),
    }
}

/// What a fault of `decode` says where a record is looked for.
fn no_record(fault: als_record::Fault) -> Result<Option<Record>, Fault>
    ensures { result ≡ without_record fault }
{
    match fault {
        als_record::Fault::Memory => Err(Fault::Memory),
        _ => Ok(None),
    }
}

/// The record that these bytes spell, if they spell one.
// Inlined, as all behind `LocalLog::record` that reads a record where it lies: what its caller does
// not ask for is then not copied.
#[inline(always)]
fn decoded(alloc: Global, bytes: &[u8], at: u64, pages: u32) -> Result<Option<Record>, Fault>
    ensures found { (r : AnyRecord) → IsRecord pages r → r.lsn.0 ≡ at → bytes.now ≡ spelling r
        → IfOk result (λ found. found ≡ Some r) }
    ensures err { IfErr result (λ e. (e ≡ OutOfMemory) × ((r : AnyRecord) → IsRecord pages r
        → r.lsn.0 ≡ at → bytes.now ≡ spelling r → HasRows r.body)) }
{
    match decode(alloc, bytes, Lsn(at), pages) {
        Ok(Some((found, _))) => Ok(Some(found)),
        Ok(None) => Ok(None),
        Err(fault) => no_record(fault),
    }
}

/// Reads the record that stands at an offset, where one does, collecting its bytes from all blocks
/// in which it lies. Of any other offset it is only said that nothing breaks.
#[inline(never)]
fn look_far<D: BlockDisk>(
    source: Source<'_>,
    alloc: Global,
    disk: &mut D,
    at: u64,
    near: &mut Near,
    part: &mut Part,
) -> Result<Option<Record>, Fault>
    requires { IsReadable source.pages (records_in source.history.now) (D.slot disk.old)
        (D.block_count disk.old) source.bytes.now source.base near.old }
    ensures ok { HasRecord (records_in source.entry.history.now) at
        → IfOk result (λ found. found ≡ record_at (records_in source.entry.history.now) at) }
    ensures near { IsNear near.new
        (log_text source.entry.pages (records_in source.entry.history.now)) source.entry.base }
    ensures same { SameBlocks (D.slot disk.old) (D.slot disk.new) }
    ensures count { D.block_count disk.new ≡ D.block_count disk.old }
    ensures attempts { D.attempts disk.new ≡ D.attempts disk.old }
    ensures done { OnOk result (D.failures disk.new ≡ D.failures disk.old) }
    ensures err { IfErr result (λ e. FailsToLook (records_in source.entry.history.now) at e
        (D.failures disk.old) (D.failures disk.new)) }
{
    let end = source.base + source.bytes.len() as u64;
    if end < at.saturating_add(4) {
        return Ok(None);
    }
    read_text(disk, near, source, at, 4, part)?;
    let size = word(part.as_slice(), 0) as usize;
    if size > RECORD_LIMIT || end - at < size as u64 {
        return Ok(None);
    }
    read_text(disk, near, source, at, size, part)?;
    decoded(alloc, part.as_slice(), at, source.pages)
}

/// The bytes of the record at the front of these, by its length field. `None`: they do not have all
/// of it.
fn front_of(bytes: &[u8]) -> Option<&[u8]>
    ensures { IfSome result (λ front. (4 ≤ length bytes.now)
        × (word_at 0 bytes.now ≤ length bytes.now)
        × (front.now ≡ take (word_at 0 bytes.now) bytes.now)) }
{
    if bytes.len() < 4 {
        return None;
    }
    let size = word(bytes, 0) as usize;
    if bytes.len() < size {
        return None;
    }
    let (front, _) = bytes.split_at(size);
    Some(front)
}

/// Reads the record that stands at an offset, where one does. A record that lies in one block, or in
/// memory, is decoded there. Of any other offset it is only said that nothing breaks.
#[inline(always)]
pub(crate) fn look<D: BlockDisk>(
    source: Source<'_>,
    alloc: Global,
    disk: &mut D,
    at: u64,
    near: &mut Near,
    part: &mut Part,
) -> Result<Option<Record>, Fault>
    requires { IsReadable source.pages (records_in source.history.now) (D.slot disk.old)
        (D.block_count disk.old) source.bytes.now source.base near.old }
    ensures ok { HasRecord (records_in source.entry.history.now) at
        → IfOk result (λ found. found ≡ record_at (records_in source.entry.history.now) at) }
    ensures near { IsNear near.new
        (log_text source.entry.pages (records_in source.entry.history.now)) source.entry.base }
    ensures same { SameBlocks (D.slot disk.old) (D.slot disk.new) }
    ensures count { D.block_count disk.new ≡ D.block_count disk.old }
    ensures attempts { D.attempts disk.new ≡ D.attempts disk.old }
    ensures done { OnOk result (D.failures disk.new ≡ D.failures disk.old) }
    ensures err { IfErr result (λ e. FailsToLook (records_in source.entry.history.now) at e
        (D.failures disk.old) (D.failures disk.new)) }
{
    let end = source.base + source.bytes.len() as u64;
    if end <= at {
        return Ok(None);
    }
    bring(disk, near, source, at)?;
    if let Some(front) = front_of(seen(near, source, at)) {
        return decoded(alloc, front, at, source.pages);
    }
    look_far(source, alloc, disk, at, near, part)
}

/// Where a walk to an offset begins: at the end that was reached before, or else behind the header.
fn start_of(history: &History, cursor: u64, to: u64) -> u64
    requires cursor { IsFrontEnd (records_in history.now) cursor }
    requires low { 16 ≤ to }
    ensures front { IsFrontEnd (records_in history.now) result }
    ensures order { result ≤ to }
{
    if cursor <= to { cursor } else { 16 }
}

/// Finds the record at an offset, and tells where the walk ended. It begins at `cursor`, the end of
/// some records, or behind the header where that is past the offset.
pub(crate) fn find<D: BlockDisk>(
    source: Source<'_>,
    alloc: Global,
    disk: &mut D,
    cursor: u64,
    to: u64,
    near: &mut Near,
    part: &mut Part,
) -> Result<(u64, Option<Record>), Fault>
    requires readable { IsReadable source.pages (records_in source.history.now) (D.slot disk.old)
        (D.block_count disk.old) source.bytes.now source.base near.old }
    requires cursor { IsFrontEnd (records_in source.history.now) cursor }
    ensures front { IfOk result (λ x. IsFrontEnd (records_in source.entry.history.now) x.0) }
    ensures ok { IfOk result (λ x. x.1 ≡ record_at (records_in source.entry.history.now) to) }
    ensures near { IsNear near.new
        (log_text source.entry.pages (records_in source.entry.history.now)) source.entry.base }
    ensures same { SameBlocks (D.slot disk.old) (D.slot disk.new) }
    ensures count { D.block_count disk.new ≡ D.block_count disk.old }
    ensures attempts { D.attempts disk.new ≡ D.attempts disk.old }
    ensures done { OnOk result (D.failures disk.new ≡ D.failures disk.old) }
    ensures err { IfErr result (λ e. FailsToRead (records_in source.entry.history.now) to e
        (D.failures disk.old) (D.failures disk.new)) }
    ensures past { end_of (records_in source.entry.history.now) ≤ to → IsOk result }
{
    let end = source.base + source.bytes.len() as u64;
    if to < 16 {
        return Ok((cursor, None));
    }
    if end <= to {
        return Ok((cursor, None));
    }
    let from = start_of(source.history, cursor, to);
    let at = walk(source, disk, from, to, near, part)?;
    if at != to {
        return Ok((at, None));
    }
    let found = read_record(source, alloc, disk, at, near, part)?;
    Ok((at, Some(found)))
}
