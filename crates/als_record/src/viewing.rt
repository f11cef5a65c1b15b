ghost use Rattle.std.specs.Prelude.{◌≡◌, ◌≢◌, true, ℕ, ◌≤◌, ◌++◌, List, length, take, drop, Some};
ghost use Rattle.std.specs.Prelude.{Ok, IsOk, IfOk, IfErr, IfSome};
ghost use Rattle.als_record.specs.declared.record.Record.{Record as AnyRecord};
ghost use Rattle.als_record.specs.declared.fault.Fault.TheVariants.{Memory};
ghost use Rattle.als_record.specs.Spelling.{spelling, record_len, IsRecord};
ghost use Rattle.als_record.specs.Reading.{Gives, is_size, is_type, type_at, headed, with_head};
ghost use Rattle.als_record.specs.Reading.{read_body, read_record};
ghost use Rattle.als_record.specs.Shown.{shown, shown_body, shown_found};

use crate::bodies::{checkpoint, compensation, update};
use crate::fault::Fault;
use crate::fields::{long, word};
use crate::limits::{HEAD_LEN, RECORD_LIMIT};
use crate::lsn::Lsn;
use crate::record_view::{BodyView, RecordView};
use crate::trans_id::TransId;

/// Is it a length that a record of this type may have?
#[inline]
fn may_be(kind: u8, size: usize) -> bool
    ensures { result ≡ is_size kind size }
{
    match kind {
        1 => 35 <= size && size <= 97,
        2 => 42 <= size && size <= 73,
        7 => 32 <= size && size <= RECORD_LIMIT,
        3..=6 | 8 => size == HEAD_LEN,
        _ => HEAD_LEN <= size && size <= RECORD_LIMIT,
    }
}

/// The record of this head and body, in so many bytes.
#[inline(always)]
fn found<'a>(
    bytes: &[u8],
    at: Lsn,
    size: usize,
    body: BodyView<'a>,
) -> Result<Option<(RecordView<'a>, usize)>, Fault>
    requires { 28 ≤ length bytes.now }
    ensures exact { Gives shown_found result
        (Ok (Some (headed at.0 bytes.now (shown_body body.entry), size))) }
    ensures ok { IsOk result }
{
    let view = RecordView {
        lsn: at,
        prev: Lsn(long(bytes, 16)),
        trans: TransId(word(bytes, 24)),
        body,
    };
    Ok(Some((view, size)))
}

/// The whole record of a type that there is. Each arm builds its view itself, which then needs no
/// move.
#[inline(always)]
#[tactic(auto, unfolding(crate::specs::Reading::read_body))]
fn whole<'a>(
    bytes: &'a [u8],
    at: Lsn,
    pages: u32,
    size: usize,
) -> Result<Option<(RecordView<'a>, usize)>, Fault>
    requires whole { size ≤ length bytes.now }
    requires kind { is_type (type_at bytes.now) ≡ true }
    requires size { is_size (type_at bytes.now) size ≡ true }
    ensures exact { Gives shown_found result
        (with_head at.0 bytes.now size (read_body pages (type_at bytes.now)
        (drop 28 (take size bytes.now)))) }
    ensures no_memory { IfErr result (λ e. e ≢ Memory) }
{
    let (front, _) = bytes.split_at(size);
    let (_, body) = front.split_at(HEAD_LEN);
    match bytes[4] {
        1 => found(bytes, at, size, update(pages, body)?),
        2 => found(bytes, at, size, compensation(pages, body)?),
        3 => found(bytes, at, size, BodyView::Commit),
        4 => found(bytes, at, size, BodyView::Rollback),
        5 => found(bytes, at, size, BodyView::End),
        6 => found(bytes, at, size, BodyView::BeginCheckpoint),
        7 => found(bytes, at, size, checkpoint(body)?),
        _ => found(bytes, at, size, BodyView::Prepare),
    }
}

/// The steps in order, of which the first that applies decides.
#[inline(always)]
#[tactic(auto, unfolding(crate::specs::Reading::read_record))]
fn read<'a>(bytes: &'a [u8], at: Lsn, pages: u32) -> Result<Option<(RecordView<'a>, usize)>, Fault>
    ensures exact { Gives shown_found result (read_record pages at.0 bytes.now) }
    ensures no_memory { IfErr result (λ e. e ≢ Memory) }
{
    if bytes.len() < HEAD_LEN {
        return Ok(None);
    }
    let size = word(bytes, 0) as usize;
    let kind = bytes[4];
    if !may_be(kind, size) {
        return Err(Fault::BadLength);
    }
    if !(1 <= kind && kind <= 8) {
        return Err(Fault::BadType);
    }
    if !(bytes[5] == 0 && bytes[6] == 0 && bytes[7] == 0) {
        return Err(Fault::BadReserved);
    }
    if long(bytes, 8) != at.0 {
        return Err(Fault::WrongLsn);
    }
    if bytes.len() < size {
        return Ok(None);
    }
    whole(bytes, at, pages, size)
}

/// The record at the front of the bytes as it lies there, and its length in bytes, for a log in
/// which it stands at `at` and a database of `pages` pages. `None`: more bytes are needed. It takes
/// no memory.
///
/// The first of these that applies decides: `BadLength` for a length that its type may not have,
/// `BadType`, `BadReserved`, `WrongLsn` for another own LSN than `at`, `None` for a record that is
/// not whole, `BadKey`, `BadValue`, and `BadLength` for a length that its fields do not make.
// Inlined with all that it calls, so that a view is not moved from answer to answer.
#[inline(always)]
pub fn view_record<'a>(
    bytes: &'a [u8],
    at: Lsn,
    pages: u32,
) -> Result<Option<(RecordView<'a>, usize)>, Fault>
    // What is found is spelled so.
    ensures found { IfOk result (λ o. IfSome o (λ x. (take x.1 bytes.now ≡ spelling (shown x.0))
        × (x.1 ≡ record_len (shown x.0))
        × (x.1 ≤ length bytes.now) × (x.0.lsn.0 ≡ at.0) × IsRecord pages (shown x.0))) }
    // What is spelled so is found.
    ensures only { (r : AnyRecord) (rest : List ℕ) → IsRecord pages r → r.lsn.0 ≡ at.0
        → bytes.now ≡ spelling r ++ rest
        → Gives shown_found result (Ok (Some (r, record_len r))) }
    // Which fault it is, and when more bytes are needed.
    ensures exact { Gives shown_found result (read_record pages at.0 bytes.now) }
    // Memory is never wanted.
    ensures no_memory { IfErr result (λ e. e ≢ Memory) }
{
    read(bytes, at, pages)
}
