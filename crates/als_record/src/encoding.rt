ghost use Rattle.std.specs.Prelude.{◌≡◌, ◌+◌, ◌*◌, ◌<◌, ◌≤◌, ◌^◌, [], ◌∷◌, ◌++◌, length, OnOk};
ghost use Rattle.std.specs.Prelude.{OnErr, IfErr, vec_len, vec_capacity};
ghost use Rattle.std.specs.Int.{w16, w32, w64, to_be_bytes};
ghost use Rattle.als_record.specs.declared.fault.Fault.TheVariants.{Memory};
ghost use Rattle.als_record.specs.Spelling.{type_byte, length_byte, head, body_bytes, body_len};
ghost use Rattle.als_record.specs.Spelling.{record_len, spelling};

use crate::fault::Fault;
use crate::image::Image;
use crate::key::Key;
use crate::lengths::{encoded_len, value_bytes};
use crate::lsn::Lsn;
use crate::record::{Body, Record};
use crate::row_writing::{append_pages, append_transactions};
use crate::trans_id::TransId;
use byteorder::{BigEndian, ByteOrder};

/// Appends bytes for which there is room.
#[inline]
pub(crate) fn append(out: &mut Vec<u8>, bytes: &[u8])
    requires { vec_len out.old + length bytes.now ≤ vec_capacity out.old }
    ensures items { out.new.items ≡ out.old.items ++ bytes.now }
    ensures len { vec_len out.new ≡ vec_len out.old + length bytes.now }
    ensures capacity { vec_capacity out.old ≤ vec_capacity out.new }
{
    match out.extend_from_slice(bytes) {
        Ok(()) => {}
        Err(_) => unreachable!(),
    }
}

/// The byte of a body's type.
#[inline]
fn kind_of(body: &Body) -> u8
    ensures { result ≡ type_byte body.now }
{
    match body {
        Body::Update { .. } => 1,
        Body::Compensation { .. } => 2,
        Body::Commit => 3,
        Body::Rollback => 4,
        Body::End => 5,
        Body::BeginCheckpoint => 6,
        Body::EndCheckpoint { .. } => 7,
        Body::Prepare => 8,
    }
}

/// The length byte of an image.
#[inline]
fn length_of(image: &Image) -> u8
    ensures { result ≡ length_byte image.now }
{
    match image {
        None => 255,
        Some(value) => value.as_slice().len() as u8,
    }
}

/// The common head of all records.
#[inline]
#[tactic(auto, unfolding(crate::specs::Spelling::head))]
fn head_bytes(size: u32, kind: u8, lsn: Lsn, prev: Lsn, trans: TransId) -> [u8; 28]
    ensures { result ≡ head size kind lsn.0 prev.0 trans.0 }
{
    let mut bytes = [0; 28];
    BigEndian::write_u32(&mut bytes, size);
    bytes[4] = kind;
    BigEndian::write_u64(&mut bytes[8..], lsn.0);
    BigEndian::write_u64(&mut bytes[16..], prev.0);
    BigEndian::write_u32(&mut bytes[24..], trans.0);
    bytes
}

/// The fixed part of an update's body.
#[inline]
fn update_front(key: Key, before: u8, after: u8) -> [u8; 7]
    ensures { result ≡ to_be_bytes w32 key.page ++ (key.slot ∷ before ∷ after ∷ []) }
{
    let mut bytes = [0; 7];
    BigEndian::write_u32(&mut bytes, key.page);
    bytes[4] = key.slot;
    bytes[5] = before;
    bytes[6] = after;
    bytes
}

/// The fixed part of a compensation's body.
#[inline]
fn compensation_front(undo_next: Lsn, key: Key, after: u8) -> [u8; 14]
    ensures { result ≡ to_be_bytes w64 undo_next.0 ++ to_be_bytes w32 key.page
        ++ (key.slot ∷ after ∷ []) }
{
    let mut bytes = [0; 14];
    BigEndian::write_u64(&mut bytes, undo_next.0);
    BigEndian::write_u32(&mut bytes[8..], key.page);
    bytes[12] = key.slot;
    bytes[13] = after;
    bytes
}

/// The counts of an end_chkpt's rows.
#[inline]
fn counts(transactions: u16, pages: u16) -> [u8; 4]
    ensures { result ≡ to_be_bytes w16 transactions ++ to_be_bytes w16 pages }
{
    let mut bytes = [0; 4];
    BigEndian::write_u16(&mut bytes, transactions);
    BigEndian::write_u16(&mut bytes[2..], pages);
    bytes
}

/// Appends a body for which there is room.
#[tactic(auto, unfolding(crate::specs::Spelling::body_bytes))]
fn append_body(out: &mut Vec<u8>, body: &Body)
    requires { vec_len out.old + body_len body.now ≤ vec_capacity out.old }
    ensures { out.new.items ≡ out.old.items ++ body_bytes body.now }
{
    match body {
        Body::Update { key, before, after } => {
            append(
                out,
                &update_front(*key, length_of(before), length_of(after)),
            );
            append(out, value_bytes(before));
            append(out, value_bytes(after));
        }
        Body::Compensation {
            undo_next,
            key,
            after,
        } => {
            append(out, &compensation_front(*undo_next, *key, length_of(after)));
            append(out, value_bytes(after));
        }
        Body::Commit | Body::Rollback | Body::End | Body::BeginCheckpoint | Body::Prepare => {}
        Body::EndCheckpoint {
            transactions,
            pages,
        } => {
            let first = transactions.as_slice();
            let second = pages.as_slice();
            append(out, &counts(first.len() as u16, second.len() as u16));
            append_transactions(out, first);
            append_pages(out, second);
        }
    }
}

/// Appends a record's bytes. `Memory` comes only where the room for them had to grow and could not;
/// then nothing is appended.
#[tactic(auto, unfolding(crate::specs::Spelling::spelling, crate::specs::Spelling::record_len))]
pub fn encode(logged: &Record, out: &mut Vec<u8>) -> Result<(), Fault>
    ensures ok { OnOk result (out.new.items ≡ out.old.items ++ spelling logged.now) }
    ensures err { OnErr result (out.new.items ≡ out.old.items) }
    ensures full { OnErr result (vec_capacity out.old < vec_len out.old + record_len logged.now) }
    ensures memory { IfErr result (λ e. e ≡ Memory) }
{
    let size = encoded_len(logged);
    out.reserve(size)?;
    let kind = kind_of(&logged.body);
    append(
        out,
        &head_bytes(size as u32, kind, logged.lsn, logged.prev, logged.trans),
    );
    append_body(out, &logged.body);
    Ok(())
}
