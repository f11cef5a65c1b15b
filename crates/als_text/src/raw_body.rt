ghost use Rattle.std.specs.Prelude.{◌≡◌, ◌≤◌, ◌++◌, ◌∷◌, [], OnOk};
ghost use Rattle.std.specs.Int.{w32, w64, to_be_bytes};
ghost use Rattle.als_record.specs.Spelling.{type_byte, body_len, body_bytes};
ghost use Rattle.als_text.specs.RawRecord.{body_of};

use crate::raw_image::{RawImage, image_bytes, length_byte};
use std::alloc::AllocError;

/// What a raw record says, with numbers and values that need not be those of a record that is held.
#[derive(Drop)]
pub enum RawBody {
    Update {
        page: u32,
        slot: u8,
        before: RawImage,
        after: RawImage,
    },
    Compensation {
        page: u32,
        slot: u8,
        after: RawImage,
        undo_next: u64,
    },
    Commit,
    Rollback,
    End,
    BeginCheckpoint,
    /// With empty tables.
    EndCheckpoint,
    Prepare,
}

/// The type byte of a body's record.
pub fn kind_of(body: &RawBody) -> u8
    ensures { result ≡ type_byte (body_of body.now) }
{
    match body {
        RawBody::Update { .. } => 1,
        RawBody::Compensation { .. } => 2,
        RawBody::Commit => 3,
        RawBody::Rollback => 4,
        RawBody::End => 5,
        RawBody::BeginCheckpoint => 6,
        RawBody::EndCheckpoint => 7,
        RawBody::Prepare => 8,
    }
}

/// How many bytes follow the head of a body's record.
pub fn spelled_len(body: &RawBody) -> u32
    ensures len { result ≡ body_len (body_of body.now) }
    ensures limit { result ≤ 515 }
{
    match body {
        RawBody::Update { before, after, .. } => {
            7 + image_bytes(before).len() as u32 + image_bytes(after).len() as u32
        }
        RawBody::Compensation { after, .. } => 14 + image_bytes(after).len() as u32,
        RawBody::EndCheckpoint => 4,
        _ => 0,
    }
}

/// Appends what follows the head of a body's record.
#[tactic(auto, unfolding(als_record::specs::Spelling::body_bytes))]
pub fn spell(body: &RawBody, text: &mut Vec<u8>) -> Result<(), AllocError>
    ensures { OnOk result (text.new.items ≡ text.old.items ++ body_bytes (body_of body.now)) }
{
    match body {
        RawBody::Update {
            page,
            slot,
            before,
            after,
        } => {
            text.extend_from_slice(&update_front(
                *page,
                *slot,
                length_byte(before),
                length_byte(after),
            ))?;
            text.extend_from_slice(image_bytes(before))?;
            text.extend_from_slice(image_bytes(after))?;
        }
        RawBody::Compensation {
            page,
            slot,
            after,
            undo_next,
        } => {
            text.extend_from_slice(&compensation_front(
                *undo_next,
                *page,
                *slot,
                length_byte(after),
            ))?;
            text.extend_from_slice(image_bytes(after))?;
        }
        RawBody::EndCheckpoint => text.extend_from_slice(&[0; 4])?,
        _ => {}
    }
    Ok(())
}

/// An update's key, and the lengths of its images.
fn update_front(page: u32, slot: u8, before: u8, after: u8) -> [u8; 7]
    ensures { result ≡ to_be_bytes w32 page ++ (slot ∷ before ∷ after ∷ []) }
{
    let p = page.to_be_bytes();
    [p[0], p[1], p[2], p[3], slot, before, after]
}

/// A compensation's UndoNxtLSN and key, and the length of its image.
fn compensation_front(undo_next: u64, page: u32, slot: u8, after: u8) -> [u8; 14]
    ensures { result ≡ to_be_bytes w64 undo_next ++ to_be_bytes w32 page ++ (slot ∷ after ∷ []) }
{
    let u = undo_next.to_be_bytes();
    let p = page.to_be_bytes();
    [
        u[0], u[1], u[2], u[3], u[4], u[5], u[6], u[7], p[0], p[1], p[2], p[3], slot, after,
    ]
}
